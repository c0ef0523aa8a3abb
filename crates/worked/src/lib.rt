//! Plans worked by hand, shown of the definitions that the library's contracts cite.
#![tactic(auto)]

ghost use Rattle.worked.specs.Printed.{Printed};
ghost use Rattle.worked.specs.Refused.{Refused};
ghost use Rattle.worked.specs.Unsafe.{UnsafePlans};
ghost use Rattle.worked.specs.Worked.{Worked};

/// The definitions give the answers that were found by hand, and call unsafe what was found to be so.
pub fn worked_plans_stand()
    ensures plans { Worked }
    ensures refusals { Refused }
    ensures prints { Printed }
    ensures unsafe_plans { UnsafePlans }
{}
