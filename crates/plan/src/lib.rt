//! One plan over any fabric: tasks and messages are offered, and held where no check refuses them.
#![tactic(auto)]

ghost use Rattle.plan.specs.Round.{RoundTrip, SameBytes};

pub mod fault;
mod layout;
pub mod plan;

pub use plan::Plan;

/// The job part of what a clean plan holds, in ascending names that fit in two bytes, loads into a new plan as the same jobs; and plans that
/// hold the same jobs in ascending names write the same bytes.
pub fn plans_stand()
    ensures back { RoundTrip }
    ensures same { SameBytes }
{}
