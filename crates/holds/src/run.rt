//! Which run of a hold an instant lies in.
ghost use Rattle.holds.specs.Held.{span};
ghost use Rattle.holds.specs.Run.{RunAt, run};
ghost use Rattle.std.specs.Prelude.{◌≡◌};

use super::hold::Hold;

/// The run of `h` that holds the instant `n`.
#[tactic(auto, using(crate::proofs::Busy::run_is, crate::proofs::Limits::proper))]
pub fn run_at(h: Hold, n: u64) -> Option<u64>
    ensures value { result ≡ run (span h) n }
    ensures instants { RunAt (span h) n result }
{
    let passed = n.checked_sub(h.start)?;
    let period = h.period as u64;
    (passed % period < h.width as u64).then_some(passed / period)
}
