//! Whether two holds of one place meet, and where first.
ghost use Rattle.std.specs.Prelude.{◌≡◌, ◌≤◌, ◌^◌, Decides};
ghost use Rattle.holds.specs.First.{IsFirst, first};
ghost use Rattle.holds.specs.Held.{span};
ghost use Rattle.holds.specs.Span.{Clear, Meet};
ghost use Rattle.holds.specs.Walk.{EndsAfter};

use super::divisor::{gap, gcd};
use super::hold::Hold;
use super::landing::first_landing;

/// Whether no instant lies in both.
#[tactic(auto, using(crate::proofs::Residue::gap_in_gcd, crate::proofs::Pair::decided_then, crate::proofs::Pair::decided_else))]
pub fn clear(one: Hold, other: Hold) -> bool
    ensures formula { Decides result (Clear (span one) (span other)) }
    ensures apart { Decides result (Meet (span one) (span other) → ⊥) }
{
    let g = gcd(one.period, other.period);
    let d = gap(one.start, other.start, g);
    (one.width as u64) <= d && d + other.width as u64 <= g as u64
}

/// The first instant that lies in both.
///
/// Run k of `one` meets a run of `other` exactly when its last instant, counted from the start of `other`, falls on one of the
/// first width + width - 1 places of the period of `other`. So the run is the first landing of a walk around that period.
pub fn first_meeting(one: Hold, other: Hold) -> Option<u64>
    ensures formula { result ≡ first (span one) (span other) }
    ensures instants { IsFirst (span one) (span other) result }
{
    let begin = ending_after(one, other.start);
    let ahead = begin + one.width as u64 - 1 - other.start;
    let at = (ahead % other.period as u64) as u32;
    let j = first_landing(
        at,
        one.period % other.period,
        other.period,
        one.width + other.width - 1,
    )?;
    let run = begin + j as u64 * one.period as u64;
    Some(run.max(ending_after(other, run)))
}

// The start of the first run of `h` that ends after the instant `n`.
#[tactic(auto, using(crate::proofs::Runs::ends_later, crate::proofs::Limits::proper))]
fn ending_after(h: Hold, n: u64) -> u64
    requires { n ≤ 2 ^ 63 }
    ensures { EndsAfter (span h) n result }
{
    let period = h.period as u64;
    let end = h.start + h.width as u64;
    if n < end {
        h.start
    } else {
        h.start + ((n - end) / period + 1) * period
    }
}
