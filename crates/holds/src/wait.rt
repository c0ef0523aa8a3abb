//! How long a hold of one place must be put off to be clear of another.
ghost use Rattle.holds.specs.Held.{span};
ghost use Rattle.holds.specs.Span.{Meet, later};
ghost use Rattle.holds.specs.Walk.{Least};

use super::divisor::{gap, gcd};
use super::hold::Hold;

/// By how many instants `own` must be put off, at the least, to be clear of `held`; none where it never is.
///
/// Only the distance of the starts modulo the divisor of both periods counts. Put off by one instant, it grows by one and turns
/// around at the divisor, and it is clear from the width of `held` up to what leaves room for that of `own`.
#[tactic(auto, using(crate::proofs::Residue::gap_in_gcd))]
pub fn least_wait(own: Hold, held: Hold) -> Option<u32>
    ensures { Least (λ x. Meet (span held) (later x (span own)) → ⊥) result }
{
    let g = gcd(held.period, own.period);
    let d = gap(held.start, own.start, g) as u32;
    let left = g - d;
    if g < held.width + own.width {
        None
    } else if d < held.width {
        Some(held.width - d)
    } else if left < own.width {
        Some(left + held.width)
    } else {
        Some(0)
    }
}
