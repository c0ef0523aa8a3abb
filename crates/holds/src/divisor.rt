//! The greatest common divisor, and differences modulo it.
ghost use Rattle.std.specs.Prelude.{◌≡◌, ◌<◌, ◌≤◌};
ghost use Rattle.holds.specs.Gcd.{gcd};
ghost use Rattle.holds.specs.Limits.{latest};
ghost use Rattle.holds.specs.Span.{gap};

#[tactic(auto, using(crate::proofs::Euclid::gcd_zero, crate::proofs::Euclid::gcd_step))]
pub(crate) fn gcd(a: u32, b: u32) -> u32
    ensures { result ≡ gcd a b }
{
    if b == 0 { a } else { gcd(b, a % b) }
}

// (to - from) mod g.
#[tactic(auto, unfolding(crate::specs::Span::gap))]
pub(crate) fn gap(from: u64, to: u64, g: u32) -> u64
    requires { (0 < g) × (to ≤ latest) }
    ensures { result ≡ gap from to g }
{
    let g = g as u64;
    (to + (g - from % g)) % g
}
