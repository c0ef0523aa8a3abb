//! The packets of one periodic sender, with their limits.
ghost use Rattle.holds.specs.Limits.{latest, longest};
ghost use Rattle.std.specs.Option.{option_map};
ghost use Rattle.std.specs.Prelude.{◌≡◌, ◌<◌, ◌≤◌};

use super::{LATEST, LONGEST};

/// Packet k, from 0, arrives at arrival + k * period. It must be read by the earliest run of its reader that starts at or after
/// due + k * period. Arrival and due instant of packet 0 are at most 2^62, and the period is from 1 to 255 * 65,536.
#[derive(Clone, Copy)]
pub struct Deliveries {
    pub arrival: u64,
    pub due: u64,
    pub period: u32,
    ghost soon: { arrival ≤ latest },
    ghost near: { due ≤ latest },
    ghost some: { 0 < period },
    ghost short: { period ≤ longest },
}

impl Deliveries {
    ghost use Rattle.holds.specs.Held.{flow, flowing};

    /// The deliveries of these numbers, or none outside the limits.
    pub fn new(arrival: u64, due: u64, period: u32) -> Option<Deliveries>
        ensures { option_map flow result ≡ flowing arrival due period }
    {
        if arrival <= LATEST && due <= LATEST && 0 < period && period <= LONGEST {
            Some(Deliveries {
                arrival,
                due,
                period,
            })
        } else {
            None
        }
    }
}
