//! A periodic hold of one place, with its limits.
ghost use Rattle.holds.specs.Limits.{latest, longest};
ghost use Rattle.std.specs.Option.{option_map};
ghost use Rattle.std.specs.Prelude.{◌≡◌, ◌<◌, ◌≤◌};

use super::{LATEST, LONGEST};

/// Run k, from 0, holds the place from start + k * period for `width` instants. The first start is at most 2^62, the period at
/// most 255 * 65,536, and the width from 1 to the period.
#[derive(Clone, Copy)]
pub struct Hold {
    pub start: u64,
    pub period: u32,
    pub width: u32,
    ghost near: { start ≤ latest },
    ghost some: { 0 < width },
    ghost fits: { width ≤ period },
    ghost short: { period ≤ longest },
}

impl Hold {
    ghost use Rattle.holds.specs.Held.{span, spanned};

    /// The hold of these numbers, or none outside the limits.
    pub fn new(start: u64, period: u32, width: u32) -> Option<Hold>
        ensures { option_map span result ≡ spanned start period width }
    {
        // toolchain: a closure for `then` would have to ask for the limits again
        if start <= LATEST && 0 < width && width <= period && period <= LONGEST {
            Some(Hold {
                start,
                period,
                width,
            })
        } else {
            None
        }
    }
}
