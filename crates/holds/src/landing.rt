//! The first landing of a walk around a circle by equal steps, by turns as in Euclid's algorithm.
ghost use Rattle.std.specs.Prelude.{◌≡◌, ℕ, ◌*◌, ◌<◌, ◌≤◌};
ghost use Rattle.holds.specs.Limits.{longest};
ghost use Rattle.holds.specs.Walk.{Lands, Least, Room};

// From the place `at` by `step` around `size` places; it lands on one of the first `wide`. Landing number t after k rounds is
// landing number each * t + past * k + count of the first walk.
#[derive(Clone, Copy)]
pub(crate) struct Walk {
    pub at: u32,
    pub step: u32,
    pub size: u32,
    pub wide: u32,
    pub each: u32,
    pub past: u32,
    pub count: u32,
    ghost room: { Room longest at step size each past count },
}

impl Walk {
    ghost use Rattle.holds.specs.Landing.{CountsFor};

    // The first walk.
    #[tactic(auto, using(crate::proofs::Walk::carried_first, crate::proofs::Walk::room_first))]
    fn new(at: u32, step: u32, size: u32, wide: u32) -> Walk
        requires { (at < size) × ((step < size) × (size ≤ longest)) }
        ensures { CountsFor at step size wide result }
    {
        Walk {
            at,
            step,
            size,
            wide,
            each: 1,
            past: 0,
            count: 0,
        }
    }

    // The walk r, r + a, r + 2a, .. passes m some k times; by which k it first lands is a walk of the steps m around a.
    fn of_rounds(self) -> Walk
        requires { (0 < self.step) × (self.wide ≤ self.at) }
        ensures counts { (r a m w : ℕ) → CountsFor r a m w self → CountsFor r a m w result }
        ensures falls { 2 * (result.size * result.step) < self.size * self.step }
    {
        let wide = self.wide.min(self.step);
        let ahead = self.size - self.at - 1 + wide;
        Walk {
            at: ahead % self.step,
            step: self.size % self.step,
            size: self.step,
            wide,
            each: self.each * (self.size / self.step) + self.past,
            past: self.each,
            count: self.count + (self.each * (ahead / self.step) + self.past),
        }
    }
}

// The least j with (r + j * a) mod m < w: the question about m and a turns into the same one about a and m mod a.
#[tactic(auto, using(crate::proofs::Walk::carried_lands, crate::proofs::Walk::carried_never, crate::proofs::Turns::turn_falls))]
pub(crate) fn first_landing(r: u32, a: u32, m: u32, w: u32) -> Option<u32>
    requires { (r < m) × ((a < m) × (m ≤ longest)) }
    ensures { Least (Lands r a m w) result }
{
    let mut walk = Walk::new(r, a, m, w);
    while walk.at >= walk.wide {
        if walk.step == 0 {
            return None;
        }
        walk = walk.of_rounds();
    }
    Some(walk.count)
}
