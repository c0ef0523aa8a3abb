//! Who holds a core or a link at an instant.
ghost use Rattle.jobs.specs.Holding.{first_run, holder_among, run_on, with_name};
ghost use Rattle.jobs.specs.Meetings.{held_task};
ghost use Rattle.jobs.specs.Routings.{held_beside, job_of};
ghost use Rattle.jobs.specs.Ways.{stay_take};
ghost use Rattle.std.specs.Prelude.{◌≡◌, map};

use crate::held::Held;
use crate::place::Place;
use crate::routing::Routing;
use crate::stay::Stay;
use fabric::Fabric;
use holds::run_at;
use records::record::{Message, Task};

// The run of a stay that has a place at an instant. The two are what is asked; they go down through four short functions as they are.
fn run_there(place: Place, instant: u64, stay: &Stay) -> Option<u64>
    ensures { result ≡ run_on place instant (stay_take stay.now) }
{
    if !place.is(stay.place) {
        return None;
    }
    run_at(stay.hold?, instant)
}

// The name of a held job, and its run that has a place at an instant.
fn held_run<B, J: Held<B>>(routing: &B, job: &J, place: Place, instant: u64) -> Option<(u16, u64)>
    ensures { result ≡ with_name (J.Named.label job.now) (first_run place instant (J.Held.takes routing.now job.now)) }
{
    let stay = job.stay_there(routing, place)?;
    let run = run_there(place, instant, &stay)?;
    Some((job.name(), run))
}

// The first of the held jobs that has a place at an instant, by its name, and its run there.
fn holder<B, J: Held<B>>(routing: &B, held: &[J], place: Place, instant: u64) -> Option<(u16, u64)>
    ensures { result ≡ holder_among place instant (map (job_of J.Named.label (J.Held.takes routing.now)) held.now) }
{
    held.iter()
        .find_map(|job| held_run(routing, job, place, instant))
}

/// The held task that has a core at an instant, by its name, and its run there. Over the held tasks alone: a routing would ask
/// for a fabric.
pub fn task_holder(held: &[Task], core: Place, instant: u64) -> Option<(u16, u64)>
    ensures { result ≡ holder_among core instant (map held_task held.now) }
{
    holder(&(), held, core, instant)
}

impl<'a, F: Fabric> Routing<'a, F> {
    /// The held message that has a link at an instant, by its name, and its packet there.
    pub fn message_holder(&self, held: &[Message], link: Place, instant: u64) -> Option<(u16, u64)>
        ensures { result ≡ holder_among link instant (held_beside F.meaning self.now held.now) }
    {
        holder(self, held, link, instant)
    }
}
