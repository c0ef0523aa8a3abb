//! What a held job is: it has a name, and it takes places.
ghost use Rattle.jobs.specs.Jobs.{created_on};
ghost use Rattle.jobs.specs.Meetings.{earliest_from, meetings};
ghost use Rattle.jobs.specs.Takes.{Take, message_takes, task_takes};
ghost use Rattle.jobs.specs.Waits.{Among, RunsBy};
ghost use Rattle.jobs.specs.Ways.{stay_take};
ghost use Rattle.std.specs.Prelude.{◌≡◌, List, map};

use crate::meeting::{Meeting, nearest_to};
use crate::place::Place;
use crate::routing::Routing;
use crate::stay::Stay;
use crate::task::stay_of;
use fabric::Fabric;
use records::named::Named;
use records::record::{Message, Task};

// A kind of held job. What packets take hangs on a routing; what a task takes, on nothing.
pub(crate) trait Held<B>: Named + Copy {
    // what a job takes
    ghost takes: { B → Self → List Take };

    // A stay of the job, by whose runs alone it has the place; none where no run of it has. No list is made of what the job takes, since a
    // question asks this of each held job.
    fn stay_there(&self, routing: &B, place: Place) -> Option<Stay>
        ensures among { Among (takes routing.now self.now) result }
        ensures runs { RunsBy place (takes routing.now self.now) result };

    // The earlier of `best` and the meetings of an offered job's stays with this job. It goes over what the job takes and makes no
    // list of it, since each offer asks this of each held job.
    fn nearest(&self, routing: &B, best: Option<Meeting>, own: &[Stay]) -> Option<Meeting>
        ensures { result ≡ earliest_from best (meetings (Self.Named.label self.now) (map stay_take own.now) (takes routing.now self.now)) };
}

impl Held<()> for Task {
    ghost takes = { λ _ t. task_takes t };

    #[inline(always)]
    fn stay_there(&self, _routing: &(), place: Place) -> Option<Stay> {
        let stay = stay_of(self);
        if !place.is(stay.place) {
            return None;
        }
        Some(stay)
    }

    fn nearest(&self, _routing: &(), best: Option<Meeting>, own: &[Stay]) -> Option<Meeting> {
        nearest_to(best, own, self.name, &stay_of(self))
    }
}

impl<'a, F: Fabric> Held<Routing<'a, F>> for Message {
    ghost takes = { λ b m. message_takes (created_on (F.meaning b.fabric.now)) b.tasks.now m };

    #[inline(always)]
    fn stay_there(&self, routing: &Routing<'a, F>, place: Place) -> Option<Stay> {
        let way = routing.way_of(self)?;
        way.stay_there(routing.fabric, place)
    }

    fn nearest(
        &self,
        routing: &Routing<'a, F>,
        best: Option<Meeting>,
        own: &[Stay],
    ) -> Option<Meeting> {
        let Some(way) = routing.way_of(self) else {
            return best;
        };
        way.nearest(routing.fabric, best, own, self.name)
    }
}
