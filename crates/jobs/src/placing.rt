//! The smallest phase or delay at which a job meets none of those held.
//!
//! From a value at which the job meets a held one, the search goes on at the first value that is clear of that one on the place where they meet. The searches
//! for a phase and for a delay stand each by itself: a closure that tries a value would have to hand back its job, its way and
//! its meeting. Which delays are in time is known before the search.
ghost use Rattle.std.specs.Prelude.{◌≡◌, map};
ghost use Rattle.jobs.specs.Placings.{first_delay_between, first_free_phase};
ghost use Rattle.jobs.specs.Routings.{FindsDelay, job_of, jobs_beside, setting_on};
ghost use Rattle.jobs.specs.Waits.{Among, StillMeets, StillMet};
ghost use Rattle.jobs.specs.Ways.{stay_take};

use crate::held::Held;
use crate::meeting::{Meeting, first_among};
use crate::message::delays_in_time;
use crate::open::{OpenMessage, OpenTask};
use crate::place::Place;
use crate::routing::{Ends, Routing};
use crate::stay::Stay;
use crate::task::{first_task_meeting, stay_of};
use crate::way::{Admitted, Way};
use fabric::Fabric;
use holds::least_wait;
use records::record::{Message, Task};
use records::search::named;

// A wait: put off by less, the stay still meets the held one; none: put off by anything, it does.
fn stay_wait(own: &Stay, held: &Stay) -> Option<u32>
    ensures { StillMeets (stay_take own.now) (stay_take held.now) result }
{
    if !own.place.is(held.place) {
        return Some(0);
    }
    match (own.hold, held.hold) {
        (Some(one), Some(other)) => least_wait(one, other),
        _ => Some(0),
    }
}

// The stay at a place, if there is one.
fn stay_at(stays: &[Stay], place: Place) -> Option<Stay>
    ensures { Among (map stay_take stays.now) result }
{
    stays.iter().find(|stay| stay.place.is(place)).copied()
}

// A wait: put off by less, the job still meets what is held, on the place where it meets the held job now; none: put off by anything, it does.
fn wait_past<B, J: Held<B>>(routing: &B, held: &[J], own: &[Stay], meeting: &Meeting) -> Option<u32>
    ensures { StillMet (map stay_take own.now) (map (job_of J.Named.label (J.Held.takes routing.now)) held.now) result }
{
    let Some(job) = named(held, meeting.held) else {
        return Some(0);
    };
    let Some(one) = stay_at(own, meeting.place) else {
        return Some(0);
    };
    let Some(other) = job.stay_there(routing, meeting.place) else {
        return Some(0);
    };
    stay_wait(&one, &other)
}

/// The smallest phase at which the task meets none of those held. Over the held tasks alone: a routing would ask for a fabric.
pub fn first_phase(held: &[Task], t: &OpenTask) -> Option<u32>
    ensures { result ≡ first_free_phase held.now t.now }
{
    let last = t.period.checked_sub(t.width)?;
    let mut phase: u32 = 0;
    // a `while`, since how far the next step leaps is known only from what is met
    while phase <= last {
        let task = t.at(phase);
        let Some(meeting) = first_task_meeting(held, &task) else {
            return Some(phase);
        };
        let wait = wait_past(&(), held, &[stay_of(&task)], &meeting)?;
        phase = phase.checked_add(wait.max(1))?;
    }
    None
}

impl<'a, F: Fabric> Routing<'a, F> {
    /// The smallest delay at which a message, whose trip is given at delay 0, is neither late nor meets a held one.
    pub fn first_delay(&self, held: &[Message], at_once: &Admitted, m: &OpenMessage) -> Option<u32>
        ensures { FindsDelay F.meaning self.now held.now at_once.now m.now result }
    {
        let count = delays_in_time(at_once, m);
        let mut delay: u32 = 0;
        // a `while` for the same reason
        while delay < count {
            let message = m.at(delay);
            let way = Way::of(self.fabric, &at_once.ends, &message)?;
            let stays = way.stays(self.fabric);
            let own = stays.as_slice();
            let Some(meeting) = first_among(self, held, own) else {
                return Some(delay);
            };
            let wait = wait_past(self, held, own, &meeting)?;
            delay = delay.checked_add(wait.max(1))?;
        }
        None
    }

    /// The smallest delay at which a message between two tasks has a route, and is neither late nor meets a held one.
    pub fn first_delay_between(&self, held: &[Message], ends: &Ends, m: &OpenMessage) -> Option<u32>
        ensures { result ≡ first_delay_between (setting_on F.meaning self.now) (jobs_beside self.now held.now) m.now ends.now }
    {
        let way = Way::of(self.fabric, ends, &m.at(0))?;
        self.first_delay(held, &Admitted { ends: *ends, way }, m)
    }
}
