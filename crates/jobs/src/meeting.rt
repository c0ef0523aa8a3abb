//! The first meeting of an offered job with those held.
ghost use Rattle.holds.specs.Held.{span};
ghost use Rattle.jobs.specs.Meetings.{before, earliest_from, first_met, meetings, met, shared, sooner};
ghost use Rattle.jobs.specs.Routings.{job_of};
ghost use Rattle.jobs.specs.Ways.{stay_take};
ghost use Rattle.std.specs.Option.{option_map};
ghost use Rattle.std.specs.Prelude.{◌≡◌, map};

use crate::held::Held;
use crate::place::Place;
use crate::stay::Stay;
use holds::{Hold, first_meeting};

/// Where an offered job meets a held one: the instant, the name of the held job, and the place that both have then.
#[derive(Clone, Copy, PartialEq, Eq, Debug)]
pub struct Meeting {
    pub instant: u64,
    pub held: u16,
    pub place: Place,
}

impl Meeting {
    // By the instant, then by the held name, then by the place.
    fn comes_before(&self, other: &Meeting) -> bool
        ensures { result ≡ before self.now other.now }
    {
        self.instant < other.instant
            || (self.instant == other.instant
                && (self.held < other.held
                    || (self.held == other.held && self.place.comes_before(other.place))))
    }
}

// The first instant that lies in both.
fn shared_instant(one: Option<Hold>, other: Option<Hold>) -> Option<u64>
    ensures { result ≡ shared (option_map span one) (option_map span other) }
{
    first_meeting(one?, other?)
}

// Where an offered job's stay meets that of the held job of this name. Inlined, as what calls it is: each offer asks it of each held job.
#[inline(always)]
fn meeting_at(name: u16, own: &Stay, held: &Stay) -> Option<Meeting>
    ensures { result ≡ met name (stay_take own.now) (stay_take held.now) }
{
    if !own.place.is(held.place) {
        return None;
    }
    let instant = shared_instant(own.hold, held.hold)?;
    Some(Meeting {
        instant,
        held: name,
        place: own.place,
    })
}

// The earlier of two meetings, if there is one.
fn earlier(one: Option<Meeting>, other: Option<Meeting>) -> Option<Meeting>
    ensures { result ≡ sooner one other }
{
    match (one, other) {
        (Some(a), Some(b)) => Some(if b.comes_before(&a) { b } else { a }),
        _ => one.or(other),
    }
}

// The earlier of `best` and the meeting of an offered job's stay with that of the held job of this name. Most stays are at two places, and
// then `best` stays where it is.
#[inline(always)]
fn nearer(best: Option<Meeting>, name: u16, own: &Stay, held: &Stay) -> Option<Meeting>
    ensures { result ≡ sooner best (met name (stay_take own.now) (stay_take held.now)) }
{
    if !own.place.is(held.place) {
        return best;
    }
    earlier(best, meeting_at(name, own, held))
}

// The earlier of `best` and the meetings of an offered job's stays with one stay of the held job of this name.
#[inline(always)]
pub(crate) fn nearest_to(
    best: Option<Meeting>,
    own: &[Stay],
    name: u16,
    held: &Stay,
) -> Option<Meeting>
    ensures { result ≡ earliest_from best (map (λ x. met name x (stay_take held.now)) (map stay_take own.now)) }
{
    let mut best = best;
    // a loop, since a `fold` is not inlined
    for stay in own {
        best = nearer(best, name, stay, held);
    }
    best
}

// The first meeting of an offered job's stays with those of the held jobs.
pub(crate) fn first_among<B, J: Held<B>>(routing: &B, held: &[J], own: &[Stay]) -> Option<Meeting>
    ensures { result ≡ first_met (map stay_take own.now) (map (job_of J.Named.label (J.Held.takes routing.now)) held.now) }
{
    held.iter()
        .fold(None, |best, job| job.nearest(routing, best, own))
}
