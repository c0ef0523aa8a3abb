//! Tasks: their limits, the core that they take and when.
ghost use Rattle.holds.specs.Held.{span};
ghost use Rattle.jobs.specs.Meetings.{first_met, held_task};
ghost use Rattle.jobs.specs.Checks.{task_timely};
ghost use Rattle.jobs.specs.Takes.{task_hold, task_take, task_takes};
ghost use Rattle.jobs.specs.Ways.{stay_take};
ghost use Rattle.std.specs.Option.{option_map};
ghost use Rattle.std.specs.Prelude.{◌≡◌, map};

use crate::meeting::{Meeting, first_among};
use crate::place::Place;
use crate::stay::Stay;
use holds::Hold;
use records::record::Task;

/// Whether period, width and phase are within the limits of a task.
pub fn timely(t: &Task) -> bool
    ensures { result ≡ task_timely t.now }
{
    1 <= t.period
        && t.period <= 65536
        && 1 <= t.width
        && t.width <= t.period
        && u64::from(t.phase) + u64::from(t.width) <= u64::from(t.period)
}

// The instants at which a task runs.
pub(crate) fn hold_of(t: &Task) -> Option<Hold>
    ensures { option_map span result ≡ task_hold t.now }
{
    Hold::new(u64::from(t.phase), t.period, t.width)
}

pub(crate) fn stay_of(t: &Task) -> Stay
    ensures { stay_take result ≡ task_take t.now }
{
    Stay {
        place: Place::core(u16::from(t.core)),
        hold: hold_of(t),
    }
}

/// The first meeting of the task with those held. Over the held tasks alone: a routing would ask for a fabric.
pub fn first_task_meeting(held: &[Task], t: &Task) -> Option<Meeting>
    ensures { result ≡ first_met (task_takes t.now) (map held_task held.now) }
{
    first_among(&(), held, &[stay_of(t)])
}
