//! Messages: their limits, when their packets arrive, their slack, which delays are in time, and whether one names a task.
ghost use Rattle.fabric.specs.Network.{Network};
ghost use Rattle.jobs.specs.Checks.{message_timely};
ghost use Rattle.jobs.specs.Drops.{in_use, names_task};
ghost use Rattle.jobs.specs.Meetings.{first_met};
ghost use Rattle.jobs.specs.Open.{message_at};
ghost use Rattle.jobs.specs.Routings.{IsAdmitted, held_beside, setting_on};
ghost use Rattle.jobs.specs.Slacks.{lateness, slack_among};
ghost use Rattle.jobs.specs.Takes.{message_takes};
ghost use Rattle.jobs.specs.Timing.{arrival};
ghost use Rattle.jobs.specs.Trips.{Trip};
ghost use Rattle.jobs.specs.Waits.{DelaysInTime};
ghost use Rattle.jobs.specs.Ways.{takes_on, way_slack, way_takes};
ghost use Rattle.std.specs.Prelude.{◌≡◌, ◌+◌, ◌≤◌, true, false, min, pos, nat_abs, int_lt};

use crate::meeting::{Meeting, first_among};
use crate::open::OpenMessage;
use crate::routing::Routing;
use crate::task;
use crate::way::{Admitted, Way};
use fabric::Fabric;
use holds::{Deliveries, least_slack};
use records::kind::Kind;
use records::record::{Message, Task};

/// Whether kind, delay and width are within the limits of a message from this source.
pub fn timely(source: &Task, m: &Message) -> bool
    ensures { result ≡ message_timely source.now m.now }
{
    Kind::try_from(m.kind).is_ok()
        && m.delay < source.period
        && 1 <= m.width
        && m.width <= source.period
}

// When packet 0 arrives: past the last link with its whole width, or, with no link, when it leaves.
fn arrives(way: &Way) -> u64
    ensures value { result ≡ arrival way.now.start way.now.links way.now.travel way.now.width }
    ensures bound { result ≤ 34359738368 }
{
    if way.links == 0 {
        way.start
    } else {
        way.start + (way.travel + u64::from(way.width))
    }
}

// The least slack of packets of a kind on their way to the destination; none where the numbers are outside the limits of the model.
fn slack_on(way: &Way, kind: u8, destination: &Task) -> Option<i64>
    ensures { result ≡ way_slack way.now kind destination.now }
{
    let due = match Kind::try_from(kind) {
        Ok(Kind::Precedence) => 0,
        _ => u64::from(way.period),
    };
    let packets = Deliveries::new(arrives(way), due, way.period)?;
    Some(least_slack(packets, task::hold_of(destination)?))
}

// How many delays below a period a slack covers.
fn delays_within(slack: i64, period: u32) -> u32
    ensures late { int_lt slack (pos 0) ≡ true → result ≡ 0 }
    ensures spare { int_lt slack (pos 0) ≡ false → result ≡ min (nat_abs slack + 1) period }
{
    if slack < 0 {
        return 0;
    }
    (slack.unsigned_abs() + 1).min(u64::from(period)) as u32
}

// How many delays of a message, from 0 on, are in time: each cycle of delay costs one of the slack that it has with none.
pub(crate) fn delays_in_time(at_once: &Admitted, m: &OpenMessage) -> u32
    ensures { (net : Network) (t : Trip) → IsAdmitted net t (message_at m.now 0) at_once.now → DelaysInTime net t m.now result }
{
    let all = at_once.ends.source.period;
    let Some(slack) = slack_on(&at_once.way, m.kind, &at_once.ends.destination) else {
        return all;
    };
    delays_within(slack, all)
}

/// The least slack of a message of a kind on its way where it is below 0.
pub fn late_by(way: &Way, kind: u8, destination: &Task) -> Option<i64>
    ensures { result ≡ lateness (way_slack way.now kind destination.now) }
{
    slack_on(way, kind, destination).filter(|slack| *slack < 0)
}

impl<'a, F: Fabric> Routing<'a, F> {
    // The way of a held message, by the names of its tasks.
    pub(crate) fn way_of(&self, m: &Message) -> Option<Way>
        ensures { takes_on (F.meaning self.now.fabric.now) result ≡ message_takes (setting_on F.meaning self.now) self.now.tasks.now m.now }
    {
        let ends = self.ends(m)?;
        Way::of(self.fabric, &ends, m)
    }

    /// The first meeting of packets on their way with those of the held messages.
    pub fn first_packet_meeting(&self, held: &[Message], own: &Way) -> Option<Meeting>
        ensures { result ≡ first_met (way_takes (F.meaning self.now.fabric.now) own.now) (held_beside F.meaning self.now held.now) }
    {
        let stays = own.stays(self.fabric);
        first_among(self, held, stays.as_slice())
    }

    /// The least slack of a message between two of the tasks.
    pub fn slack_of(&self, m: &Message) -> Option<i64>
        ensures { result ≡ slack_among (setting_on F.meaning self.now) self.now.tasks.now m.now }
    {
        let ends = self.ends(m)?;
        let way = Way::of(self.fabric, &ends, m)?;
        slack_on(&way, m.kind, &ends.destination)
    }
}

// Whether the message has the task of this name as source or destination.
fn joins(m: &Message, name: u16) -> bool
    ensures { result ≡ names_task name m.now }
{
    m.source == name || m.destination == name
}

/// Whether some message does.
pub fn names_task(messages: &[Message], name: u16) -> bool
    ensures { result ≡ in_use name messages.now }
{
    messages.iter().any(|m| joins(m, name))
}
