//! Why an offer is refused, and the number of each refusal.
ghost use Rattle.jobs.specs.Numbers.{drop_told, meets, message_told, place_told, placing_told, task_told};
ghost use Rattle.refusals.specs.declared.refusal.Refusal.{Refusal as RefusalOf};
ghost use Rattle.std.specs.Prelude.{◌≡◌};

use crate::meeting::Meeting;
use refusals::refusal::{Detail, Meeting as MeetingTold, Refusal};
use std::fmt::Display;
use thiserror::Error;

/// Why an offered task is refused, in the order of the checks.
#[derive(Clone, Copy, PartialEq, Eq, Debug, Error)]
pub enum TaskFault {
    /// Its name is 0, or held already.
    #[error("the name is 0 or held already")]
    Name,
    /// No node has its core.
    #[error("no node has the core")]
    Core,
    /// Its period, phase or width is outside the limits.
    #[error("the period, the phase or the width is outside the limits")]
    Times,
    /// As many tasks are held as a plan has room for.
    #[error("no more tasks can be held")]
    Full,
    /// It meets a held task.
    #[error("it meets task {} on core {} at instant {}", .0.held, .0.place.number, .0.instant)]
    Meets(Meeting),
}

/// Why an offered message is refused, in the order of the checks.
#[derive(Clone, Copy, PartialEq, Eq, Debug, Error)]
pub enum MessageFault {
    /// Its name is 0, or held already.
    #[error("the name is 0 or held already")]
    Name,
    /// Its source or its destination is not held.
    #[error("the source or the destination is not held")]
    Ends,
    /// Its kind, delay or width is outside the limits.
    #[error("the kind, the delay or the width is outside the limits")]
    Times,
    /// The fabric has no route between the cores of its ends.
    #[error("no route leads from the source to the destination")]
    NoRoute,
    /// As many messages are held as a plan has room for.
    #[error("no more messages can be held")]
    Full,
    /// Its least slack, in instants, is below 0.
    #[error("a packet arrives late: the least slack is {0}")]
    Late(i64),
    /// A packet of it meets one of a held message.
    #[error("it meets message {} on link {} at instant {}", .0.held, .0.place.number, .0.instant)]
    Meets(Meeting),
}

/// Why a placing is refused.
#[derive(Clone, Copy, PartialEq, Eq, Debug, Error)]
#[error_bound(E: Display)]
pub enum PlacingFault<E> {
    /// A check of the offer that is tried before lateness and meetings.
    #[error(transparent)]
    Offer(E),
    /// No phase or delay works.
    #[error("no phase or delay is free")]
    NoFit,
}

/// Why a dropping is refused.
#[derive(Clone, Copy, PartialEq, Eq, Debug, Error)]
pub enum DropFault {
    /// No job of this name is held.
    #[error("no job of this name is held")]
    Unknown,
    /// A held message has the task as its source or its destination.
    #[error("a held message names the task")]
    InUse,
}

/// A core or link number is not below its count.
#[derive(Clone, Copy, PartialEq, Eq, Debug, Error)]
#[error("no core or link has the number")]
pub struct PlaceFault;

impl From<PlaceFault> for Refusal {
    ghost from_gives = { λ e r. r ≡ place_told e };

    fn from(_: PlaceFault) -> Refusal {
        Refusal::plain(26)
    }
}

// The refusal of this number that names a meeting; the two numbers stand beside their faults, below.
fn meets(number: u8, meeting: Meeting) -> Refusal
    ensures { result ≡ meets number meeting }
{
    Refusal {
        number,
        detail: Detail::Meeting(MeetingTold {
            instant: meeting.instant,
            held: meeting.held,
            place: meeting.place.number,
        }),
    }
}

impl From<TaskFault> for Refusal {
    ghost from_gives = { λ e r. r ≡ task_told e };

    fn from(fault: TaskFault) -> Refusal {
        match fault {
            TaskFault::Name => Refusal::plain(9),
            TaskFault::Core => Refusal::plain(10),
            TaskFault::Times => Refusal::plain(11),
            TaskFault::Full => Refusal::plain(12),
            TaskFault::Meets(meeting) => meets(13, meeting),
        }
    }
}

impl From<MessageFault> for Refusal {
    ghost from_gives = { λ e r. r ≡ message_told e };

    fn from(fault: MessageFault) -> Refusal {
        match fault {
            MessageFault::Name => Refusal::plain(14),
            MessageFault::Ends => Refusal::plain(15),
            MessageFault::Times => Refusal::plain(16),
            MessageFault::NoRoute => Refusal::plain(17),
            MessageFault::Full => Refusal::plain(18),
            MessageFault::Late(slack) => Refusal {
                number: 19,
                detail: Detail::Slack(slack),
            },
            MessageFault::Meets(meeting) => meets(20, meeting),
        }
    }
}

// Whatever tells the fault of an offer tells that of its placing.
impl<E: Into<Refusal>> From<PlacingFault<E>> for Refusal {
    ghost from_gives = { λ e r.
        (tell : E → RefusalOf) → ((x : E) (s : RefusalOf) → E.converts x s → s ≡ tell x) → r ≡ placing_told tell e };

    fn from(fault: PlacingFault<E>) -> Refusal {
        match fault {
            PlacingFault::Offer(fault) => fault.into(),
            PlacingFault::NoFit => Refusal::plain(23),
        }
    }
}

impl From<DropFault> for Refusal {
    ghost from_gives = { λ e r. r ≡ drop_told e };

    fn from(fault: DropFault) -> Refusal {
        match fault {
            DropFault::Unknown => Refusal::plain(21),
            DropFault::InUse => Refusal::plain(22),
        }
    }
}
