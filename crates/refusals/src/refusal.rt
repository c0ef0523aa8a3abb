//! A refusal by its number and values, and what a verdict line tells.
ghost use Rattle.refusals.specs.Told.{buffer_told, plain, told};
ghost use Rattle.std.specs.Prelude.{◌≡◌};

use thiserror::Error;

/// The first instant at which an offered job and a held one share a place. Meetings are ordered by the instant, then by the name,
/// then by the place.
#[derive(Clone, Copy, PartialEq, Eq, PartialOrd, Ord, Debug)]
pub struct Meeting {
    /// Counted from 0.
    pub instant: u64,
    /// The name of the held job.
    pub held: u16,
    /// The number of the core or link.
    pub place: u16,
}

/// How many tasks and messages a file or a load has, all of them taken.
#[derive(Clone, Copy, PartialEq, Eq, Debug)]
pub struct Counts {
    pub tasks: usize,
    pub messages: usize,
}

/// What stands after the word: nothing, the least slack in instants, or where a meeting is.
#[derive(Clone, Copy, PartialEq, Eq, Debug)]
pub enum Detail {
    Plain,
    Slack(i64),
    Meeting(Meeting),
}

/// A refusal; docs/REFUSALS.md has the numbers. The number is a plain byte: a line can be written, and a word asked for, with any.
#[derive(Clone, Copy, PartialEq, Eq, Debug)]
pub struct Refusal {
    pub number: u8,
    pub detail: Detail,
}

/// The parts of a plan file, in the order of their section numbers.
#[derive(Clone, Copy, PartialEq, Eq, Debug)]
pub enum Part {
    Head,
    Links,
    Routes,
    Tasks,
    Messages,
    End,
}

/// A refusal as a file's verdict tells it, with the section and the record that it names. The section is a plain byte, so that any
/// may be told.
#[derive(Clone, Copy, PartialEq, Eq, Debug)]
pub struct Told {
    pub section: u8,
    pub record: u16,
    pub refusal: Refusal,
}

impl Refusal {
    /// A refusal with no value beside it.
    pub fn plain(number: u8) -> Refusal
        ensures { result ≡ plain number }
    {
        Refusal {
            number,
            detail: Detail::Plain,
        }
    }
}

impl Told {
    /// A section has at most 65,535 records: an index past that is told as 65,535.
    pub fn new(section: u8, record: usize, refusal: Refusal) -> Told
        ensures { result ≡ told section «record» refusal }
    {
        Told {
            section,
            record: record.min(65535) as u16,
            refusal,
        }
    }
}

/// The buffer is too short for what is written: refusal 27.
#[derive(Clone, Copy, PartialEq, Eq, Debug, Error)]
#[error("the buffer is too short")]
pub struct BufferFault;

impl From<BufferFault> for Refusal {
    ghost from_gives = { λ e r. r ≡ buffer_told e };

    fn from(_: BufferFault) -> Refusal {
        Refusal::plain(27)
    }
}
