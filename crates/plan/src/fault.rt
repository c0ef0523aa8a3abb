//! Why a load is refused, with section, record and refusal of each fault.
ghost use Rattle.plan.specs.Told.{layout_told, load_told, section_of};
ghost use Rattle.plan.specs.declared.fault.LoadFault.TheVariants.{Layout, Offer};
ghost use Rattle.std.specs.Prelude.{◌≡◌};

use jobs::job::JobFault;
use refusals::refusal::{Part, Refusal, Told};
use thiserror::Error;

/// What is wrong with the layout of a job part. Places of records are from 0, within their section.
#[derive(Clone, Copy, PartialEq, Eq, Debug, Error)]
pub enum LayoutFault {
    /// The tasks are cut off after so many whole records: refusal 1.
    #[error("tasks: cut off after {0} whole records")]
    TasksShort(usize),
    /// The messages are cut off after so many whole records: refusal 1.
    #[error("messages: cut off after {0} whole records")]
    MessagesShort(usize),
    /// Bytes follow the messages: refusal 25.
    #[error("bytes follow the messages")]
    Extra,
    /// The bytes at this place are no task: refusal 24.
    #[error("task record {0} is no task")]
    NoTask(usize),
    /// The bytes at this place are no message: refusal 24.
    #[error("message record {0} is no message")]
    NoMessage(usize),
}

/// Why a load is refused.
#[derive(Clone, Copy, PartialEq, Eq, Debug, Error)]
pub enum LoadFault {
    /// No record was offered: the layout is at fault.
    #[error("{0}")]
    Layout(LayoutFault),
    /// The offer of the record at a place of its section was refused, by refusals 9 to 20, and no later one was tried.
    #[error("record {place} of its section is refused: {fault:?}")]
    Offer {
        /// From 0, within the section of the job's kind.
        place: usize,
        fault: JobFault,
    },
}

impl From<LayoutFault> for LoadFault {
    ghost from_gives = { λ e r. r ≡ Layout e };

    fn from(e: LayoutFault) -> LoadFault {
        LoadFault::Layout(e)
    }
}

impl From<(usize, JobFault)> for LoadFault {
    ghost from_gives = { λ e r. r ≡ Offer e.0 e.1 };

    fn from((place, fault): (usize, JobFault)) -> LoadFault {
        LoadFault::Offer { place, fault }
    }
}

impl From<LayoutFault> for Told {
    ghost from_gives = { λ e r. r ≡ layout_told e };

    fn from(fault: LayoutFault) -> Told {
        match fault {
            LayoutFault::TasksShort(whole) => Told::new(
                Part::Tasks as u8,
                whole,
                Refusal::plain(1),
            ),
            LayoutFault::MessagesShort(whole) => Told::new(
                Part::Messages as u8,
                whole,
                Refusal::plain(1),
            ),
            LayoutFault::Extra => Told::new(Part::End as u8, 0, Refusal::plain(25)),
            LayoutFault::NoTask(place) => Told::new(Part::Tasks as u8, place, Refusal::plain(24)),
            LayoutFault::NoMessage(place) => Told::new(
                Part::Messages as u8,
                place,
                Refusal::plain(24),
            ),
        }
    }
}

// The section of the record whose offer was refused, by its number in a plan file.
fn section_of(fault: &JobFault) -> u8
    ensures { result ≡ section_of fault.now }
{
    match fault {
        JobFault::Task(_) => Part::Tasks as u8,
        JobFault::Message(_) => Part::Messages as u8,
    }
}

impl From<LoadFault> for Told {
    ghost from_gives = { λ e r. r ≡ load_told e };

    fn from(fault: LoadFault) -> Told {
        match fault {
            LoadFault::Layout(fault) => fault.into(),
            LoadFault::Offer { place, fault } => Told::new(section_of(&fault), place, fault.into()),
        }
    }
}
