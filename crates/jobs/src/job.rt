//! A job of either kind, and why its offer is refused.
ghost use Rattle.jobs.specs.Numbers.{job_told};
ghost use Rattle.std.specs.Prelude.{◌≡◌};

use crate::fault::{MessageFault, TaskFault};
use records::record::{Message, Task};
use refusals::refusal::Refusal;
use thiserror::Error;

/// A task or a message.
#[derive(Clone, Copy, PartialEq, Eq, Debug)]
pub enum Job {
    Task(Task),
    Message(Message),
}

/// Why the offer of a job is refused.
#[derive(Clone, Copy, PartialEq, Eq, Debug, Error)]
pub enum JobFault {
    #[error(transparent)]
    Task(TaskFault),
    #[error(transparent)]
    Message(MessageFault),
}

impl From<JobFault> for Refusal {
    ghost from_gives = { λ e r. r ≡ job_told e };

    fn from(fault: JobFault) -> Refusal {
        match fault {
            JobFault::Task(fault) => fault.into(),
            JobFault::Message(fault) => fault.into(),
        }
    }
}
