//! Jobs that are to be placed: a task whose phase is open, a message whose delay is.
ghost use Rattle.jobs.specs.Open.{message_at, task_at};
ghost use Rattle.std.specs.Prelude.{◌≡◌};

use records::record::{Message, Task};

/// A task whose phase is open. Its limits, which a placing checks, are those of a task ([`records::record::Task`]), with phase 0.
#[derive(Clone, Copy, PartialEq, Eq, Debug)]
pub struct OpenTask {
    pub name: u16,
    pub core: u8,
    pub period: u32,
    pub width: u32,
}

/// A message whose delay is open. Its limits are those of a message, with delay 0.
#[derive(Clone, Copy, PartialEq, Eq, Debug)]
pub struct OpenMessage {
    pub name: u16,
    pub source: u16,
    pub destination: u16,
    // a plain byte: a placing takes any, and refuses what is no kind
    pub kind: u8,
    pub width: u32,
}

impl OpenTask {
    /// The task with this phase.
    pub fn at(self, phase: u32) -> Task
        ensures { result ≡ task_at self phase }
    {
        Task {
            name: self.name,
            core: self.core,
            period: self.period,
            phase,
            width: self.width,
        }
    }
}

impl OpenMessage {
    /// The message with this delay.
    pub fn at(self, delay: u32) -> Message
        ensures { result ≡ message_at self delay }
    {
        Message {
            name: self.name,
            source: self.source,
            destination: self.destination,
            kind: self.kind,
            delay,
            width: self.width,
        }
    }
}
