//! One plan: a table of tasks and a table of messages.
ghost use Rattle.jobs.specs.Jobs.{created_on};
ghost use Rattle.promise.specs.Canonical.{Canonical, ShortNames};
ghost use Rattle.promise.specs.Clean.{Clean};
ghost use Rattle.promise.specs.Tabled.{tabled};

use fabric::Fabric;
use jobs::routing::Routing;
use records::record::{Message, Task};
use records::tables::Table;

mod drops;
mod loading;
mod offers;
mod placings;
mod questions;
mod writing;

pub use writing::LONGEST_PART;

/// At most 64 tasks and 128 messages, held over one fabric. What is held is clean over the fabric for all of time, stands in ascending
/// names, and each name fits in two bytes: whoever has a plan has that.
#[derive(Drop)]
pub struct Plan<'f, F: Fabric> {
    fabric: &'f F,
    tasks: Table<Task, 64>,
    messages: Table<Message, 128>,
    ghost clean: { ∥ Clean (created_on (F.meaning fabric.now)) (tabled tasks messages) ∥₁ },
    ghost ordered: { Canonical (tabled tasks messages) },
    ghost short: { ShortNames (tabled tasks messages) },
}

impl<'f, F: Fabric> Plan<'f, F> {
    ghost use Rattle.jobs.specs.Jobs.{nothing};
    ghost use Rattle.plan.specs.Held.{jobs};
    ghost use Rattle.std.specs.Prelude.{◌≡◌};

    /// A plan over a fabric that holds nothing.
    pub fn new(fabric: &'f F) -> Self
        ensures fabric { result.fabric ≡ fabric.entry }
        ensures empty { jobs result ≡ nothing }
    {
        Plan {
            fabric,
            tasks: Table::new([Task::EMPTY; 64]),
            messages: Table::new([Message::EMPTY; 128]),
        }
    }

    // What packets go by.
    pub(crate) fn routing(&self) -> Routing<'_, F>
        ensures fabric { result.fabric ≡ self.now.fabric }
        ensures tasks { result.tasks.now ≡ (jobs self.now).tasks }
    {
        Routing {
            fabric: self.fabric,
            tasks: self.tasks.held(),
        }
    }
}
