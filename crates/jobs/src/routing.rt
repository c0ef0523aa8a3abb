//! What packets go by: the fabric, and the held tasks that messages name.
ghost use Rattle.jobs.specs.Routings.{ends_in};
ghost use Rattle.std.specs.Prelude.{◌≡◌};

use records::record::{Message, Task};
use records::search::named;

/// A fabric, and the held tasks, among which messages find the two that they name.
#[derive(Drop)]
pub struct Routing<'a, F> {
    pub fabric: &'a F,
    pub tasks: &'a [Task],
}

/// The two tasks of a message.
#[derive(Clone, Copy, PartialEq, Eq, Debug)]
pub struct Ends {
    pub source: Task,
    pub destination: Task,
}

impl<'a, F> Routing<'a, F> {
    /// The tasks that a message names, where both are held.
    pub fn ends(&self, m: &Message) -> Option<Ends>
        ensures { result ≡ ends_in self.now.tasks.now m.now }
    {
        Some(Ends {
            source: named(self.tasks, m.source)?,
            destination: named(self.tasks, m.destination)?,
        })
    }
}
