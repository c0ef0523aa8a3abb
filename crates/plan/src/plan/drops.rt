//! Droppings of tasks and messages.
ghost use Rattle.jobs.specs.Drops.{drop_message, drop_task};
ghost use Rattle.jobs.specs.Numbers.{drop_told};
ghost use Rattle.plan.specs.After.{Leaves, MessageLess, TaskLess};
ghost use Rattle.plan.specs.Follows.{Follows};
ghost use Rattle.plan.specs.Held.{jobs, setting};
ghost use Rattle.promise.specs.Clean.{Clean};
ghost use Rattle.promise.specs.Droppings.{MessageDropped, TaskDropped};
ghost use Rattle.std.specs.Prelude.{◌≡◌, false, is_ok};

use super::Plan;
use fabric::Fabric;
use jobs::fault::DropFault;
use jobs::message::names_task;
use records::search::index_of;

impl<'f, F: Fabric> Plan<'f, F> {
    /// Takes the task of this name out. Refused with 21 where none has it, and with 22 where a held message names it.
    pub fn drop_task(&mut self, name: u16) -> Result<(), DropFault>
        ensures follows { Follows self.old self.new result drop_told (drop_task (jobs self.old) name) }
        ensures refused { is_ok result ≡ false → self.new ≡ self.old }
        ensures promise { TaskDropped (jobs self.old) name result }
        ensures left { Leaves (jobs self.old) (λ _. TaskLess (jobs self.old) name) result (jobs self.new) }
        ensures clean { Clean (setting self.new) (jobs self.new) }
    {
        if index_of(self.tasks.held(), name).is_none() {
            return Err(DropFault::Unknown);
        }
        if names_task(self.messages.held(), name) {
            return Err(DropFault::InUse);
        }
        self.tasks.remove(name);
        Ok(())
    }

    /// Takes the message of this name out. Refused with 21 where none has it.
    #[tactic(auto, using(records::proofs::Places::index_named))]
    pub fn drop_message(&mut self, name: u16) -> Result<(), DropFault>
        ensures follows { Follows self.old self.new result drop_told (drop_message (jobs self.old) name) }
        ensures refused { is_ok result ≡ false → self.new ≡ self.old }
        ensures promise { MessageDropped (jobs self.old) name result }
        ensures left { Leaves (jobs self.old) (λ _. MessageLess (jobs self.old) name) result (jobs self.new) }
        ensures clean { Clean (setting self.new) (jobs self.new) }
    {
        self.messages.remove(name).ok_or(DropFault::Unknown)?;
        Ok(())
    }
}
