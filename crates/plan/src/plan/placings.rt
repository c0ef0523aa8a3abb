//! Placings: a job is held with the smallest value whose offer would be taken.
ghost use Rattle.jobs.specs.Numbers.{message_told, placing_told, task_told};
ghost use Rattle.jobs.specs.Open.{message_at, task_at};
ghost use Rattle.jobs.specs.Placings.{place_message, place_task};
ghost use Rattle.plan.specs.After.{Leaves, MessageMore, TaskMore};
ghost use Rattle.plan.specs.Follows.{Follows};
ghost use Rattle.plan.specs.Held.{jobs, setting};
ghost use Rattle.promise.specs.Clean.{Clean};
ghost use Rattle.promise.specs.Offers.{MessagePlacing, TaskPlacing};
ghost use Rattle.std.specs.Prelude.{◌≡◌, false, is_ok};

use super::Plan;
use fabric::Fabric;
use jobs::fault::{MessageFault, PlacingFault, TaskFault};
use jobs::open::{OpenMessage, OpenTask};
use jobs::placing::first_phase;

impl<'f, F: Fabric> Plan<'f, F> {
    // The smallest phase that an offer of the task would be taken with.
    fn phase_for(&self, t: &OpenTask) -> Result<u32, PlacingFault<TaskFault>>
        ensures { result ≡ (place_task (setting self.now) (jobs self.now) t.now).0 }
    {
        self.admitted_task(&t.at(0)).map_err(PlacingFault::Offer)?;
        first_phase(self.tasks.held(), t).ok_or(PlacingFault::NoFit)
    }

    /// Holds the task with the smallest phase that an offer would be taken with, and answers that phase. Refused with 9 to 12, and with
    /// 23 where no phase works; the plan then stays as it was.
    pub fn place_task(&mut self, t: OpenTask) -> Result<u32, PlacingFault<TaskFault>>
        ensures follows { Follows self.old self.new result (placing_told task_told) (place_task (setting self.old) (jobs self.old) t) }
        ensures refused { is_ok result ≡ false → self.new ≡ self.old }
        ensures promise { TaskPlacing (setting self.old) (jobs self.old) t result }
        ensures left { Leaves (jobs self.old) (λ v. TaskMore (jobs self.old) (task_at t v)) result (jobs self.new) }
        ensures clean { Clean (setting self.new) (jobs self.new) }
    {
        let phase = self.phase_for(&t)?;
        self.hold_task(t.at(phase));
        Ok(phase)
    }

    // The smallest delay that an offer of the message would be taken with.
    fn delay_for(&self, m: &OpenMessage) -> Result<u32, PlacingFault<MessageFault>>
        ensures { result ≡ (place_message (setting self.now) (jobs self.now) m.now).0 }
    {
        let at_once = self
            .admitted_message(&m.at(0))
            .map_err(PlacingFault::Offer)?;
        self.routing()
            .first_delay(self.messages.held(), &at_once, m)
            .ok_or(PlacingFault::NoFit)
    }

    /// Holds the message with the smallest delay that an offer would be taken with, and answers that delay. Refused with 14 to 18, and
    /// with 23 where no delay works; the plan then stays as it was.
    pub fn place_message(&mut self, m: OpenMessage) -> Result<u32, PlacingFault<MessageFault>>
        ensures follows { Follows self.old self.new result (placing_told message_told) (place_message (setting self.old) (jobs self.old) m) }
        ensures refused { is_ok result ≡ false → self.new ≡ self.old }
        ensures promise { MessagePlacing (setting self.old) (jobs self.old) m result }
        ensures left { Leaves (jobs self.old) (λ v. MessageMore (jobs self.old) (message_at m v)) result (jobs self.new) }
        ensures clean { Clean (setting self.new) (jobs self.new) }
    {
        let delay = self.delay_for(&m)?;
        self.hold_message(m.at(delay));
        Ok(delay)
    }
}
