//! Offers of tasks and messages.
ghost use Rattle.jobs.specs.Checks.{admitted_task};
ghost use Rattle.jobs.specs.Jobs.{with_message, with_task};
ghost use Rattle.jobs.specs.Numbers.{message_told, task_told};
ghost use Rattle.jobs.specs.Rules.{message_refusal, offer_message, offer_task, task_refusal};
ghost use Rattle.plan.specs.After.{Leaves, MessageMore, TaskMore};
ghost use Rattle.plan.specs.Checked.{MessageAdmitted, PacketsChecked};
ghost use Rattle.plan.specs.Follows.{Follows};
ghost use Rattle.plan.specs.Held.{SameSetting, jobs, setting};
ghost use Rattle.promise.specs.Clean.{Clean};
ghost use Rattle.promise.specs.Offers.{MessageAnswer, TaskAnswer};
ghost use Rattle.refusals.specs.Told.{checked};
ghost use Rattle.std.specs.Prelude.{◌≡◌, ◌≤◌, None, false, is_ok};

use super::Plan;
use fabric::Fabric;
use jobs::fault::{MessageFault, TaskFault};
use jobs::message::late_by;
use jobs::task::first_task_meeting;
use jobs::way::{Admitted, Way};
use jobs::{message, task};
use records::record::{Message, Task};
use records::search::index_of;

// A name fits in two bytes, which is known only of a parameter.
fn name_fits(name: u16)
    ensures { name ≤ 65535 }
{}

impl<'f, F: Fabric> Plan<'f, F> {
    // The checks of a task that come before meetings.
    pub(super) fn admitted_task(&self, t: &Task) -> Result<(), TaskFault>
        ensures { result ≡ admitted_task (setting self.now).network.nodes (jobs self.now) t.now }
    {
        let held = self.tasks.held();
        if t.name == 0 || index_of(held, t.name).is_some() {
            return Err(TaskFault::Name);
        }
        if t.core as usize >= self.fabric.nodes() {
            return Err(TaskFault::Core);
        }
        if !task::timely(t) {
            return Err(TaskFault::Times);
        }
        if self.tasks.is_full() {
            return Err(TaskFault::Full);
        }
        Ok(())
    }

    // A task, by all of its checks in order.
    fn check_task(&self, t: &Task) -> Result<(), TaskFault>
        ensures { result ≡ checked (task_refusal (setting self.now).network.nodes (jobs self.now) t.now) }
    {
        self.admitted_task(t)?;
        first_task_meeting(self.tasks.held(), t).map_or(
            Ok(()),
            |meeting| Err(TaskFault::Meets(meeting)),
        )
    }

    // One task more: there is room, so the insertion is not refused.
    pub(super) fn hold_task(&mut self, t: Task)
        requires { task_refusal (setting self.old).network.nodes (jobs self.old) t ≡ None }
        ensures after { jobs self.new ≡ with_task (jobs self.old) t }
        ensures alike { SameSetting self.old self.new }
    {
        name_fits(t.name);
        let _ = self.tasks.insert(t);
    }

    /// Holds the task where no check refuses it. Refused with 9 to 13; the plan then stays as it was.
    pub fn offer_task(&mut self, t: Task) -> Result<(), TaskFault>
        ensures follows { Follows self.old self.new result task_told (offer_task (setting self.old) (jobs self.old) t) }
        ensures refused { is_ok result ≡ false → self.new ≡ self.old }
        ensures promise { TaskAnswer (setting self.old) (jobs self.old) t result }
        ensures left { Leaves (jobs self.old) (λ _. TaskMore (jobs self.old) t) result (jobs self.new) }
        ensures clean { Clean (setting self.new) (jobs self.new) }
    {
        self.check_task(&t)?;
        self.hold_task(t);
        Ok(())
    }

    // The checks of a message that come before lateness and meetings; past them, its tasks and the way of its packets.
    pub(super) fn admitted_message(&self, m: &Message) -> Result<Admitted, MessageFault>
        ensures { MessageAdmitted (setting self.now) (jobs self.now) m.now result }
    {
        if m.name == 0 || index_of(self.messages.held(), m.name).is_some() {
            return Err(MessageFault::Name);
        }
        let ends = self.routing().ends(m).ok_or(MessageFault::Ends)?;
        if !message::timely(&ends.source, m) {
            return Err(MessageFault::Times);
        }
        let way = Way::of(self.fabric, &ends, m).ok_or(MessageFault::NoRoute)?;
        if self.messages.is_full() {
            return Err(MessageFault::Full);
        }
        Ok(Admitted { ends, way })
    }

    // The packets of a message past those checks: neither late nor met.
    fn check_packets(&self, admitted: &Admitted, m: &Message) -> Result<(), MessageFault>
        ensures { PacketsChecked (setting self.now) (jobs self.now) m.now admitted.now result }
    {
        late_by(&admitted.way, m.kind, &admitted.ends.destination).map_or(
            Ok(()),
            |slack| Err(MessageFault::Late(slack)),
        )?;
        self.routing()
            .first_packet_meeting(self.messages.held(), &admitted.way)
            .map_or(Ok(()), |meeting| Err(MessageFault::Meets(meeting)))
    }

    // A message, by all of its checks in order.
    fn check_message(&self, m: &Message) -> Result<(), MessageFault>
        ensures { result ≡ checked (message_refusal (setting self.now) (jobs self.now) m.now) }
    {
        let admitted = self.admitted_message(m)?;
        self.check_packets(&admitted, m)
    }

    // One message more: there is room, so the insertion is not refused.
    pub(super) fn hold_message(&mut self, m: Message)
        requires { message_refusal (setting self.old) (jobs self.old) m ≡ None }
        ensures after { jobs self.new ≡ with_message (jobs self.old) m }
        ensures alike { SameSetting self.old self.new }
    {
        name_fits(m.name);
        let _ = self.messages.insert(m);
    }

    /// Holds the message where no check refuses it. Refused with 14 to 20; the plan then stays as it was.
    pub fn offer_message(&mut self, m: Message) -> Result<(), MessageFault>
        ensures follows { Follows self.old self.new result message_told (offer_message (setting self.old) (jobs self.old) m) }
        ensures refused { is_ok result ≡ false → self.new ≡ self.old }
        ensures promise { MessageAnswer (setting self.old) (jobs self.old) m result }
        ensures left { Leaves (jobs self.old) (λ _. MessageMore (jobs self.old) m) result (jobs self.new) }
        ensures clean { Clean (setting self.new) (jobs self.new) }
    {
        self.check_message(&m)?;
        self.hold_message(m);
        Ok(())
    }
}
