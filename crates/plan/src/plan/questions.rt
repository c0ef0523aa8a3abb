//! Questions about what is held.
ghost use Rattle.jobs.specs.Holding.{core_holder, link_holder};
ghost use Rattle.jobs.specs.Numbers.{drop_told, place_told};
ghost use Rattle.jobs.specs.Slacks.{slack};
ghost use Rattle.plan.specs.Follows.{Says};
ghost use Rattle.plan.specs.Held.{jobs, setting};
ghost use Rattle.promise.specs.Questions.{CoreAnswer, LinkAnswer, SlackAnswer};

use super::Plan;
use fabric::Fabric;
use jobs::fault::{DropFault, PlaceFault};
use jobs::holder::task_holder;
use jobs::place::Place;
use records::search::named;

impl<'f, F: Fabric> Plan<'f, F> {
    /// The least slack over all packets of the held message of this name. Refused with 21 where none has it.
    pub fn slack(&self, name: u16) -> Result<i64, DropFault>
        ensures follows { Says result drop_told (slack (setting self.now) (jobs self.now) name) }
        ensures promise { SlackAnswer (setting self.now) (jobs self.now) name result }
    {
        let m = named(self.messages.held(), name).ok_or(DropFault::Unknown)?;
        self.routing().slack_of(&m).ok_or(DropFault::Unknown)
    }

    /// Who holds a core at an instant: the task's name and its run, or none. Refused with 26 where there is no such core.
    pub fn core_holder(&self, core: u16, instant: u64) -> Result<Option<(u16, u64)>, PlaceFault>
        ensures follows { Says result place_told (core_holder (setting self.now) (jobs self.now) core instant) }
        ensures promise { CoreAnswer (setting self.now) (jobs self.now) core instant result }
    {
        if core as usize >= self.fabric.nodes() {
            return Err(PlaceFault);
        }
        Ok(task_holder(self.tasks.held(), Place::core(core), instant))
    }

    /// Who holds a link at an instant: the message's name and its packet, or none. Refused with 26 where there is no such link.
    pub fn link_holder(&self, link: u16, instant: u64) -> Result<Option<(u16, u64)>, PlaceFault>
        ensures follows { Says result place_told (link_holder (setting self.now) (jobs self.now) link instant) }
        ensures promise { LinkAnswer (setting self.now) (jobs self.now) link instant result }
    {
        if link as usize >= self.fabric.link_numbers() {
            return Err(PlaceFault);
        }
        Ok(
            self.routing()
                .message_holder(self.messages.held(), Place::link(link), instant),
        )
    }
}
