//! Writing the job part.
ghost use Rattle.plan.specs.Follows.{Says};
ghost use Rattle.plan.specs.Held.{jobs, setting};
ghost use Rattle.plan.specs.Round.{LoadsBack, PartWritten};
ghost use Rattle.plan.specs.Writing.{part_bytes, write_left, write_length};
ghost use Rattle.refusals.specs.Told.{buffer_told};
ghost use Rattle.std.specs.Prelude.{◌≡◌, ◌≤◌, length};

use super::Plan;
use fabric::Fabric;
use records::record::{Message, Record, Task};
use records::section::write_section;
use refusals::refusal::BufferFault;

/// The job part of a full plan, 64 tasks and 128 messages, is as long as this; no plan writes a longer one.
pub const LONGEST_PART: usize = 3076;

impl<'f, F: Fabric> Plan<'f, F> {
    /// Writes the job part, each section in the order in which the plan holds it, which is that of ascending names, to the start of
    /// the buffer and answers its length; bytes beyond it stay. A buffer shorter than the job part is refused with 27 and stays.
    /// What is written loads back into a new plan over the same fabric, taken whole, as the same jobs.
    #[tactic(auto, using(crate::proofs::Writing::part_bound))]
    pub fn write(&self, out: &mut [u8]) -> Result<usize, BufferFault>
        ensures follows { Says result buffer_told (write_length (jobs self.now) (length out.old)) }
        ensures buffer { out.new ≡ write_left (jobs self.now) out.old }
        ensures promise { PartWritten (jobs self.now) out.old result out.new }
        ensures bound { length (part_bytes (jobs self.now)) ≤ 3076 }
        ensures back { LoadsBack (setting self.now) (jobs self.now) }
    {
        let tasks = self.tasks.held();
        let messages = self.messages.held();
        if out.len() < 4 + tasks.len() * Task::SIZE + messages.len() * Message::SIZE {
            return Err(BufferFault);
        }
        let middle = write_section(out, tasks).ok_or(BufferFault)?;
        let rest = write_section(&mut out[middle..], messages).ok_or(BufferFault)?;
        Ok(middle + rest)
    }
}
