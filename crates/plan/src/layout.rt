//! The layout of a job part: the tasks, the messages, and nothing after them.
ghost use Rattle.plan.specs.Loading.{BothCut, LaidOut, job_at, job_part, section_place};
ghost use Rattle.std.specs.Prelude.{◌≡◌, ◌+◌, ◌/◌, Err, MatchResult, length};

use crate::fault::LayoutFault;
use jobs::job::Job;
use records::record::{Message, Record, Task};
use records::section::{Section, cut};
use refusals::refusal::Counts;

// The two sections of a job part.
#[derive(Drop)]
pub(crate) struct JobPart<'a> {
    pub(crate) tasks: Section<'a, Task>,
    pub(crate) messages: Section<'a, Message>,
}

impl<'a> JobPart<'a> {
    // How many tasks and messages there are.
    pub(crate) fn counts(&self) -> Counts
        ensures tasks { result.tasks ≡ length self.now.tasks.bytes.now / 16 }
        ensures messages { result.messages ≡ length self.now.messages.bytes.now / 16 }
    {
        Counts {
            tasks: self.tasks.count(),
            messages: self.messages.count(),
        }
    }

    // How many records there are, of either kind.
    pub(crate) fn len(&self) -> usize
        ensures { result ≡ length self.now.tasks.bytes.now / 16 + length self.now.messages.bytes.now / 16 }
    {
        self.tasks.bytes.len() / Task::SIZE + self.messages.bytes.len() / Message::SIZE
    }

    // The job of a record, tasks before messages, or none past the last.
    pub(crate) fn job(&self, at: usize) -> Option<Job>
        ensures { result ≡ job_at self.now.tasks.bytes.now self.now.messages.bytes.now at }
    {
        let tasks = self.tasks.count();
        if at < tasks {
            self.tasks.get(at).map(Job::Task)
        } else {
            self.messages.get(at - tasks).map(Job::Message)
        }
    }

    // The place of a record in its section.
    pub(crate) fn place(&self, at: usize) -> usize
        ensures { result ≡ section_place (length self.now.tasks.bytes.now / 16) at }
    {
        let tasks = self.tasks.count();
        if at < tasks { at } else { at - tasks }
    }
}

// The two sections of a job part, whole and with nothing after them.
fn sections(part: &[u8]) -> Result<JobPart<'_>, LayoutFault>
    ensures { MatchResult result (λ p. BothCut part.now p.tasks.bytes.now p.messages.bytes.now) (λ e. job_part part.now ≡ Err e) }
{
    let (tasks, rest) = cut::<Task>(part).map_err(|off| LayoutFault::TasksShort(off.whole))?;
    let (messages, rest) = cut::<Message>(rest).map_err(|off| LayoutFault::MessagesShort(
        off.whole,
    ))?;
    if !rest.is_empty() {
        return Err(LayoutFault::Extra);
    }
    Ok(JobPart { tasks, messages })
}

// The two sections of a job part, each of whose records is one.
pub(crate) fn layout(part: &[u8]) -> Result<JobPart<'_>, LayoutFault>
    ensures { MatchResult result (λ p. LaidOut part.now p.tasks.bytes.now p.messages.bytes.now) (λ e. job_part part.now ≡ Err e) }
{
    let job = sections(part)?;
    job.tasks
        .unread()
        .map_or(Ok(()), |place| Err(LayoutFault::NoTask(place)))?;
    job.messages
        .unread()
        .map_or(Ok(()), |place| Err(LayoutFault::NoMessage(place)))?;
    Ok(job)
}
