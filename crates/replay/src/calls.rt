//! The calls on a plan, by their arguments, and what they answer.
ghost use Rattle.replay.specs.Calls.{giving, length_given};
ghost use Rattle.std.specs.Prelude.{◌≡◌};

use jobs::fault::{DropFault, MessageFault, PlaceFault, PlacingFault, TaskFault};
use jobs::open::{OpenMessage, OpenTask};
use plan::fault::LoadFault;
use records::record::{Message, Task};
use refusals::refusal::{BufferFault, Counts};

/// A call by its arguments. `B` holds the bytes of a job part: `&[u8]` where they are lent.
#[derive(Clone, Copy, Debug)]
pub enum Call<B> {
    /// Offers a task.
    OfferTask(Task),
    /// Offers a message.
    OfferMessage(Message),
    /// Places a task at the smallest phase that an offer would be taken with.
    PlaceTask(OpenTask),
    /// Places a message at the smallest delay that an offer would be taken with.
    PlaceMessage(OpenMessage),
    /// Drops the task of a name.
    DropTask(u16),
    /// Drops the message of a name.
    DropMessage(u16),
    /// Offers the jobs of a job part, up to the first that is refused.
    Load(B),
    /// Asks for the least slack of the message of a name.
    Slack(u16),
    /// Asks which task's run has a core at an instant.
    CoreHolder { core: u16, instant: u64 },
    /// Asks which message's packet has a link at an instant.
    LinkHolder { link: u16, instant: u64 },
    /// Writes the job part of what is held into so many bytes.
    Write { room: usize },
}

/// What a call answers, by the fault where it is refused. `W` is what a taken write gives: the length where the bytes stand on a page, or
/// the bytes.
#[derive(PartialEq, Eq, Debug, Drop)]
pub enum Answer<W> {
    /// Of an offered task.
    TaskOffered(Result<(), TaskFault>),
    /// Of an offered message.
    MessageOffered(Result<(), MessageFault>),
    /// Of a placed task: its phase.
    TaskPlaced(Result<u32, PlacingFault<TaskFault>>),
    /// Of a placed message: its delay.
    MessagePlaced(Result<u32, PlacingFault<MessageFault>>),
    /// Of a dropped task or message.
    Dropped(Result<(), DropFault>),
    /// Of a load: how many tasks and messages were taken.
    Loaded(Result<Counts, LoadFault>),
    /// The least slack of a message.
    Slack(Result<i64, DropFault>),
    /// The name and the run that have a core or a link, if there are any.
    Holder(Result<Option<(u16, u64)>, PlaceFault>),
    /// Of a write.
    Written(Result<W, BufferFault>),
}

impl Answer<usize> {
    /// How many bytes a write left at the front of the page; 0 of any other answer.
    pub fn length(&self) -> usize
        ensures { result ≡ length_given self.now }
    {
        match *self {
            Answer::Written(Ok(length)) => length,
            _ => 0,
        }
    }
}

impl<V: Drop> Answer<V> {
    /// The same answer with another value in place of what a taken write gives.
    pub fn giving<W: Drop>(self, given: W) -> Answer<W>
        ensures { result ≡ giving (λ _. given) self }
    {
        match self {
            Answer::TaskOffered(r) => Answer::TaskOffered(r),
            Answer::MessageOffered(r) => Answer::MessageOffered(r),
            Answer::TaskPlaced(r) => Answer::TaskPlaced(r),
            Answer::MessagePlaced(r) => Answer::MessagePlaced(r),
            Answer::Dropped(r) => Answer::Dropped(r),
            Answer::Loaded(r) => Answer::Loaded(r),
            Answer::Slack(r) => Answer::Slack(r),
            Answer::Holder(r) => Answer::Holder(r),
            Answer::Written(r) => Answer::Written(r.map(|_| given)),
        }
    }
}
