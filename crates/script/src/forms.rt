//! What stands after the first words of a line, form by form. The fields are read one by one, since each has its own type.
ghost use Rattle.script.specs.Forms.{holder, mesh, message, open_message, open_task, task};
ghost use Rattle.std.specs.Prelude.{◌≡◌};

use crate::text::{field, number};
use jobs::open::{OpenMessage, OpenTask};
use records::record::{Message, Task};

// The columns, rows and hop delay of a mesh.
pub(crate) fn mesh(text: &[u8]) -> Option<(u8, u8, u8)>
    ensures { result ≡ mesh text.now }
{
    let (x, text) = field(text)?;
    let (y, text) = field(text)?;
    let delay = number(text)?;
    Some((x, y, delay))
}

pub(crate) fn task(text: &[u8]) -> Option<Task>
    ensures { result ≡ task text.now }
{
    let (name, text) = field(text)?;
    let (core, text) = field(text)?;
    let (period, text) = field(text)?;
    let (phase, text) = field(text)?;
    let width = number(text)?;
    Some(Task {
        name,
        core,
        period,
        phase,
        width,
    })
}

pub(crate) fn message(text: &[u8]) -> Option<Message>
    ensures { result ≡ message text.now }
{
    let (name, text) = field(text)?;
    let (source, text) = field(text)?;
    let (destination, text) = field(text)?;
    let (kind, text) = field(text)?;
    let (delay, text) = field(text)?;
    let width = number(text)?;
    Some(Message {
        name,
        source,
        destination,
        kind,
        delay,
        width,
    })
}

pub(crate) fn open_task(text: &[u8]) -> Option<OpenTask>
    ensures { result ≡ open_task text.now }
{
    let (name, text) = field(text)?;
    let (core, text) = field(text)?;
    let (period, text) = field(text)?;
    let width = number(text)?;
    Some(OpenTask {
        name,
        core,
        period,
        width,
    })
}

pub(crate) fn open_message(text: &[u8]) -> Option<OpenMessage>
    ensures { result ≡ open_message text.now }
{
    let (name, text) = field(text)?;
    let (source, text) = field(text)?;
    let (destination, text) = field(text)?;
    let (kind, text) = field(text)?;
    let width = number(text)?;
    Some(OpenMessage {
        name,
        source,
        destination,
        kind,
        width,
    })
}

// A core or a link, and an instant.
pub(crate) fn holder(text: &[u8]) -> Option<(u16, u64)>
    ensures { result ≡ holder text.now }
{
    let (place, text) = field(text)?;
    let instant = number(text)?;
    Some((place, instant))
}
