//! Showing a reply as text.
ghost use Rattle.replay.specs.Calls.{giving};
ghost use Rattle.script.specs.Lines.{hex};
ghost use Rattle.script.specs.Replies.{ToldAsVerdicts, answer_text, reply_text};
ghost use Rattle.script.specs.Transcripts.{answered, line_printed};
ghost use Rattle.std.specs.Option.{option_map};
ghost use Rattle.std.specs.Prelude.{◌≡◌, ◌++◌, length, take, vec_items, Some, IfOk, OnErr, OnOk};

use crate::reply::Reply;
use refusals::refusal::{Refusal, Told};
use replay::calls::Answer;
use std::alloc::{AllocError, Global};
use std::fmt;

// Bytes in upper-case hexadecimal.
#[derive(Drop)]
struct Hex<'a> {
    bytes: &'a [u8],
}

impl fmt::Display for Hex<'_> {
    ghost output = { λ h. Some (hex h.bytes.now) };

    fn fmt<W: fmt::Write>(&self, f: &mut fmt::Formatter<W>) -> fmt::Result {
        for byte in self.bytes {
            write!(f, "{:X}{:X}", byte / 16, byte % 16)?;
        }
        Ok(())
    }
}

// What a call answers, as text.
#[derive(Drop)]
struct Shown<'a> {
    answer: &'a Answer<Vec<u8>>,
}

impl fmt::Display for Shown<'_> {
    ghost output = { λ s. Some (answer_text (giving vec_items s.answer.now)) };

    fn fmt<W: fmt::Write>(&self, f: &mut fmt::Formatter<W>) -> fmt::Result {
        match self.answer {
            Answer::TaskOffered(Ok(())) | Answer::MessageOffered(Ok(())) => write!(f, "TAKEN"),
            Answer::TaskOffered(Err(fault)) => write!(f, "{}", Refusal::from(*fault)),
            Answer::MessageOffered(Err(fault)) => write!(f, "{}", Refusal::from(*fault)),
            Answer::TaskPlaced(Ok(phase)) => write!(f, "PLACED {phase}"),
            Answer::TaskPlaced(Err(fault)) => write!(f, "{}", Refusal::from(*fault)),
            Answer::MessagePlaced(Ok(delay)) => write!(f, "PLACED {delay}"),
            Answer::MessagePlaced(Err(fault)) => write!(f, "{}", Refusal::from(*fault)),
            Answer::Dropped(Ok(())) => write!(f, "DROPPED"),
            Answer::Dropped(Err(fault)) => write!(f, "{}", Refusal::from(*fault)),
            Answer::Loaded(Ok(counts)) => write!(f, "LOADED {} {}", counts.tasks, counts.messages),
            Answer::Loaded(Err(fault)) => write!(f, "{}", Told::from(*fault)),
            Answer::Slack(Ok(least)) => write!(f, "SLACK {least}"),
            Answer::Slack(Err(fault)) => write!(f, "{}", Refusal::from(*fault)),
            // a holder is told as plain numbers, a name and a run
            Answer::Holder(Ok(Some((name, run)))) => write!(f, "HELD {name} {run}"),
            Answer::Holder(Ok(None)) => write!(f, "FREE"),
            Answer::Holder(Err(fault)) => write!(f, "{}", Refusal::from(*fault)),
            Answer::Written(Ok(bytes)) => write!(f, "WRITTEN {} {}", bytes.len(), Hex { bytes }),
            Answer::Written(Err(fault)) => write!(f, "{}", Refusal::from(*fault)),
        }
    }
}

impl fmt::Display for Reply {
    ghost output = { λ r. Some (reply_text r) };

    fn fmt<W: fmt::Write>(&self, f: &mut fmt::Formatter<W>) -> fmt::Result {
        match self {
            Reply::Unread => write!(f, "UNREAD"),
            Reply::Ready { nodes, links } => write!(f, "READY {nodes} {links}"),
            Reply::Refused(refusal) => write!(f, "{refusal}"),
            Reply::Told(told) => write!(f, "{told}"),
            Reply::Answer(answer) => write!(f, "{}", Shown { answer }),
        }
    }
}

/// The text of a reply.
pub fn show(heap: Global, reply: &Reply) -> Result<Vec<u8>, AllocError>
    ensures { IfOk result (λ v. v.items ≡ reply_text reply.now) }
{
    Ok(format!(in heap; "{reply}")?.into_bytes())
}

// Adds a line of text with its reply; where there is no memory for it, its front may have been added.
fn add_line(heap: Global, out: &mut Vec<u8>, text: &[u8], reply: &Reply) -> Result<(), AllocError>
    ensures added { OnOk result (out.new.items ≡ out.old.items ++ answered text.now (reply_text reply.now)) }
    ensures kept { take (length out.old.items) out.new.items ≡ out.old.items }
{
    out.extend_from_slice(text)?;
    out.extend_from_slice(b": ")?;
    out.extend_from_slice(&show(heap, reply)?)?;
    out.push(b'\n')?;
    Ok(())
}

/// Adds a line of text with its reply, or nothing where there is no memory for it.
pub fn tell_line(
    heap: Global,
    out: &mut Vec<u8>,
    text: &[u8],
    reply: &Reply,
) -> Result<(), AllocError>
    ensures added { OnOk result (out.new.items ≡ out.old.items ++ answered text.now (reply_text reply.now)) }
    ensures failed { OnErr result (out.new.items ≡ out.old.items) }
{
    let start = out.len();
    let told = add_line(heap, out, text, reply);
    if told.is_err() {
        out.truncate(start);
    }
    told
}

// Adds a line with its reply, if it has one.
pub(crate) fn tell(
    heap: Global,
    out: &mut Vec<u8>,
    text: &[u8],
    reply: Option<Reply>,
) -> Result<(), AllocError>
    ensures { OnOk result (out.new.items ≡ out.old.items ++ line_printed text.now (option_map reply_text reply)) }
{
    match reply {
        Some(reply) => tell_line(heap, out, text, &reply),
        None => Ok(()),
    }
}

/// A refused load or listed fabric is shown as a verdict line tells it.
pub fn told_stands()
    ensures verdicts { ToldAsVerdicts }
{}
