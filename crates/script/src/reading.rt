//! Reading a line of a script.
ghost use Rattle.replay.specs.Calls.{asked};
ghost use Rattle.script.specs.Lines.{CallsReadBack, ListedReadBack, MeshesReadBack};
ghost use Rattle.script.specs.Readings.{read_call, read_line, read_text, reading};
ghost use Rattle.std.specs.Option.{option_map};
ghost use Rattle.std.specs.Prelude.{◌≡◌, map, IfOk};

use crate::bytes::unhexed;
use crate::forms::{holder, mesh, message, open_message, open_task, task};
use crate::line::Line;
use crate::text::{after, number};
use replay::calls::Call;
use std::alloc::{AllocError, Global};

// A call whose line is words and numbers.
// toolchain: a table of words and functions has no contracts
fn read_call(text: &[u8]) -> Option<Call<&'static [u8]>>
    ensures { option_map asked result ≡ read_call text.now }
{
    if let Some(rest) = after(b"offer task ", text) {
        return Some(Call::OfferTask(task(rest)?));
    }
    if let Some(rest) = after(b"offer message ", text) {
        return Some(Call::OfferMessage(message(rest)?));
    }
    if let Some(rest) = after(b"place task ", text) {
        return Some(Call::PlaceTask(open_task(rest)?));
    }
    if let Some(rest) = after(b"place message ", text) {
        return Some(Call::PlaceMessage(open_message(rest)?));
    }
    if let Some(rest) = after(b"drop task ", text) {
        return Some(Call::DropTask(number(rest)?));
    }
    if let Some(rest) = after(b"drop message ", text) {
        return Some(Call::DropMessage(number(rest)?));
    }
    if let Some(rest) = after(b"slack ", text) {
        return Some(Call::Slack(number(rest)?));
    }
    if let Some(rest) = after(b"holder core ", text) {
        let (core, instant) = holder(rest)?;
        return Some(Call::CoreHolder { core, instant });
    }
    if let Some(rest) = after(b"holder link ", text) {
        let (link, instant) = holder(rest)?;
        return Some(Call::LinkHolder { link, instant });
    }
    if let Some(rest) = after(b"write ", text) {
        // the room is a length, which has 64 bits on the machines that the kit knows
        let room: u64 = number(rest)?;
        return Some(Call::Write {
            room: room as usize,
        });
    }
    None
}

// A line that is not blank.
fn read_text(heap: Global, text: &[u8]) -> Result<Line, AllocError>
    ensures { IfOk result (λ l. reading l ≡ read_text text.now) }
{
    if let Some(rest) = after(b"fabric mesh ", text) {
        return Ok(mesh(rest).map_or(Line::Unread, |(x, y, delay)| Line::Mesh { x, y, delay }));
    }
    if let Some(rest) = after(b"fabric listed ", text) {
        return Ok(unhexed(heap, rest)?.map_or(Line::Unread, Line::Listed));
    }
    if let Some(rest) = after(b"load ", text) {
        return Ok(unhexed(heap, rest)?.map_or(Line::Unread, Line::Load));
    }
    Ok(read_call(text).map_or(Line::Unread, Line::Plain))
}

/// What a line says.
pub fn read_line(heap: Global, text: &[u8]) -> Result<Line, AllocError>
    ensures { IfOk result (λ l. reading l ≡ read_line text.now) }
{
    match text {
        [] | [b'#', ..] => Ok(Line::Blank),
        _ => read_text(heap, text),
    }
}

/// What each text says.
pub fn read_lines(heap: Global, texts: &[&[u8]]) -> Result<Vec<Line>, AllocError>
    ensures { IfOk result (λ v. map reading v.items ≡ map (λ text. read_line text.now) texts.now) }
{
    let mut lines = Vec::new(heap);
    for text in texts {
        lines.push(read_line(heap, text)?)?;
    }
    Ok(lines)
}

/// The own line of every call and fabric reads back as that call or fabric.
pub fn lines_stand()
    ensures calls { CallsReadBack }
    ensures meshes { MeshesReadBack }
    ensures listed { ListedReadBack }
{}
