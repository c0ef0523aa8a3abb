//! Running the lines of a script, each on the plan in hand, and the calls among lines as one list.
ghost use Rattle.jobs.specs.Jobs.{created_on, nothing};
ghost use Rattle.plan.specs.Held.{SameSetting, jobs, setting};
ghost use Rattle.replay.specs.Calls.{all_said, answers, ask, asked};
ghost use Rattle.script.specs.Fabrics.{made_network};
ghost use Rattle.script.specs.Readings.{asks, read_line, reading};
ghost use Rattle.script.specs.Replies.{answer_text, reply_text};
ghost use Rattle.script.specs.Running.{Onward, Printed, next_session, session, texts_of};
ghost use Rattle.script.specs.Transcripts.{after_line, begun, printed, reply_to};
ghost use Rattle.std.specs.Option.{option_map};
ghost use Rattle.std.specs.Prelude.{◌≡◌, length, map, IfOk};

use crate::fabrics::{Made, listed_reply, mesh_reply};
use crate::line::Line;
use crate::reply::Reply;
use crate::showing::{tell, tell_line};
use fabric::Fabric;
use plan::Plan;
use plan::plan::LONGEST_PART;
use replay::calls::{Answer, Call};
use replay::{owned, replay, step};
use std::alloc::{AllocError, Global};

// What a call on the plan is answered.
fn answer<F: Fabric>(
    heap: Global,
    plan: &mut Plan<'_, F>,
    page: &mut [u8; LONGEST_PART],
    call: &Call<&[u8]>,
) -> Result<Reply, AllocError>
    ensures alike { SameSetting plan.old plan.new }
    ensures held { jobs plan.new ≡ (ask (setting plan.old) (jobs plan.old) (asked call.now)).1 }
    ensures reply { IfOk result (λ r. reply_text r ≡ answer_text (ask (setting plan.old) (jobs plan.old) (asked call.now)).0) }
{
    let answer = step(plan, call, page);
    Ok(Reply::Answer(owned(heap, answer, page)?))
}

// What a line is answered on the plan, a blank line nothing, and the fabric that it makes.
fn reply_of<'l, F: Fabric>(
    heap: Global,
    plan: &mut Plan<'_, F>,
    page: &mut [u8; LONGEST_PART],
    line: &'l Line,
) -> Result<(Option<Reply>, Option<Made<'l>>), AllocError>
    ensures alike { SameSetting plan.old plan.new }
    ensures reply { IfOk result (λ r. option_map reply_text r.0 ≡ reply_to (session plan.old) (reading line.now)) }
    ensures left { IfOk result (λ r. next_session (session plan.new) r.1 ≡ after_line (session plan.old) (reading line.now)) }
{
    Ok(match line {
        Line::Blank => (None, None),
        Line::Unread => (Some(Reply::Unread), None),
        Line::Mesh { x, y, delay } => {
            let (reply, made) = mesh_reply(*x, *y, *delay);
            (Some(reply), made)
        }
        Line::Listed(file) => {
            let (reply, made) = listed_reply(file);
            (Some(reply), made)
        }
        Line::Load(part) => (Some(answer(heap, plan, page, &Call::Load(part))?), None),
        Line::Plain(call) => (Some(answer(heap, plan, page, call)?), None),
    })
}

// Runs the lines from a place on, each with its text, on a new plan over a fabric, and adds each to `out` with what it is answered; up to
// the first that makes another fabric. Answers that fabric and the place after its line, or nothing after the last line.
fn run_on<'l, F: Fabric>(
    heap: Global,
    out: &mut Vec<u8>,
    fabric: &F,
    texts: &[&[u8]],
    lines: &'l [Line],
    from: usize,
) -> Result<Option<(Made<'l>, usize)>, AllocError>
    requires read { map reading lines.now ≡ map (λ text. read_line text.now) texts.now }
    ensures told { IfOk result (Printed out.old.items out.new.items (F.meaning fabric.now) texts.now from) }
    ensures onward { IfOk result (Onward from (length lines.now)) }
{
    let mut plan = Plan::new(fabric);
    let mut page = [0; LONGEST_PART];
    for at in from..lines.len() {
        let line = &lines[at];
        // these two at once: to carry up that no fabric is made takes as long as to read the line
        match line {
            Line::Blank => continue,
            Line::Unread => {
                tell_line(heap, out, texts[at], &Reply::Unread)?;
                continue;
            }
            _ => {}
        }
        let (reply, made) = reply_of(heap, &mut plan, &mut page, line)?;
        tell(heap, out, texts[at], reply)?;
        if let Some(made) = made {
            return Ok(Some((made, at + 1)));
        }
    }
    Ok(None)
}

// The same over a fabric that a line made.
fn run_made<'l>(
    heap: Global,
    out: &mut Vec<u8>,
    made: &Made<'_>,
    texts: &[&[u8]],
    lines: &'l [Line],
    from: usize,
) -> Result<Option<(Made<'l>, usize)>, AllocError>
    requires read { map reading lines.now ≡ map (λ text. read_line text.now) texts.now }
    ensures told { IfOk result (Printed out.old.items out.new.items (made_network made.now) texts.now from) }
    ensures onward { IfOk result (Onward from (length lines.now)) }
{
    match made {
        Made::Mesh(mesh) => run_on(heap, out, mesh, texts, lines, from),
        Made::Listed(listed) => run_on(heap, out, listed, texts, lines, from),
    }
}

// The texts of lines, each with what it is answered. The lines begin with a new plan over the fabric.
pub(crate) fn run_all<F: Fabric>(
    heap: Global,
    fabric: &F,
    texts: &[&[u8]],
    lines: &[Line],
) -> Result<Vec<u8>, AllocError>
    requires read { map reading lines.now ≡ map (λ text. read_line text.now) texts.now }
    ensures { IfOk result (λ v. v.items ≡ printed (begun (F.meaning fabric.now)) (texts_of texts.now)) }
{
    let mut out = Vec::new(heap);
    let mut next = run_on(heap, &mut out, fabric, texts, lines, 0)?;
    while let Some((made, from)) = next {
        next = run_made(heap, &mut out, &made, texts, lines, from)?;
    }
    Ok(out)
}

// The calls among lines, in their order.
fn calls_of(heap: Global, lines: &[Line]) -> Result<Vec<Call<&[u8]>>, AllocError>
    ensures { IfOk result (λ v. map asked v.items ≡ asks (map reading lines.now)) }
{
    let mut calls: Vec<Call<&[u8]>> = Vec::new(heap);
    for line in lines {
        match line {
            Line::Load(part) => calls.push(Call::Load(part))?,
            Line::Plain(call) => calls.push(*call)?,
            _ => {}
        }
    }
    Ok(calls)
}

/// What the calls among lines answer on a new plan over the fabric; lines that are no call are passed over.
pub fn run_lines<F: Fabric>(
    heap: Global,
    fabric: &F,
    lines: &[Line],
) -> Result<Vec<Answer<Vec<u8>>>, AllocError>
    ensures { IfOk result (λ v. all_said v.items ≡ answers (created_on (F.meaning fabric.now)) nothing (asks (map reading lines.now))) }
{
    let calls = calls_of(heap, lines)?;
    let (_, answers) = replay(heap, fabric, &calls);
    answers
}
