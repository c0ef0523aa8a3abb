//! Judging a plan file: its own fabric and plan are made, its jobs loaded, and the verdict line written.
ghost use Rattle.plan.specs.declared.fault.LoadFault.{LoadFault};
ghost use Rattle.plan.specs.Follows.{Says};
ghost use Rattle.refusals.specs.Told.{buffer_told};
ghost use Rattle.refusals.specs.declared.refusal.Counts.{Counts};
ghost use Rattle.std.specs.Prelude.{◌≡◌, ◌≤◌, length, IfOk, Ok, Err, MatchResult};
ghost use Rattle.verdict.specs.Judged.{FileClean, FileRefused, NoFabric, TooLong};
ghost use Rattle.verdict.specs.Told.{line_left, line_length};
ghost use Rattle.verdict.specs.Verdict.{judged_on, listed_verdict, mesh_sections, mesh_verdict, verdict_of};
ghost use Rattle.verdict.specs.declared.fault.FileFault.TheVariants.{Load};

use crate::fault::FileFault;
use fabric::Fabric;
use fabric::mesh::Mesh;
use listed::{Listed, SetFault, read_section};
use plan::Plan;
use records::head::{FabricKind, Head, HeadFault, read_head};
use records::record::{Link, Route};
use refusals::line::{LONGEST_LINE, write_line};
use refusals::refusal::{BufferFault, Counts, Told};

/// No plan file is longer, in bytes.
pub const LONGEST_FILE: usize = 8192;

// How many tasks and messages a new plan over the fabric takes from a job part.
fn judged_on<F: Fabric>(fabric: &F, part: &[u8]) -> Result<Counts, FileFault>
    ensures { result ≡ judged_on (F.meaning fabric.now) part.now }
{
    let mut plan = Plan::new(fabric);
    let counts = plan.load(part)?;
    Ok(counts)
}

// What follows the sections of links and routes, which have no record in a mesh file.
fn skip_sections(bytes: &[u8]) -> Result<&[u8], SetFault>
    ensures { MatchResult result (λ rest. mesh_sections bytes.now ≡ Ok rest.now) (λ e. mesh_sections bytes.now ≡ Err e) }
{
    let (_, rest) = read_section::<Link>(bytes, 0).map_err(SetFault::Links)?;
    let (_, part) = read_section::<Route>(rest, 0).map_err(SetFault::Routes)?;
    Ok(part)
}

fn judge_mesh(head: &Head, rest: &[u8]) -> Result<Counts, FileFault>
    ensures { result ≡ mesh_verdict head.now rest.now }
{
    let mesh = Mesh::new(head.x, head.y, head.delay).map_err(|_| SetFault::Head(
        HeadFault::Limits,
    ))?;
    let part = skip_sections(rest)?;
    judged_on(&mesh, part)
}

fn judge_listed(file: &[u8]) -> Result<Counts, FileFault>
    ensures { result ≡ listed_verdict file.now }
{
    let mut fabric = Listed::new();
    let part = fabric.set(file)?;
    judged_on(&fabric, part)
}

// The tasks and messages of a plan file whose jobs are all taken, or the first fault.
fn judge_file(file: &[u8]) -> Result<Counts, FileFault>
    ensures { result ≡ verdict_of file.now }
{
    if file.len() > LONGEST_FILE {
        return Err(FileFault::Extra);
    }
    let (head, rest) = read_head(file).map_err(SetFault::Head)?;
    match head.kind {
        FabricKind::Mesh => judge_mesh(&head, rest),
        FabricKind::Listed => judge_listed(file),
    }
}

/// Writes the verdict line on a plan file to the start of the buffer and answers its length; bytes beyond it stay. A buffer of
/// fewer than 64 bytes is refused with 27 and stays. The jobs of a file that is counted are clean for all of time on its fabric; one
/// whose job part is refused is refused as the plan's promise says.
#[tactic(auto, using(crate::proofs::Verdicts::file_clean, crate::proofs::Verdicts::file_refused, crate::proofs::Verdicts::too_long, crate::proofs::Verdicts::no_fabric))]
pub fn judge(file: &[u8], out: &mut [u8]) -> Result<usize, BufferFault>
    ensures follows { Says result buffer_told (line_length file.now (length out.old)) }
    ensures buffer { out.new ≡ line_left file.now out.old }
    ensures bound { IfOk result (λ n. n ≤ 64) }
    ensures clean { (n : Counts) → verdict_of file.now ≡ Ok n → FileClean file.now n }
    ensures refused { (e : LoadFault) → verdict_of file.now ≡ Err (Load e) → FileRefused file.now e }
    ensures long { TooLong file.now (verdict_of file.now) }
    ensures fabric { NoFabric file.now (verdict_of file.now) }
{
    // before the file is looked at, which may take long
    if out.len() < LONGEST_LINE {
        return Err(BufferFault);
    }
    write_line(out, judge_file(file).map_err(Told::from))
}
