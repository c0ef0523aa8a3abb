//! A whole script: its lines, the plans that fabric lines begin, and each line with what it is answered.
ghost use Rattle.fabric.specs.Network.{IsFabric};
ghost use Rattle.listed.specs.Description.{alone, network};
ghost use Rattle.script.specs.Stretches.{FabricsBegin, NewStretches, StretchesAsLists, TextsSplit};
ghost use Rattle.script.specs.Transcripts.{transcript_text};
ghost use Rattle.std.specs.List.{slice_split};
ghost use Rattle.std.specs.Prelude.{◌≡◌, ◌==◌, map, IfOk};

use crate::reading::read_lines;
use crate::running::run_all;
use fabric::Fabric;
use listed::Listed;
use std::alloc::{AllocError, Global};

// What stands between the newlines; after a final newline that is nothing, which is a blank line.
fn split(heap: Global, script: &[u8]) -> Result<Vec<&[u8]>, AllocError>
    ensures { IfOk result (λ v. map (λ text. text.now) v.items ≡ slice_split (λ b. b == 10) script.now) }
{
    script.split(|b| *b == b'\n').collect(heap)
}

/// The lines of a script that are not blank, each with what it is answered. The script begins with a new plan over the fabric.
pub fn transcript_over<F: Fabric>(
    heap: Global,
    fabric: &F,
    script: &[u8],
) -> Result<Vec<u8>, AllocError>
    ensures { IfOk result (λ v. v.items ≡ transcript_text (F.meaning fabric.now) script.now) }
{
    let texts = split(heap, script)?;
    let lines = read_lines(heap, &texts)?;
    run_all(heap, fabric, &texts, &lines)
}

/// The same of a script that begins on a single node.
pub fn transcript(heap: Global, script: &[u8]) -> Result<Vec<u8>, AllocError>
    ensures { IfOk result (λ v. v.items ≡ transcript_text (network alone) script.now) }
{
    transcript_over(heap, &Listed::new(), script)
}

/// The lines between two that make a fabric do what the list of the calls among them does, on a plan that is new at the first of these
/// lines: so what is promised of every list of calls is promised of them.
pub fn stretches_stand()
    ensures lists { StretchesAsLists }
    ensures promise { NewStretches }
    ensures begins { FabricsBegin }
    ensures alone { IsFabric (network alone) }
    ensures splits { TextsSplit }
{}
