//! Judges a table of cases: on each line of standard input the size of a buffer, a space, and a plan file in hexadecimal.
// Prints the verdict line on each, or the refusal of the buffer.
#![tactic(auto)]

ghost use Rattle.std.specs.Prelude.{◌<◌};

use anyhow::Context;
use refusals::refusal::Refusal;
use refusals::words::word;
use std::alloc::{AllocError, Global};
use std::io::{BufRead, BufReader, Write};
use verdict::{LONGEST_FILE, judge};

const BUFFER_ROOM: usize = 128;

// One byte more than a plan file may have: a longer one is refused all the same.
const MOST_READ: usize = LONGEST_FILE + 1;

fn digit(b: u8) -> u8
    ensures { result < 16 }
{
    char::from(b).to_digit(16).map_or(0, |d| d as u8)
}

// The bytes that the digits stand for, two digits to a byte, as many as are read of a file; any other byte stands for 0, so that a
// table is never refused here.
fn decode(heap: Global, text: &[u8]) -> Result<Vec<u8>, AllocError> {
    let (pairs, _) = text.as_chunks::<2>();
    pairs
        .iter()
        .take(MOST_READ)
        .map(|[high, low]| digit(*high) * 16 + digit(*low))
        .collect(heap)
}

fn show<W: Write>(heap: Global, out: &mut W, room: usize, text: &str) -> anyhow::Result<()> {
    let file = decode(heap, text.as_bytes())?;
    // a buffer and a length of it, since a case says how long a buffer the judge is given
    let mut buffer = [0u8; BUFFER_ROOM];
    let line = &mut buffer[0..room.min(BUFFER_ROOM)];
    match judge(&file, line) {
        Ok(end) => out.write_all(&line[0..end])?,
        Err(fault) => {
            let number = Refusal::from(fault).number;
            write!(out, "{number} ")?;
            out.write_all(word(number))?;
            out.write_all(b"\n")?;
        }
    }
    Ok(())
}

fn run(rt: &HostRuntime) -> anyhow::Result<()> {
    let mut out = rt.stdout();
    for line in BufReader::new(rt.alloc(), rt.stdin())?.lines(rt.alloc()) {
        let line = line?;
        let (room, text) = line
            .as_str()
            .split_once(' ')
            .context("a line without a space")?;
        show(rt.alloc(), &mut out, room.parse::<usize>()?, text)?;
    }
    Ok(())
}

fn main(rt: HostRuntime) -> anyhow::Result<()> {
    run(&rt)
}
