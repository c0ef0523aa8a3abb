//! Prints the verdict line on the plan file that standard input holds.
#![tactic(auto)]

use anyhow::anyhow;
use std::io::{Read, Write};
use verdict::{LONGEST_FILE, LONGEST_LINE, judge};

// One byte more than a plan file may have: a longer input is refused all the same.
const MOST_READ: u64 = LONGEST_FILE as u64 + 1;

fn run(rt: &HostRuntime) -> anyhow::Result<()> {
    let mut file = Vec::new(rt.alloc());
    rt.stdin().take(MOST_READ).read_to_end(&mut file)?;
    // a buffer and no `Vec`: `judge` writes into its caller's bytes
    let mut line = [0u8; LONGEST_LINE];
    let end = judge(&file, &mut line).map_err(|_| anyhow!("the buffer is too short"))?;
    rt.stdout().write_all(&line[0..end])?;
    Ok(())
}

fn main(rt: HostRuntime) -> anyhow::Result<()> {
    run(&rt)
}
