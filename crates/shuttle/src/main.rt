//! Runs the script that standard input holds, which begins on a fabric that no other crate knows, and prints each line with what
//! it is answered.
#![tactic(auto)]

use script::transcript::transcript_over;
use std::io::{Read, Write};

mod shuttle;

fn run(rt: &HostRuntime) -> anyhow::Result<()> {
    let mut script = Vec::new(rt.alloc());
    rt.stdin().read_to_end(&mut script)?;
    let out = transcript_over(rt.alloc(), &shuttle::Shuttle, &script)?;
    rt.stdout().write_all(&out)?;
    Ok(())
}

fn main(rt: HostRuntime) -> anyhow::Result<()> {
    run(&rt)
}
