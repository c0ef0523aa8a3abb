//! Runs the script that standard input holds, and prints each line with what it is answered.
#![tactic(auto)]

use script::transcript::transcript;
use std::io::{Read, Write};

fn run(rt: &HostRuntime) -> anyhow::Result<()> {
    let mut script = Vec::new(rt.alloc());
    rt.stdin().read_to_end(&mut script)?;
    let out = transcript(rt.alloc(), &script)?;
    rt.stdout().write_all(&out)?;
    Ok(())
}

fn main(rt: HostRuntime) -> anyhow::Result<()> {
    run(&rt)
}
