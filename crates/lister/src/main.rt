// Lists what lies where in a picture of a box's memory, which comes in on standard input.
#![tactic(auto)]

use phone::listing::LONGEST;
use pictures::list_padded;
use std::io::{Read, Write};

fn run(rt: &HostRuntime) -> anyhow::Result<()> {
    let mut bytes = Vec::new(rt.alloc());
    rt.stdin().take(256).read_to_end(&mut bytes)?;
    // The phone puts the listing into a buffer of its caller's.
    let mut lines = [0; LONGEST];
    let n = list_padded(&bytes, &mut lines).unwrap();
    rt.stdout().write_all(&lines[0..n])?;
    Ok(())
}

fn main(rt: HostRuntime) -> anyhow::Result<()> {
    run(&rt)
}
