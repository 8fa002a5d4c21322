// Times READ and power on over both memories, when given an argument.
#![tactic(auto)]

use anyhow::ensure;
use memory::Memory;
use memory::latest::Record;
use memory::log::{LogMemory, MOST_PLACES};
use memory::picture::PictureMemory;
use std::env;
use std::time::Instant;
use tag::Tag;
use tag::making::{Identity, make};

const READS: u32 = 1_000;

// So few that a log of 4,000 records has places for them.
const TAPS: u32 = 50;

const IDENTITY: Identity = Identity {
    uid: [0x02, 0x2e, 0xe5, 0xe2, 0x84, 0x20, 0x00],
    product: [0x59, 0x47, 0x00, 0x01],
    password: [0xc0, 0xff, 0xee, 0x01],
};

const SELECT_1: [u8; 9] = [0x93, 0x70, 0x88, 0x02, 0x2e, 0xe5, 0x41, 0x13, 0xe7];

const SELECT_2: [u8; 9] = [0x95, 0x70, 0xe2, 0x84, 0x20, 0x00, 0x46, 0xb4, 0xc7];

const READ_8: [u8; 4] = [0x30, 0x08, 0x4a, 0x24];

// Sends a frame that must be answered with so many bits. A call is what is timed, so it stays one.
#[inline(never)]
fn send<M: Memory>(tag: &mut Tag<M>, frame: &[u8], count: u8, bits: usize) -> anyhow::Result<()> {
    let mut buffer = [0; 18];
    let answer = tag.frame(frame, count, &mut buffer);
    ensure!(
        matches!(answer, Ok(n) if n == bits),
        "a frame was not answered as it should be"
    );
    Ok(())
}

#[inline(never)]
fn tap<M: Memory>(tag: &mut Tag<M>) -> anyhow::Result<()> {
    tag.power_off();
    ensure!(matches!(tag.power_on(), Ok((true, _))), "no code was drawn");
    Ok(())
}

// Makes a tag, taps until its memory was written so often, and prints the mean time of a READ and of a power on.
fn time<M: Memory + Drop>(
    rt: &HostRuntime,
    name: &str,
    mut memory: M,
    writes: u32,
) -> anyhow::Result<()> {
    ensure!(
        make(&mut memory, &IDENTITY).is_ok(),
        "the memory is too small"
    );
    let mut tag = Tag::open(memory);
    for _ in 64..writes {
        tap(&mut tag)?;
    }
    send(&mut tag, &[0x26], 7, 16)?;
    send(&mut tag, &SELECT_1, 8, 24)?;
    send(&mut tag, &SELECT_2, 8, 24)?;
    let start = Instant::now(rt)?;
    for _ in 0..READS {
        send(&mut tag, &READ_8, 8, 144)?;
    }
    let read = start.elapsed(rt)?.as_nanos() / u128::from(READS);
    let start = Instant::now(rt)?;
    for _ in 0..TAPS {
        tap(&mut tag)?;
    }
    let power = start.elapsed(rt)?.as_nanos() / u128::from(TAPS);
    println!(rt; "{name} after {writes} writes: READ {read} ns, power on {power} ns")?;
    Ok(())
}

fn run(rt: &HostRuntime) -> anyhow::Result<()> {
    let mut cells = [0; 256];
    time(rt, "picture", PictureMemory::new(&mut cells, 100_000), 100)?;
    for records in [100, 1_000, 4_000] {
        let mut places = [Record::default(); MOST_PLACES];
        time(rt, "log", LogMemory::new(&mut places), records)?;
    }
    Ok(())
}

fn main(rt: HostRuntime) -> anyhow::Result<()> {
    if env::args(&rt)?.count() < 2 {
        return Ok(());
    }
    run(&rt)
}
