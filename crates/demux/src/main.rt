// Readings on standard input, a status byte and a data byte each; prints what each port said.
#![tactic(auto)]

use anyhow::anyhow;
use lanes::lane::MOST_READINGS;
use report::demux::demux;
use std::io::Read;

// One reading more than are accepted, so that too many are seen to be too many.
const MOST_BYTES: u64 = 2 * (MOST_READINGS as u64 + 1);

fn run(rt: &HostRuntime) -> anyhow::Result<()> {
    let mut input = Vec::new(rt.alloc());
    rt.stdin().take(MOST_BYTES).read_to_end(&mut input)?;
    let (pairs, half) = input.as_slice().as_chunks::<2>();
    if !half.is_empty() {
        return Err(anyhow!("the input ends in the middle of a reading, after a status byte"));
    }
    rt.print(demux(rt.alloc(), pairs)?)?;
    Ok(())
}

fn main(rt: HostRuntime) -> anyhow::Result<()> {
    run(&rt)
}
