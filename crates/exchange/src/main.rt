// A talk on standard input, line by line; prints each line with what the mouse gives then.
#![tactic(auto)]

use anyhow::anyhow;
use std::io::Read;
use std::str::from_utf8;
use talk::exchange::exchange;

const MOST_BYTES: usize = 65_536;

fn run(rt: &HostRuntime) -> anyhow::Result<()> {
    let mut input = Vec::new(rt.alloc());
    // one byte more than is accepted, so that too long an input is seen to be too long
    rt.stdin()
        .take(MOST_BYTES as u64 + 1)
        .read_to_end(&mut input)?;
    if input.len() > MOST_BYTES {
        return Err(anyhow!("the input is above 65,536 bytes"));
    }
    let Ok(text) = from_utf8(input.as_slice()) else {
        return Err(anyhow!("the input is not text in UTF-8"));
    };
    rt.print(exchange(rt.alloc(), text)?)?;
    Ok(())
}

fn main(rt: HostRuntime) -> anyhow::Result<()> {
    run(&rt)
}
