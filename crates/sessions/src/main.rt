// Session files named by arguments; prints each name and the transcript of its file.
#![tactic(auto)]

use player::transcript::transcript;
use session::reader::MOST_READ;
use std::env;
use std::fs::File;
use std::io::Read;

fn play(rt: &HostRuntime, name: &str) -> anyhow::Result<()> {
    let mut file = Vec::new(rt.alloc());
    File::open(rt, name)?
        .take(MOST_READ)
        .read_to_end(&mut file)?;
    println!(rt; "{name}")?;
    rt.print(transcript(rt.alloc(), file.as_slice())?)?;
    Ok(())
}

fn run(rt: &HostRuntime) -> anyhow::Result<()> {
    for name in env::args(rt)?.skip(1) {
        play(rt, name.as_str())?;
    }
    Ok(())
}

fn main(rt: HostRuntime) -> anyhow::Result<()> {
    run(&rt)
}
