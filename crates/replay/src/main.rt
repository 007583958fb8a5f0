// A session file on standard input; plays it on the tower's controller and prints its transcript.
#![tactic(auto)]

use player::transcript::transcript;
use session::reader::MOST_READ;
use std::io::Read;

// As in `explain`, which says why it stands twice.
fn run(rt: &HostRuntime) -> anyhow::Result<()> {
    let mut file = Vec::new(rt.alloc());
    rt.stdin().take(MOST_READ).read_to_end(&mut file)?;
    rt.print(transcript(rt.alloc(), file.as_slice())?)?;
    Ok(())
}

fn main(rt: HostRuntime) -> anyhow::Result<()> {
    run(&rt)
}
