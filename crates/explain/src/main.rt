// A session file on standard input; prints its records in words.
#![tactic(auto)]

use report::explain::explain;
use session::reader::MOST_READ;
use std::io::Read;

// As in `replay` but for one call, and as `play` in `sessions` but for a file: a function of them would need a closure
// and a contract for three lines.
fn run(rt: &HostRuntime) -> anyhow::Result<()> {
    let mut file = Vec::new(rt.alloc());
    rt.stdin().take(MOST_READ).read_to_end(&mut file)?;
    rt.print(explain(rt.alloc(), file.as_slice())?)?;
    Ok(())
}

fn main(rt: HostRuntime) -> anyhow::Result<()> {
    run(&rt)
}
