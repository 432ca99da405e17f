// Drives both media through the same calls, compares them with a naive list, and prints what it did.
#![tactic(auto)]

use anyhow::anyhow;
use medium::bank::NodeBank;
use medium::line::Line;
use medium::medium::Medium;

mod bench;
mod naive;
mod script;
mod tally;

use bench::Bench;

// Every test of one medium. Fails where anything differed.
fn test<M: Medium + Drop>(rt: &HostRuntime, name: &str, medium: M) -> anyhow::Result<()> {
    let mut bench = Bench::new(rt.alloc(), medium);
    bench.follow_script()?;
    bench.try_edges();
    let tally = bench.tally();
    println!(rt; "{name}\n{tally}")?;
    if tally.mismatches() > 0 {
        return Err(anyhow!("a medium differs from the list"));
    }
    Ok(())
}

fn main(rt: HostRuntime) -> anyhow::Result<()> {
    test(&rt, "line", Line::new())?;
    test(&rt, "node bank", NodeBank::new())
}
