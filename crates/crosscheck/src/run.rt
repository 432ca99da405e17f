// The tables one after another.
use crate::bench::Bench;
use crate::dice::Dice;
use crate::tally::Tally;
use anyhow::anyhow;

// So many tables are drawn; each is compared in several ways.
const TABLES: u64 = 20_000;

// Draws and compares all tables; an error where one differs or a refusal or a cause was never seen.
pub fn run(rt: &HostRuntime) -> anyhow::Result<()> {
    let mut bench = Bench {
        rt,
        dice: Dice::new(88172645463325252),
        tally: Tally::new(rt.alloc()),
    };
    bench.example()?;
    let mut last = Vec::new(rt.alloc());
    for number in 0..TABLES {
        last = bench.table(number, last.as_slice())?;
    }
    let tally = &bench.tally;
    print!(rt; "{tally}")?;
    if !tally.complete() {
        return Err(anyhow!("a refusal or a cause was never seen"));
    }
    println!(rt; "mismatches 0")?;
    Ok(())
}
