// Reads a flow table from standard input and prints the figures of each flow, or why the table is refused.
#![tactic(auto)]

use analysis::loaded::Loaded;
use files::load_file;
use std::io::Read;
use std::process::ExitCode;

fn print_table(rt: &HostRuntime, loaded: &Loaded) -> anyhow::Result<()> {
    println!(rt; "flow hops parts alone bound rounds")?;
    // by number: what the figures are is promised of these two calls
    for flow in 1..=loaded.flows() {
        if let Some(figures) = loaded.figures(flow) {
            println!(rt; "{flow} {figures}")?;
        }
    }
    Ok(())
}

fn main(rt: HostRuntime) -> anyhow::Result<ExitCode> {
    let heap = rt.alloc();
    // One byte more than the longest table shows that a file is too long.
    let mut file = Vec::new(heap);
    rt.stdin().take(65_536).read_to_end(&mut file)?;
    match load_file(heap, file.as_slice()) {
        Ok(loaded) => {
            print_table(&rt, &loaded)?;
            Ok(ExitCode::SUCCESS)
        }
        Err(fault) => {
            println!(rt; "{fault}")?;
            Ok(ExitCode::FAILURE)
        }
    }
}
