// Runs the worked cases, which are theorems about the definitions, through the library.
#![tactic(auto)]

mod case;
mod cases;

use anyhow::anyhow;
use case::Case;
use cases::cases;
use files::load_file;
use std::alloc::Global;

// Whether the library answers what is expected.
fn agrees(heap: Global, case: &Case) -> bool {
    match (load_file(heap, &case.file), case.expected) {
        (Ok(loaded), Ok(expected)) => {
            let found = (1..=loaded.flows()).map(|flow| loaded.figures(flow));
            found.eq(expected.into_iter().map(Some))
        }
        (Err(fault), Err(expected)) => fault == expected,
        _ => false,
    }
}

// The loop is that of the worked runs too: a crate of its own for these lines would be no plainer.
fn main(rt: HostRuntime) -> anyhow::Result<()> {
    let mut failed = false;
    for (k, case) in cases().iter().enumerate() {
        let number = k + 1;
        if agrees(rt.alloc(), case) {
            println!(rt; "case {number}: as worked out")?;
        } else {
            println!(rt; "case {number}: differs")?;
            failed = true;
        }
    }
    if failed {
        return Err(anyhow!("a worked case differs"));
    }
    Ok(())
}
