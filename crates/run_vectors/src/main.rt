// Makes the worked runs, which are theorems about the definitions, through the library.
#![tactic(auto)]

mod case;
mod cases;
mod script;

use anyhow::anyhow;
use calls::load_refusal::LoadRefusal;
use case::Case;
use cases::{BLANK, cases};
use medium::line::Line;
use mesh::mesh::Mesh;
use run::run::Run;
use script::{RUN, answered, calls_of};
use std::alloc::Global;

// Whether the steps, in a run over a line, are answered as they must be and leave the ledger that they must.
fn run_agrees(heap: Global, case: &Case) -> Result<bool, LoadRefusal> {
    let mesh = Mesh::from_file(&case.file)?;
    let calls = calls_of(heap, &case.steps)?;
    let mut ledger = [BLANK; 3];
    let mut run = Run::new(heap, Line::new());
    let events = run.play(heap, &case.file, &mesh, RUN, calls.as_slice(), &mut ledger)?;
    Ok(answered(events.as_slice(), &case.steps) && ledger == case.ledger)
}

// Whether the library does what is expected.
fn agrees(heap: Global, case: &Case) -> bool {
    run_agrees(heap, case).unwrap_or(false)
}

// The worked tables have the same loop: a crate of its own for its few lines would be no plainer.
fn main(rt: HostRuntime) -> anyhow::Result<()> {
    let mut failed = false;
    for (k, case) in cases().iter().enumerate() {
        let number = k + 1;
        if agrees(rt.alloc(), case) {
            println!(rt; "case {number}: as worked out")?;
        } else {
            println!(rt; "case {number}: differs")?;
            failed = true;
        }
    }
    if failed {
        return Err(anyhow!("a worked case differs"));
    }
    Ok(())
}
