// A run: a loaded table, its slots over any medium, and the promise that no packet of a bounded flow is later than its bound.
#![tactic(auto)]

mod phase;
pub mod run;
pub mod slip;
