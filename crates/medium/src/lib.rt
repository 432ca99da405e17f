// The medium that boards arbitrate over: what any medium means, and two that are built.
#![tactic(auto)]

pub mod bank;
pub mod checks;
pub mod fault;
pub mod level;
pub mod line;
pub mod medium;
mod words;
