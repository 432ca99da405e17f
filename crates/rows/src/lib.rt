// The flows of a run: what load fixed of each, and what the run keeps of it.
#![tactic(auto)]

pub mod clock;
pub mod flow_row;
pub mod rows;
