// Staircases: the search for a least solution, and the staircase of a flow's demand.
#![tactic(auto)]

pub mod demand;
pub mod search;
pub mod term;
