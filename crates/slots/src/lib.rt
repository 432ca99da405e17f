// The two halves of a slot: the arbitration, which decides who is granted, and the injection, which serves them.
#![tactic(auto)]

pub mod arbitration;
pub mod injection;
