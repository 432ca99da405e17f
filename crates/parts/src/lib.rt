// The slot of a table, and how a packet is split into parts.
#![tactic(auto)]

pub mod slot;
pub mod split;
