// What a run tells of itself: the report of its ledger, and the verdict on a flow.
#![tactic(auto)]

pub mod report;
mod slack;
mod timely;
pub mod verdict;
