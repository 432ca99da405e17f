// The calls of a run: what they are handed, what they answer, and the ledger's records.
#![tactic(auto)]

pub mod event;
pub mod load_refusal;
pub mod record;
pub mod refusal;
pub mod report;
pub mod slip_name;
