// The flow table: what its bytes mean, and the checks of its header and sections.
#![tactic(auto)]

mod bytes;
pub mod checks;
pub mod fault;
pub mod header;
pub mod profile;
pub mod records;
