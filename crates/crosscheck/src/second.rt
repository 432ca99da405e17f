// The second calculation, by sets and plain scans.
pub mod bounds;
pub mod checks;
pub mod cutting;
pub mod file;
mod grid;
pub mod link;
mod lists;
pub mod network;
pub mod records;
pub mod sections;
pub mod whole;
