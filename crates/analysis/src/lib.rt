// Loading a flow table: its checks, and the figures of each flow.
#![tactic(auto)]

pub mod above;
mod bounding;
mod checks;
pub mod figures;
pub mod load;
pub mod loaded;
pub mod row;
mod setting;
mod taking;
mod turn;
