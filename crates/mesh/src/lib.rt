// A mesh of nodes in columns and rows, as a fabric: a route goes along x first, then along y.
#![tactic(auto)]

mod axis;
mod direction;
pub mod example;
pub mod mesh;
