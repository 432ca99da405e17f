// What a fabric is: nodes, links and routes, with the laws that every route keeps.
#![tactic(auto)]

pub mod fabric;
pub mod fault;
pub mod path;
pub mod route;
pub mod trip;
