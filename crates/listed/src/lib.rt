// The listed fabric: the links and routes that a file lists.
#![tactic(auto)]

ghost use Rattle.std.specs.Prelude.{◌≤◌, length};

use fabric::route::Ends;
use table::records::RouteEntry;

pub mod answers;
mod file;
mod hops;
mod search;

#[derive(Drop)]
pub struct Listed {
    nodes: usize,
    links: Vec<Ends>,
    // where each flow's route stands in the number list
    entries: Vec<RouteEntry>,
    // the number list: link numbers
    numbers: Vec<u16>,
    ghost some: { 1 ≤ nodes },
    ghost few: { nodes ≤ 256 },
    ghost limit: { length links.items ≤ 2048 },
}
