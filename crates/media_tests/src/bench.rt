// A medium under test.
use crate::naive::Naive;
use crate::tally::Tally;
use medium::medium::Medium;
use std::alloc::Global;

mod drive;
mod edges;

// A medium, the naive list that it is compared with, and the counts of what was done.
#[derive(Drop)]
pub struct Bench<M> {
    medium: M,
    naive: Naive,
    tally: Tally,
}

impl<M: Medium + Drop> Bench<M> {
    pub fn new(heap: Global, medium: M) -> Bench<M> {
        Bench {
            medium,
            naive: Naive::new(heap),
            tally: Tally::new(),
        }
    }

    // What was counted.
    pub fn tally(&self) -> &Tally {
        &self.tally
    }
}
