// One flow of a run.
use analysis::row::Row;

// What a run keeps of a flow; by default, that it has released nothing yet.
#[derive(Clone, Copy, Default)]
pub struct Progress {
    // the grants that its open packet still needs, 0 without one
    pub left: u32,
    // the denials of its open packet
    pub denials: u32,
    // where the ledger has its newest packet
    pub place: usize,
    // its last release
    pub last: Option<u64>,
    // whether it wanted, and was granted, in the slot last arbitrated: two marks, since the promise speaks of who wanted and of who was granted
    pub wanted: bool,
    pub granted: bool,
}

#[derive(Clone, Copy)]
pub struct FlowRow {
    // what load fixed
    pub flow: Row,
    pub progress: Progress,
}
