// A worked case.
use calls::record::Record;
use calls::refusal::Refusal;

// What is done in a run.
#[derive(Clone, Copy)]
pub enum Step {
    // A flow releases a packet at a cycle; its refusal, if it is refused.
    Release(usize, u64, Option<Refusal>),
    // So many slots are arbitrated and injected.
    Slots(u8),
}

// A file of three flows is loaded, and these steps are answered so and leave this ledger.
#[derive(Clone, Copy)]
pub struct Case {
    pub file: [u8; 80],
    pub steps: [Step; 4],
    pub ledger: [Record; 3],
}
