// One packet, as the ledger has it.

#[derive(Clone, Copy, PartialEq, Eq)]
pub struct Record {
    // the flow, and the cycle of the release
    pub flow: usize,
    pub release: u64,
    // the first slot that it could be granted in
    pub first: u32,
    // how often it was granted and denied since
    pub grants: u32,
    pub denials: u32,
    // when its last part arrived, 0 while it is open
    pub arrival: u64,
    // it is open: some of its parts have no grant yet
    // beside the arrival, since the ledger's form is fixed: whoever alters it may write any of both
    pub pending: bool,
}
