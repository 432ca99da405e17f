// What a slip names: a run, and the slot of it that awaits its injection.

#[derive(Clone, Copy, PartialEq, Eq)]
pub struct SlipName {
    pub number: u32,
    pub slot: u32,
}
