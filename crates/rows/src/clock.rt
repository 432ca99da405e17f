// The time of a run: its slot, and how long slots are.
ghost use Rattle.std.specs.Prelude.{◌^◌, ◌<◌};

use parts::slot::Slot;

pub mod times;

#[derive(Clone, Copy)]
pub struct Clock {
    // the slots that were injected
    pub slot: u32,
    pub times: Slot,
    // a slot has less than 2^30 cycles
    ghost short: { times.length < 2 ^ 30 },
}
