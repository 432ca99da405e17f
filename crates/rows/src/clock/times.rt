// What a clock tells of a release and of an arrival.
ghost use Rattle.std.specs.Prelude.{◌≡◌, ◌+◌, ◌*◌, ◌^◌, ◌<◌, ◌≤◌, None, IfSome};
ghost use Rattle.rows.specs.Times.{late, ahead, slot_end};

use super::Clock;
use analysis::loaded::Loaded;
use analysis::row::Row;

impl Clock {
    // The clock of a table that was just loaded, at slot 0, unless a slot has 2^30 cycles or more.
    pub fn start(loaded: &Loaded) -> Option<Clock>
        ensures slot { IfSome result (λ clock. clock.slot ≡ 0) }
        ensures times { IfSome result (λ clock. clock.times ≡ loaded.now.slot) }
        ensures none { result ≡ None → 2 ^ 30 ≤ loaded.now.slot.length }
    {
        if loaded.slot.length >= 1 << 30 {
            return None;
        }
        Some(Clock {
            slot: 0,
            times: loaded.slot,
        })
    }

    // Where the interval of a flow ends in the slot.
    fn interval_end(&self, flow: usize) -> u128
        ensures { result ≡ self.now.slot * self.now.times.length + flow * self.now.times.interval }
    {
        let interval = u128::from(self.times.interval);
        let length = u128::from(self.times.length);
        u128::from(self.slot) * length + flow as u128 * interval
    }

    // Whether a release at a cycle comes after an interval that it could have stood in, and so belongs to an earlier slot.
    pub fn late(&self, flow: usize, cycle: u64) -> bool
        ensures { result ≡ late self.now.times self.now.slot flow cycle }
    {
        u128::from(cycle) + u128::from(self.times.length) < self.interval_end(flow)
    }

    // Whether a release at a cycle misses the flow's interval in the slot, and so belongs to a later one.
    pub fn ahead(&self, flow: usize, cycle: u64) -> bool
        ensures { result ≡ ahead self.now.times self.now.slot flow cycle }
    {
        self.interval_end(flow) <= u128::from(cycle)
    }

    // How many slots are over once this one is.
    fn slots_over(&self) -> u64
        ensures value { result ≡ self.now.slot + 1 }
        ensures few { result ≤ 2 ^ 32 }
    {
        u64::from(self.slot) + 1
    }

    // When a packet of a flow arrives that has its last grant in the slot.
    pub(crate) fn arrival(&self, row: &Row) -> u64
        requires { row.now.tail < 2 ^ 60 }
        ensures { result ≡ slot_end self.now.times self.now.slot + row.now.tail }
    {
        self.slots_over() * u64::from(self.times.length) + row.tail
    }
}
