// Making a run, and taking it apart.
ghost use Rattle.std.specs.Prelude.{◌≡◌};
ghost use Rattle.run.specs.Seen.{state_of};
ghost use Rattle.history.specs.State.{empty_state};

use super::Run;
use crate::phase::Phase;
use medium::medium::Medium;
use parts::slot::Slot;
use rows::clock::Clock;
use rows::rows::Rows;
use std::alloc::Global;

// Before a table is loaded a slot has no time.
const NO_TIME: Slot = Slot {
    interval: 0,
    window: 0,
    pause: 0,
    length: 0,
};

impl<M: Medium> Run<M> {
    // An empty run: no flows, no records, ended.
    pub fn new(heap: Global, medium: M) -> Run<M>
        ensures { state_of M.levels result ≡ empty_state (M.levels medium) }
    {
        Run {
            medium,
            rows: Rows::new(heap),
            clock: Clock {
                slot: 0,
                times: NO_TIME,
            },
            number: 0,
            count: 0,
            phase: Phase::Ended,
        }
    }

    // Ends the run, and gives its medium back.
    pub fn into_medium(self) -> M
        ensures { result ≡ self.medium }
    {
        let Run {
            medium,
            rows,
            clock: _,
            number: _,
            count: _,
            phase: _,
        } = self;
        drop(rows);
        medium
    }
}
