// What a run holds.
ghost use Rattle.std.specs.Prelude.{◌≡◌, ◌&&◌, length, if◌then◌else◌};
ghost use Rattle.std.specs.Option.{option_copied};
ghost use Rattle.medium.specs.Levels.{read_at};
ghost use Rattle.history.specs.State.{known, row_of};
ghost use Rattle.run.specs.Seen.{state_of};

use super::Run;
use medium::level::Level;
use medium::medium::Medium;
use rows::flow_row::FlowRow;

impl<M: Medium> Run<M> {
    // How many flows there are.
    pub fn flows(&self) -> usize
        ensures { result ≡ length (state_of M.levels self.now).rows }
    {
        self.rows.len()
    }

    // The row of a flow, if there is a flow with this number.
    pub(super) fn row(&self, flow: usize) -> Option<&FlowRow>
        ensures { option_copied result ≡ (if known (state_of M.levels self.now) flow then Some (row_of (state_of M.levels self.now) flow) else None) }
    {
        let place = flow.checked_sub(1)?;
        self.rows.as_slice().get(place)
    }

    // The slots that were injected since the load.
    pub fn slot(&self) -> u32
        ensures { result ≡ (state_of M.levels self.now).slot }
    {
        self.clock.slot
    }

    // The cycles of a slot.
    pub fn slot_length(&self) -> u32
        ensures { result ≡ (state_of M.levels self.now).times.length }
    {
        self.clock.times.length
    }

    // The count of the ledger's records.
    pub fn records(&self) -> usize
        ensures { result ≡ (state_of M.levels self.now).count }
    {
        self.count
    }

    // Whether a flow wanted in the slot last arbitrated.
    pub fn wanted(&self, flow: usize) -> bool
        ensures { result ≡ (known (state_of M.levels self.now) flow && (row_of (state_of M.levels self.now) flow).progress.wanted) }
    {
        self.row(flow).is_some_and(|row| row.progress.wanted)
    }

    // Whether a flow was granted in the slot last arbitrated.
    pub fn granted(&self, flow: usize) -> bool
        ensures { result ≡ (known (state_of M.levels self.now) flow && (row_of (state_of M.levels self.now) flow).progress.granted) }
    {
        self.row(flow).is_some_and(|row| row.progress.granted)
    }

    // The level of interval k of the medium, from 0, or none where it was not opened.
    pub fn level(&self, k: usize) -> Option<Level>
        ensures { result ≡ read_at (state_of M.levels self.now).levels k }
    {
        self.medium.read(k)
    }
}
