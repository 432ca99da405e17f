// What changes a row: a release, an arbitration and an injection. A place past the end has no row, and nothing changes.
ghost use Rattle.std.specs.Prelude.{◌≡◌, map, slice_index_or, slice_set};
ghost use Rattle.calls.specs.Events.{no_record};
ghost use Rattle.rows.specs.Blank.{no_row};
ghost use Rattle.rows.specs.Grants.{mark};
ghost use Rattle.rows.specs.Releases.{begun};
ghost use Rattle.rows.specs.Serving.{served, noted, wrote, ledger_after, one, grant_count};
ghost use Rattle.rows.specs.Small.{IsSmall, Small};
ghost use Rattle.rows.specs.Times.{slot_end};

use super::Rows;
use crate::clock::Clock;
use crate::flow_row::FlowRow;
use calls::record::Record;

impl Rows {
    // Opens a packet of the flow in row k: its release, and the place of its record.
    pub fn begin(&mut self, k: usize, cycle: u64, place: usize)
        ensures rows { self.new ≡ slice_set self.old k (begun (slice_index_or self.old k no_row) cycle place) }
        ensures small { Small self.new }
    {
        if let Some(row) = self.items.get_mut(k) {
            row.progress.left = row.flow.parts;
            row.progress.denials = 0;
            row.progress.place = place;
            row.progress.last = Some(cycle);
        }
    }

    // Notes of row k whether its flow wants, and whether it is granted.
    pub fn mark(&mut self, k: usize, granted: bool)
        ensures rows { self.new ≡ slice_set self.old k (mark (slice_index_or self.old k no_row) granted) }
        ensures small { Small self.new }
    {
        if let Some(row) = self.items.get_mut(k) {
            row.progress.wanted = row.progress.left > 0;
            row.progress.granted = granted;
        }
    }
}

impl FlowRow {
    // Counts the grant or the denial of a flow that wanted.
    fn count(&mut self)
        ensures { self.new ≡ served self.old }
    {
        if self.progress.wanted {
            if self.progress.granted {
                self.progress.left = self.progress.left.saturating_sub(1);
            } else {
                self.progress.denials = self.progress.denials.saturating_add(1);
            }
        }
    }

    // Writes the flow's own counts into the record of its packet.
    fn note(&self, clock: &Clock, ledger: &mut [Record])
        requires { IsSmall self.now.flow }
        ensures { ledger.new ≡ slice_set ledger.old self.now.progress.place (noted (slot_end clock.now.times clock.now.slot) self.now (slice_index_or ledger.old self.now.progress.place no_record)) }
    {
        let place = self.progress.place;
        let pending = self.progress.left > 0;
        let arrival = if pending {
            0
        } else {
            clock.arrival(&self.flow)
        };
        // not `get_mut`: its contract says nothing of what the slice ends as
        if place < ledger.len() {
            let packet = &mut ledger[place];
            packet.grants = self.flow.parts.saturating_sub(self.progress.left);
            packet.denials = self.progress.denials;
            packet.arrival = arrival;
            packet.pending = pending;
        }
    }

    // Gives the flow its grant or its denial, and writes it into the ledger; 1 for a grant.
    fn serve(&mut self, clock: &Clock, ledger: &mut [Record]) -> usize
        requires { IsSmall self.old.flow }
        ensures answer { result ≡ one self.old }
        ensures row { self.new ≡ served self.old }
        ensures ledger { ledger.new ≡ wrote (slot_end clock.now.times clock.now.slot) self.old ledger.old }
    {
        self.count();
        if !self.progress.wanted {
            return 0;
        }
        self.note(clock, ledger);
        usize::from(self.progress.granted)
    }
}

impl Rows {
    // Gives row k its grant or its denial, and writes it into the ledger; 1 for a grant.
    pub fn serve(&mut self, k: usize, clock: &Clock, ledger: &mut [Record]) -> usize
        ensures answer { result ≡ one (slice_index_or self.old k no_row) }
        ensures rows { self.new ≡ slice_set self.old k (served (slice_index_or self.old k no_row)) }
        ensures small { Small self.new }
        ensures ledger { ledger.new ≡ wrote (slot_end clock.now.times clock.now.slot) (slice_index_or self.old k no_row) ledger.old }
    {
        match self.items.get_mut(k) {
            Some(row) => row.serve(clock, ledger),
            None => 0,
        }
    }

    // Serves each flow in turn, writes the ledger, and answers how many were granted.
    pub fn serve_all(&mut self, clock: &Clock, ledger: &mut [Record]) -> usize
        ensures answer { result ≡ grant_count self.old }
        ensures rows { self.new ≡ map served self.old }
        ensures small { Small self.new }
        ensures ledger { ledger.new ≡ ledger_after (slot_end clock.now.times clock.now.slot) self.old ledger.old }
    {
        let mut grants = 0;
        for row in self.items.iter_mut() {
            grants += row.serve(clock, ledger);
        }
        grants
    }
}
