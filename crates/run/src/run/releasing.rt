// Releasing a packet.
ghost use Rattle.std.specs.Prelude.{◌≡◌};
ghost use Rattle.calls.specs.declared.event.Event.TheVariants.{Released};
ghost use Rattle.calls.specs.Events.{first_refusal};
ghost use Rattle.rows.specs.Times.{soon};
ghost use Rattle.history.specs.Steps.{unless, release_checks, Releases};
ghost use Rattle.history.specs.Promise.{Upholds};
ghost use Rattle.run.specs.Seen.{state_of};

use super::Run;
use crate::phase::Phase;
use calls::record::Record;
use calls::refusal::Refusal;
use medium::medium::Medium;
use rows::flow_row::FlowRow;

// Whether a release comes before the separation since the flow's last one is over.
fn too_soon(row: &FlowRow, cycle: u64) -> bool
    ensures { result ≡ soon row.now.progress.last row.now.flow.«record».separation cycle }
{
    row.progress.last.is_some_and(|last| {
        u128::from(cycle) < u128::from(last) + u128::from(row.flow.record.separation)
    })
}

impl<M: Medium> Run<M> {
    // The checks of a release in their order, with a ledger of this length.
    fn check_release(&self, flow: usize, cycle: u64, len: usize) -> Result<(), Refusal>
        ensures { result ≡ unless (first_refusal (release_checks (state_of M.levels self.now) len flow cycle)) tt }
    {
        self.phase.open()?;
        let row = self.row(flow).ok_or(Refusal::NoFlow)?;
        if self.clock.late(flow, cycle) {
            return Err(Refusal::Late);
        }
        if self.clock.ahead(flow, cycle) {
            return Err(Refusal::Ahead);
        }
        if too_soon(row, cycle) {
            return Err(Refusal::Soon);
        }
        if row.progress.left > 0 {
            return Err(Refusal::Busy);
        }
        if len < self.count {
            return Err(Refusal::ShortLedger);
        }
        if len == self.count {
            return Err(Refusal::FullLedger);
        }
        Ok(())
    }

    fn release_step(
        &mut self,
        flow: usize,
        cycle: u64,
        ledger: &mut [Record],
    ) -> Result<(), Refusal>
        ensures { Releases (state_of M.levels self.old) ledger.old flow cycle result (state_of M.levels self.new) ledger.new }
    {
        self.check_release(flow, cycle, ledger.len())?;
        let place = self.count;
        ledger[place] = Record {
            flow,
            release: cycle,
            first: self.clock.slot,
            grants: 0,
            denials: 0,
            arrival: 0,
            pending: true,
        };
        self.rows.begin(flow - 1, cycle, place);
        self.count += 1;
        Ok(())
    }

    // Accepts a packet of a flow, released at a cycle, into the slot, and appends its record to the ledger. The two come as the subject names them.
    pub fn release(&mut self, flow: usize, cycle: u64, ledger: &mut [Record]) -> Result<(), Refusal>
        ensures after { Releases (state_of M.levels self.old) ledger.old flow cycle result (state_of M.levels self.new) ledger.new }
        ensures promise { Upholds M.most (Released flow cycle result) (state_of M.levels self.old) ledger.old (state_of M.levels self.new) ledger.new }
    {
        self.release_step(flow, cycle, ledger)
    }
}
