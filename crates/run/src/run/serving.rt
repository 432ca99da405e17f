// The two halves of a slot: arbitrate, and inject or abandon.
ghost use Rattle.std.specs.Prelude.{◌≡◌, List};
ghost use Rattle.calls.specs.declared.event.Event.TheVariants.{Arbitrated, Injected, Abandoned};
ghost use Rattle.calls.specs.declared.record.Record.{Record as Entry};
ghost use Rattle.history.specs.State.{names};
ghost use Rattle.history.specs.Steps.{slip_of, Arbitrates, Injects, Abandons};
ghost use Rattle.history.specs.Promise.{Upholds};
ghost use Rattle.run.specs.Seen.{state_of};
ghost use Rattle.run.specs.Slips.{named, bare, HandedBack};

use super::Run;
use crate::phase::Phase;
use crate::slip::Slip;
use calls::record::Record;
use calls::refusal::Refusal;
use calls::slip_name::SlipName;
use medium::medium::Medium;
use slots::arbitration::decide;
use slots::injection::serve_all;

impl<M: Medium> Run<M> {
    // What a slip for the slot names.
    fn slip_name(&self) -> SlipName
        ensures { result ≡ slip_of (state_of M.levels self.now) }
    {
        SlipName {
            number: self.number,
            slot: self.clock.slot,
        }
    }

    fn arbitrate_step(&mut self) -> Result<Slip, Refusal>
        ensures { Arbitrates M.most (state_of M.levels self.old) (named result) (state_of M.levels self.new) }
    {
        self.phase.open()?;
        if self.clock.slot == u32::MAX {
            return Err(Refusal::LastSlot);
        }
        decide(&mut self.medium, &mut self.rows);
        self.phase = Phase::Owed;
        Ok(Slip {
            name: self.slip_name(),
        })
    }

    // Whether a slip names this run and the slot that awaits its injection.
    fn awaits(&self, slip: &Slip) -> bool
        ensures { result ≡ names (state_of M.levels self.now) slip.now.name }
    {
        self.phase == Phase::Owed && slip.name == self.slip_name()
    }

    fn inject_step(&mut self, slip: Slip, ledger: &mut [Record]) -> Result<usize, (Refusal, Slip)>
        ensures after { Injects (state_of M.levels self.old) ledger.old slip.name (bare result) (state_of M.levels self.new) ledger.new }
        ensures back { HandedBack slip result }
    {
        if !self.awaits(&slip) {
            return Err((Refusal::WrongSlip, slip));
        }
        if ledger.len() < self.count {
            return Err((Refusal::ShortLedger, slip));
        }
        let Slip { name: _ } = slip;
        let grants = serve_all(&mut self.rows, &self.clock, ledger);
        self.clock.slot += 1;
        self.phase = Phase::Open;
        Ok(grants)
    }

    fn abandon_step(&mut self, slip: Slip) -> Result<(), (Refusal, Slip)>
        ensures after { Abandons (state_of M.levels self.old) slip.name (bare result) (state_of M.levels self.new) }
        ensures back { HandedBack slip result }
    {
        if !self.awaits(&slip) {
            return Err((Refusal::WrongSlip, slip));
        }
        let Slip { name: _ } = slip;
        self.phase = Phase::Ended;
        Ok(())
    }
}

impl<M: Medium> Run<M> {
    // Decides who is granted in the slot, over the medium, and answers the right to inject it.
    pub fn arbitrate(&mut self) -> Result<Slip, Refusal>
        ensures after { Arbitrates M.most (state_of M.levels self.old) (named result) (state_of M.levels self.new) }
        ensures promise { (k : List Entry) → Upholds M.most (Arbitrated (named result)) (state_of M.levels self.old) k (state_of M.levels self.new) k }
    {
        self.arbitrate_step()
    }

    // Spends the slip: each wanted flow's record gains a grant or a denial. Answers how many were granted; a refusal hands the slip back.
    pub fn inject(&mut self, slip: Slip, ledger: &mut [Record]) -> Result<usize, (Refusal, Slip)>
        ensures after { Injects (state_of M.levels self.old) ledger.old slip.name (bare result) (state_of M.levels self.new) ledger.new }
        ensures back { HandedBack slip result }
        ensures promise { Upholds M.most (Injected slip.name (bare result)) (state_of M.levels self.old) ledger.old (state_of M.levels self.new) ledger.new }
    {
        self.inject_step(slip, ledger)
    }

    // Spends the slip, and ends the run; a refusal hands the slip back.
    pub fn abandon(&mut self, slip: Slip) -> Result<(), (Refusal, Slip)>
        ensures after { Abandons (state_of M.levels self.old) slip.name (bare result) (state_of M.levels self.new) }
        ensures back { HandedBack slip result }
        ensures promise { (k : List Entry) → Upholds M.most (Abandoned slip.name (bare result)) (state_of M.levels self.old) k (state_of M.levels self.new) k }
    {
        self.abandon_step(slip)
    }
}
