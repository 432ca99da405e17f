// What a run tells of its ledger and its flows. Telling changes nothing.
ghost use Rattle.std.specs.Prelude.{◌≡◌, List, take, IfOk};
ghost use Rattle.calls.specs.declared.event.Event.TheVariants.{Reported, Told};
ghost use Rattle.calls.specs.declared.record.Record.{Record as Entry};
ghost use Rattle.reports.specs.Margins.{TightestRecord};
ghost use Rattle.reports.specs.Verdicts.{TightestFlow};
ghost use Rattle.history.specs.Steps.{Reports, Tells};
ghost use Rattle.history.specs.Promise.{Upholds};
ghost use Rattle.run.specs.Seen.{state_of};

use super::Run;
use calls::record::Record;
use calls::refusal::Refusal;
use calls::report::{Report, Verdict};
use medium::medium::Medium;
use reports::report::report as report_of;
use reports::verdict::verdict as verdict_of;

impl<M: Medium> Run<M> {
    fn report_step(&self, ledger: &[Record]) -> Result<Report, Refusal>
        ensures answer { Reports (state_of M.levels self.now) ledger.now result (state_of M.levels self.now) ledger.now }
        ensures tightest { IfOk result (λ t. TightestRecord (state_of M.levels self.now).rows (take self.now.count ledger.now) t.tightest) }
    {
        report_of(&self.rows, self.count, ledger)
    }

    // How many packets were accepted, arrived and are open, as the ledger's records say, and which came closest to its bound.
    pub fn report(&self, ledger: &[Record]) -> Result<Report, Refusal>
        ensures answer { Reports (state_of M.levels self.now) ledger.now result (state_of M.levels self.now) ledger.now }
        ensures tightest { IfOk result (λ t. TightestRecord (state_of M.levels self.now).rows (take self.now.count ledger.now) t.tightest) }
        ensures promise { Upholds M.most (Reported result) (state_of M.levels self.now) ledger.now (state_of M.levels self.now) ledger.now }
    {
        self.report_step(ledger)
    }

    fn verdict_step(&self, flow: usize) -> Result<Verdict, Refusal>
        ensures answer { Tells (state_of M.levels self.now) flow result (state_of M.levels self.now) }
        ensures tightest { IfOk result (λ v. TightestFlow (state_of M.levels self.now).rows v.tightest) }
    {
        verdict_of(&self.rows, flow)
    }

    // The figures of a flow, and the flow whose bound comes closest to its deadline.
    pub fn verdict(&self, flow: usize) -> Result<Verdict, Refusal>
        ensures answer { Tells (state_of M.levels self.now) flow result (state_of M.levels self.now) }
        ensures tightest { IfOk result (λ v. TightestFlow (state_of M.levels self.now).rows v.tightest) }
        ensures promise { (k : List Entry) → Upholds M.most (Told flow result) (state_of M.levels self.now) k (state_of M.levels self.now) k }
    {
        self.verdict_step(flow)
    }
}
