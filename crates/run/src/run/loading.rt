// Loading a table into a run.
ghost use Rattle.std.specs.Prelude.{◌≡◌, false, List, is_ok, None, Err, OnOk};
ghost use Rattle.analysis.specs.Answers.{Exactly};
ghost use Rattle.analysis.specs.Loading.{timing_of};
ghost use Rattle.calls.specs.declared.load_refusal.LoadRefusal.TheVariants.{Fault};
ghost use Rattle.calls.specs.declared.record.Record.{Record as Entry};
ghost use Rattle.table.specs.declared.fault.LoadFault.TheVariants.{NoMemory};
ghost use Rattle.history.specs.Begun.{run_refusal, early_refusal, BuildsRun, Begun, PromiseBegins};
ghost use Rattle.run.specs.Seen.{state_of};

use super::Run;
use crate::phase::Phase;
use analysis::load::load as load_table;
use calls::load_refusal::LoadRefusal;
use fabric::fabric::Fabric;
use medium::medium::Medium;
use rows::clock::Clock;
use rows::rows::Rows;
use std::alloc::Global;

impl<M: Medium> Run<M> {
    fn load_step<F: Fabric>(
        &mut self,
        heap: Global,
        file: &[u8],
        fabric: &F,
        number: u32,
    ) -> Result<(), LoadRefusal>
        ensures answer { BuildsRun (run_refusal (state_of M.levels self.old) file.now (F.nodes fabric.now) (F.route fabric.now) M.most) (λ _. Begun file.now (F.route fabric.now) number (state_of M.levels self.new)) result }
        ensures same { is_ok result ≡ false → state_of M.levels self.new ≡ state_of M.levels self.old }
        ensures memory { result ≡ Err (Fault NoMemory) → early_refusal (state_of M.levels self.old) file.now (F.nodes fabric.now) M.most ≡ None }
        ensures exact { OnOk result (Exactly (timing_of file.now (F.route fabric.now))) }
    {
        if self.phase == Phase::Owed {
            return Err(LoadRefusal::Owed);
        }
        let loaded = load_table(heap, file, fabric, self.medium.limit())?;
        let Some(rows) = Rows::fill(heap, loaded.rows.as_slice())? else {
            unreachable()
        };
        let Some(clock) = Clock::start(&loaded) else {
            unreachable()
        };
        self.medium.clear();
        self.rows = rows;
        self.clock = clock;
        self.number = number;
        self.count = 0;
        self.phase = Phase::Open;
        Ok(())
    }

    // Loads a table over a fabric, under a run number: it fills the rows, begins at slot 0 with no records, and clears the medium. A
    // refused load changes nothing. What was loaded before is gone, and lists of calls are counted anew.
    pub fn load<F: Fabric>(
        &mut self,
        heap: Global,
        file: &[u8],
        fabric: &F,
        number: u32,
    ) -> Result<(), LoadRefusal>
        ensures answer { BuildsRun (run_refusal (state_of M.levels self.old) file.now (F.nodes fabric.now) (F.route fabric.now) M.most) (λ _. Begun file.now (F.route fabric.now) number (state_of M.levels self.new)) result }
        ensures same { is_ok result ≡ false → state_of M.levels self.new ≡ state_of M.levels self.old }
        ensures memory { result ≡ Err (Fault NoMemory) → early_refusal (state_of M.levels self.old) file.now (F.nodes fabric.now) M.most ≡ None }
        ensures exact { OnOk result (Exactly (timing_of file.now (F.route fabric.now))) }
        ensures promise { OnOk result ((k : List Entry) → PromiseBegins M.most file.now (F.route fabric.now) (state_of M.levels self.new) k) }
    {
        self.load_step(heap, file, fabric, number)
    }
}
