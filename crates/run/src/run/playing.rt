// Playing a whole list of calls.
ghost use Rattle.std.specs.Prelude.{◌≡◌, ◌≤◌, false, List, [], map, reverse, length, is_ok, vec_capacity};
ghost use Rattle.calls.specs.declared.record.Record.{Record as Entry};
ghost use Rattle.calls.specs.Events.{call_of};
ghost use Rattle.history.specs.Begun.{run_refusal, BuildsRun};
ghost use Rattle.history.specs.Played.{StepsTo, Ran, Played};
ghost use Rattle.history.specs.Since.{Since, Lists};
ghost use Rattle.timing.specs.Model.{Table};
ghost use Rattle.run.specs.Seen.{state_of};

use super::Run;
use crate::slip::Slip;
use calls::event::{Call, Event};
use calls::load_refusal::LoadRefusal;
use calls::record::Record;
use calls::refusal::Refusal;
use calls::slip_name::SlipName;
use fabric::fabric::Fabric;
use medium::medium::Medium;
use std::alloc::Global;

// A refusal, without the slip that it hands back.
fn without_slip(refused: (Refusal, Slip)) -> Refusal
    ensures { result ≡ refused.0 }
{
    let (refusal, Slip { name: _ }) = refused;
    refusal
}

impl<M: Medium> Run<M> {
    // Arbitrates, and keeps of the slip what it names.
    fn play_arbitrate(&mut self) -> Event
        ensures step { (k : List Entry) → StepsTo M.most result (state_of M.levels self.old) k (state_of M.levels self.new) k }
        ensures call { call_of result ≡ Call.Arbitrate }
    {
        Event::Arbitrated {
            answer: self.arbitrate().map(Slip::into_name),
        }
    }

    // Hands in a slip that names what is given.
    fn play_inject(&mut self, slip: SlipName, ledger: &mut [Record]) -> Event
        ensures step { StepsTo M.most result (state_of M.levels self.old) ledger.old (state_of M.levels self.new) ledger.new }
        ensures call { call_of result ≡ Call.Inject slip }
    {
        let answer = self
            .inject(Slip { name: slip }, ledger)
            .map_err(without_slip);
        Event::Injected { slip, answer }
    }

    fn play_abandon(&mut self, slip: SlipName) -> Event
        ensures step { (k : List Entry) → StepsTo M.most result (state_of M.levels self.old) k (state_of M.levels self.new) k }
        ensures call { call_of result ≡ Call.Abandon slip }
    {
        let answer = self.abandon(Slip { name: slip }).map_err(without_slip);
        Event::Abandoned { slip, answer }
    }

    // Makes one call, and answers it with its answer. A match, since a list of calls is data that the promise speaks of.
    fn play_call(&mut self, call: Call, ledger: &mut [Record]) -> Event
        ensures step { StepsTo M.most result (state_of M.levels self.old) ledger.old (state_of M.levels self.new) ledger.new }
        ensures call { call_of result ≡ call }
    {
        match call {
            Call::Release { flow, cycle } => Event::Released {
                flow,
                cycle,
                answer: self.release(flow, cycle, ledger),
            },
            Call::Arbitrate => self.play_arbitrate(),
            Call::Inject { slip } => self.play_inject(slip, ledger),
            Call::Abandon { slip } => self.play_abandon(slip),
            Call::Report => Event::Reported {
                answer: self.report(ledger),
            },
            Call::Verdict { flow } => Event::Told {
                flow,
                answer: self.verdict(flow),
            },
        }
    }

    // Makes the calls in turn. There is room for an event for each.
    fn play_all(&mut self, calls: &[Call], events: &mut Vec<Event>, ledger: &mut [Record])
        requires none { events.old.items ≡ [] }
        requires room { length calls.now ≤ vec_capacity events.old }
        ensures all { map call_of events.new.items ≡ calls.now }
        ensures ran { Ran M.most (reverse events.new.items) (state_of M.levels self.old) ledger.old (state_of M.levels self.new) ledger.new }
        ensures since { (b : Table) → Since M.most b [] (state_of M.levels self.old) → Lists b [] ledger.old → Since M.most b (reverse events.new.items) (state_of M.levels self.new) × Lists b (reverse events.new.items) ledger.new }
    {
        for call in calls {
            let event = self.play_call(*call, ledger);
            events.push_reserved(event);
        }
    }

    // Loads a table and makes a whole list of calls, any calls in any order, refused ones included; a slip is handed in by what it names, so
    // that any slip can be. Answers each call with its answer. Where the load is refused nothing is changed.
    pub fn play<F: Fabric>(
        &mut self,
        heap: Global,
        file: &[u8],
        fabric: &F,
        number: u32,
        calls: &[Call],
        ledger: &mut [Record],
    ) -> Result<Vec<Event>, LoadRefusal>
        ensures answer { BuildsRun (run_refusal (state_of M.levels self.old) file.now (F.nodes fabric.now) (F.route fabric.now) M.most) (λ events. Played M.most file.now (F.route fabric.now) number calls.now events.items ledger.old (state_of M.levels self.new) ledger.new) result }
        ensures same { is_ok result ≡ false → (state_of M.levels self.new ≡ state_of M.levels self.old) × (ledger.new ≡ ledger.old) }
    {
        let mut events = Vec::with_capacity(heap, calls.len())?;
        self.load(heap, file, fabric, number)?;
        self.play_all(calls, &mut events, ledger);
        Ok(events)
    }
}
