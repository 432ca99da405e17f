// What is known of a flow once its table is loaded.
ghost use Rattle.std.specs.Prelude.{◌≡◌};
ghost use Rattle.analysis.specs.Answers.{figures_of};

use crate::above::Above;
use crate::figures::Figures;
use fabric::path::Path;
use table::records::FlowRecord;

#[derive(Clone, Copy)]
pub struct Row {
    pub record: FlowRecord,
    // the route that its packets take
    pub path: Path,
    // the parts of a packet, the travel of the last one after its slot, and the whole with nobody else about
    pub parts: u32,
    pub tail: u64,
    pub alone: u64,
    // the flows above that share a link with it
    pub above: Above,
    // the least solution of its equation within its deadline, if it has one, and the evaluations that it took
    pub bound: Option<u32>,
    pub rounds: u64,
}

impl Row {
    // Its figures, as they are printed.
    pub fn figures(&self) -> Figures
        ensures { result ≡ figures_of self.now }
    {
        Figures {
            hops: self.path.len(),
            parts: self.parts,
            alone: self.alone,
            bound: self.bound,
            rounds: self.rounds,
        }
    }
}
