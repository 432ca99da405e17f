// A table that was loaded.
ghost use Rattle.std.specs.Prelude.{◌≡◌, length};
ghost use Rattle.analysis.specs.Answers.{figures_at};

use crate::figures::Figures;
use crate::row::Row;
use parts::slot::Slot;

#[derive(Drop)]
pub struct Loaded {
    pub slot: Slot,
    // one for each flow, flow 1 first
    pub rows: Vec<Row>,
}

impl Loaded {
    // How many flows there are.
    pub fn flows(&self) -> usize
        ensures { result ≡ length self.now.rows.items }
    {
        self.rows.len()
    }

    // The figures of a flow, by its number; none where there is no such flow.
    pub fn figures(&self, flow: usize) -> Option<Figures>
        ensures { result ≡ figures_at self.now.rows.items flow }
    {
        if !(1..=self.flows()).contains(&flow) {
            return None;
        }
        Some(self.rows[flow - 1].figures())
    }
}
