// What report and verdict tell.
use analysis::figures::Figures;

// How many packets the ledger's records tell of.
#[derive(Clone, Copy)]
pub struct Report {
    pub accepted: usize,
    pub arrived: usize,
    // those that are open
    pub pending: usize,
    // the place, from 0, of the arrived record that came closest to its bound, if there is one
    pub tightest: Option<usize>,
}

// The figures of a flow, and which bounded flow's bound comes closest to its deadline, if one is bounded.
#[derive(Clone, Copy)]
pub struct Verdict {
    pub figures: Figures,
    pub tightest: Option<usize>,
}
