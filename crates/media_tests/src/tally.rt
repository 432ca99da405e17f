// What the tests did, by counts.
ghost use Rattle.std.specs.Prelude.{◌≡◌};

use crate::script::Call;
use medium::fault::MediumFault;
use std::fmt;

// What is compared.
#[derive(Clone, Copy)]
pub enum Check {
    Answer,
    Level,
    Edge,
}

#[derive(Drop)]
pub struct Tally {
    clears: u64,
    opens: u64,
    pulls: u64,
    reads: u64,
    intervals: u64,
    full: u64,
    closed: u64,
    no_node: u64,
    answers: u64,
    levels: u64,
    edges: u64,
    // pulls of a node and an interval that were seen before a clear, and after it
    pulled: u64,
    left: u64,
    mismatches: u64,
}

// Counts one more where something happened.
fn count(counter: &mut u64, happened: bool) {
    *counter = counter.saturating_add(u64::from(happened));
}

impl Tally {
    pub fn new() -> Tally {
        Tally {
            clears: 0,
            opens: 0,
            pulls: 0,
            reads: 0,
            intervals: 0,
            full: 0,
            closed: 0,
            no_node: 0,
            answers: 0,
            levels: 0,
            edges: 0,
            pulled: 0,
            left: 0,
            mismatches: 0,
        }
    }

    // Counts a call of a script.
    pub fn called(&mut self, call: &Call) {
        let counter = match call {
            Call::Clear => &mut self.clears,
            Call::Open => &mut self.opens,
            Call::Pull(_) => &mut self.pulls,
            Call::Read(_) => &mut self.reads,
            Call::Interval(_) => &mut self.intervals,
        };
        count(counter, true);
    }

    // Counts a refusal.
    pub fn refused(&mut self, fault: MediumFault) {
        let counter = match fault {
            MediumFault::Full => &mut self.full,
            MediumFault::Closed => &mut self.closed,
            MediumFault::NoNode => &mut self.no_node,
        };
        count(counter, true);
    }

    // Counts a comparison.
    pub fn compared(&mut self, check: Check, holds: bool) {
        let counter = match check {
            Check::Answer => &mut self.answers,
            Check::Level => &mut self.levels,
            Check::Edge => &mut self.edges,
        };
        count(counter, true);
        self.expect(holds);
    }

    // Counts a pull that was to be seen before a clear.
    pub fn before_clear(&mut self, seen: bool) {
        count(&mut self.pulled, seen);
        self.expect(seen);
    }

    // Counts a pull that was not to be seen after a clear.
    pub fn after_clear(&mut self, seen: bool) {
        count(&mut self.left, seen);
        self.expect(!seen);
    }

    // Counts a mismatch where something does not hold.
    fn expect(&mut self, holds: bool) {
        count(&mut self.mismatches, !holds);
    }

    pub fn mismatches(&self) -> u64
        ensures { result ≡ self.now.mismatches }
    {
        self.mismatches
    }
}

impl fmt::Display for Tally {
    fn fmt<W: fmt::Write>(&self, f: &mut fmt::Formatter<W>) -> fmt::Result {
        write!(
            f,
            "  calls: clear {}, open {}, pull {}, read {}, interval {}\n",
            self.clears, self.opens, self.pulls, self.reads, self.intervals
        )?;
        write!(
            f,
            "  refused: {} {}, {} {}, {} {}\n",
            MediumFault::Full.number(),
            self.full,
            MediumFault::Closed.number(),
            self.closed,
            MediumFault::NoNode.number(),
            self.no_node
        )?;
        write!(
            f,
            "  compared: answers {}, levels {}, edges {}\n",
            self.answers, self.levels, self.edges
        )?;
        write!(
            f,
            "  pulls seen before a clear {}, after it {}\n",
            self.pulled, self.left
        )?;
        write!(f, "  mismatches {}", self.mismatches)
    }
}
