// The edges of a medium: its limit, the nodes that there are, and what a clear forgets.
use super::Bench;
use crate::tally::Check;
use medium::fault::MediumFault;
use medium::level::Level;
use medium::medium::Medium;

impl<M: Medium + Drop> Bench<M> {
    // An open is answered so.
    fn open_is(&mut self, wanted: Result<(), MediumFault>) {
        let told = self.medium.open();
        self.tally.compared(Check::Edge, told == wanted);
    }

    // A pull is answered so.
    fn pull_is(&mut self, node: usize, wanted: Result<(), MediumFault>) {
        let told = self.medium.pull(node);
        self.tally.compared(Check::Edge, told == wanted);
    }

    // A read is answered so.
    fn read_is(&mut self, k: usize, wanted: Option<Level>) {
        let told = self.medium.read(k);
        self.tally.compared(Check::Edge, told == wanted);
    }

    // A cleared medium with n intervals.
    fn refill(&mut self, n: usize) {
        self.medium.clear();
        for _ in 0..n {
            self.open_is(Ok(()));
        }
    }

    // 127, 128 and 129 intervals.
    fn at_the_limit(&mut self) {
        self.refill(127);
        self.read_is(126, Some(Level::Recessive));
        self.read_is(127, None);
        self.open_is(Ok(()));
        self.read_is(127, Some(Level::Recessive));
        self.open_is(Err(MediumFault::Full));
        self.read_is(127, Some(Level::Recessive));
        self.read_is(128, None);
    }

    // Nodes 0, 255, 256 and the largest number, with 128 intervals.
    fn at_the_nodes(&mut self) {
        self.refill(128);
        self.pull_is(256, Err(MediumFault::NoNode));
        self.pull_is(usize::MAX, Err(MediumFault::NoNode));
        self.read_is(127, Some(Level::Recessive));
        for node in [0, 255] {
            self.pull_is(node, Ok(()));
            self.read_is(127, Some(Level::Dominant));
            self.read_is(126, Some(Level::Recessive));
        }
    }

    // The same nodes without an interval, which is refused first.
    fn without_intervals(&mut self) {
        self.medium.clear();
        for node in [0, 255, 256, usize::MAX] {
            self.pull_is(node, Err(MediumFault::Closed));
        }
        self.read_is(0, None);
        self.read_is(usize::MAX, None);
    }

    // Whether interval k reads dominant.
    fn is_pulled(&self, k: usize) -> bool {
        self.medium.read(k) == Some(Level::Dominant)
    }

    // A node pulls every interval, and after a clear none of it is left.
    fn forgets(&mut self, node: usize) {
        self.medium.clear();
        for k in 0..128 {
            self.open_is(Ok(()));
            self.pull_is(node, Ok(()));
            let seen = self.is_pulled(k);
            self.tally.before_clear(seen);
        }
        self.refill(128);
        for k in 0..128 {
            let seen = self.is_pulled(k);
            self.tally.after_clear(seen);
        }
    }

    // Every edge, and every node in turn.
    pub fn try_edges(&mut self) {
        self.at_the_limit();
        self.at_the_nodes();
        self.without_intervals();
        for node in 0..256 {
            self.forgets(node);
        }
    }
}
