// The bound of a flow, from the rows of the flows above it.
ghost use Rattle.std.specs.Prelude.{◌≡◌, ◌^◌, ◌<◌, ◌≤◌, is_some, IfOk, nat_lt};
ghost use Rattle.timing.specs.Model.{Table, within, jitter, alone as aloneOf};
ghost use Rattle.timing.specs.Figures.{settled, bound_of};
ghost use Rattle.analysis.specs.Standing.{TermFor, Takes, Figured};
ghost use Rattle.analysis.specs.Rivals.{next, Met, Rival};

use crate::above::Above;
use crate::row::Row;
use crate::turn::Turn;
use staircase::demand::Demand;
use staircase::search::{Climb, least_solution};
use staircase::term::Term;
use std::alloc::{AllocError, Global};

// The flows above the one whose turn it is, as that one meets them: it marks those that share a link with it.
#[derive(Clone, Copy)]
pub(crate) struct Rivals<'a> {
    pub(crate) turn: Turn<'a>,
    pub(crate) marks: &'a Above,
}

impl Rivals<'_> {
    // Whether every flow that delays a rival, by its row and number, delays this one too. A loop hands out the two together, so that a struct for
    // them would be no plainer.
    fn delays_within(&self, row: &Row, number: usize) -> bool
        ensures { (b : Table) → Rival b self.now row.now number → result ≡ within b number (next self.now) }
    {
        (1..number).all(|g| !row.above.has(g) || self.marks.has(g))
    }

    // Whether all rivals that share a link have a bound.
    fn all_bounded(&self) -> bool
        ensures { (b : Table) → Met b self.now → result ≡ settled b (bound_of b) (next self.now) }
    {
        let mut rows = self.turn.rows.iter().enumerate();
        rows.all(|(k, row)| !self.marks.has(k + 1) || row.bound.is_some())
    }

    // How far a packet of a rival, by its row and number, can be pushed back by flows that do not delay this one.
    fn jitter_of(&self, row: &Row, number: usize) -> u32
        ensures { (b : Table) → Rival b self.now row.now number → result ≡ jitter b (bound_of b) number (next self.now) }
    {
        if self.delays_within(row, number) {
            return 0;
        }
        let slot = &self.turn.setting.slot;
        let bound = u64::from(row.bound.unwrap_or(0));
        let pushed = bound
            .saturating_sub(row.alone)
            .saturating_sub(u64::from(slot.length));
        (pushed + u64::from(slot.pause)) as u32
    }

    // What a rival takes from this one.
    fn term_of(&self, row: &Row, number: usize) -> Option<Term>
        ensures some { is_some result ≡ nat_lt 0 row.now.record.separation }
        ensures takes { (b : Table) → Rival b self.now row.now number → TermFor b number (next self.now) result }
    {
        let jitter = self.jitter_of(row, number);
        let cost = u64::from(row.parts) * u64::from(self.turn.setting.slot.length);
        Term::new(jitter, row.record.separation, cost)
    }

    // The demand of this flow: its own need, and what the rivals that share a link take.
    // A term may find no memory, which `?` in a loop says more plainly than a chain.
    fn demand(&self, heap: Global, ground: u32) -> Result<Demand, AllocError>
        ensures { IfOk result (λ d. (d.ground ≡ ground) × ((b : Table) → Met b self.now → Takes b (next self.now) d.terms.items)) }
    {
        let mut demand = Demand::new(heap, ground);
        for (k, row) in self.turn.rows.iter().enumerate() {
            if self.marks.has(k + 1) {
                let Some(term) = self.term_of(row, k + 1) else {
                    unreachable()
                };
                demand.push(term)?;
            }
        }
        Ok(demand)
    }

    // The bound of this flow, and the evaluations that the search for it took.
    pub(crate) fn bound(&self, heap: Global, alone: u64, deadline: u32) -> Result<Climb, AllocError>
        requires { alone < 2 ^ 63 }
        ensures { IfOk result (λ climb. (b : Table) → Met b self.now → next self.now ≤ b.z → alone ≡ aloneOf b (next self.now) → deadline ≡ b.D (next self.now) → Figured b (next self.now) climb) }
    {
        let none = Climb {
            least: None,
            rounds: 0,
        };
        let slot = &self.turn.setting.slot;
        let length = u64::from(slot.length);
        let number = self.turn.number() as u64;
        let wait = length.saturating_sub(number * u64::from(slot.interval));
        let ground = wait + length + alone;
        if !self.all_bounded() || ground > u64::from(deadline) {
            return Ok(none);
        }
        let demand = self.demand(heap, ground as u32)?;
        Ok(least_solution(&demand, deadline))
    }
}
