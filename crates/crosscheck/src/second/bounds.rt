// The bound of each flow, by trying every number up to its deadline, and its rounds, by counting.
use crate::second::cutting::Cut;
use crate::second::records::{Flow, Slot};
use std::alloc::{AllocError, Global};
use std::iter::successors;

// A flow with a route that can carry it.
#[derive(Drop)]
pub struct Carried {
    pub flow: Flow,
    pub links: Vec<u64>,
    pub cut: Cut,
}

impl Carried {
    // Whether a link stands in both routes.
    fn shares(&self, other: &Carried) -> bool {
        self.links.iter().any(|link| other.links.contains(link))
    }
}

// A flow with what came out for it: its bound and its rounds.
#[derive(Drop)]
pub struct Settled {
    pub carried: Carried,
    // the places, from 0, of the flows above it that share a link with it
    above: Vec<usize>,
    pub bound: Option<u64>,
    pub rounds: u64,
}

impl Settled {
    // Whether some flow above it is none of these.
    fn hides(&self, above: &[usize]) -> bool {
        self.above.iter().any(|place| !above.contains(place))
    }
}

// What a flow above takes: so many cycles for each separation in the time with the jitter added.
#[derive(Clone, Copy)]
struct Load {
    jitter: u64,
    separation: u64,
    cycles: u64,
}

// A number is a bound if the loads within it and the base add up to it.
#[derive(Drop)]
struct Equation {
    base: u64,
    loads: Vec<Load>,
    deadline: u64,
}

impl Load {
    // The cycles that it takes within a window of x.
    fn within(&self, x: u64) -> u64 {
        if self.separation == 0 {
            return 0;
        }
        let times = x.saturating_add(self.jitter).div_ceil(self.separation);
        times.saturating_mul(self.cycles)
    }
}

impl Equation {
    // The base, and what all loads take within a window of x.
    fn right_side(&self, x: u64) -> u64 {
        let loads = self.loads.iter();
        loads.fold(self.base, |sum, load| sum.saturating_add(load.within(x)))
    }

    // The first number from 0 to the deadline that the right side gives back.
    fn first_solution(&self) -> Option<u64> {
        (0..=self.deadline).find(|x| self.right_side(*x) == *x)
    }

    // How often the right side is worked out, from the base on, until it gives its argument back or passes the
    // deadline.
    fn count_rounds(&self) -> u64 {
        let within = |x: &u64| *x <= self.deadline;
        let tried = successors(Some(self.base).filter(within), |x| {
            Some(self.right_side(*x)).filter(|next| next != x && within(next))
        });
        tried.take(self.deadline as usize).count() as u64
    }
}

// The flows of a table that are settled so far.
#[derive(Drop)]
struct Ranking {
    heap: Global,
    slot: Slot,
    settled: Vec<Settled>,
}

impl Ranking {
    // The places, from 0, of the flows that share a link with the next one.
    fn above(&self, next: &Carried) -> Result<Vec<usize>, AllocError> {
        self.settled
            .iter()
            .enumerate()
            .filter(|(_, higher)| higher.carried.shares(next))
            .map(|(place, _)| place)
            .collect(self.heap)
    }

    // The load of a flow above; none where that flow has no bound.
    fn load_of(&self, place: usize, above: &[usize]) -> Option<Load> {
        let higher = self.settled.get(place)?;
        let cut = higher.carried.cut;
        let late = higher.bound?.saturating_add(self.slot.board.pause);
        let jitter = late
            .saturating_sub(cut.alone)
            .saturating_sub(self.slot.whole);
        Some(Load {
            jitter: if higher.hides(above) { jitter } else { 0 },
            separation: higher.carried.flow.pace.separation,
            cycles: cut.parts.saturating_mul(self.slot.whole),
        })
    }

    // The wait for the own interval and the slot after it, and the flow alone.
    fn base_of(&self, cut: &Cut) -> u64 {
        let slot = &self.slot;
        let interval_end = (self.settled.len() as u64)
            .saturating_add(1)
            .saturating_mul(slot.board.interval);
        let own = slot
            .open
            .saturating_sub(interval_end)
            .saturating_add(slot.board.pause);
        own.saturating_add(slot.whole).saturating_add(cut.alone)
    }

    // The equation of the next flow; none where a flow above it has no bound.
    fn equation(&self, next: &Carried, above: &[usize]) -> Result<Option<Equation>, AllocError> {
        let loads: Vec<Load> = above
            .iter()
            .filter_map(|place| self.load_of(*place, above))
            .collect(self.heap)?;
        let all = loads.len() == above.len();
        Ok(all.then_some(Equation {
            base: self.base_of(&next.cut),
            loads,
            deadline: next.flow.pace.deadline,
        }))
    }

    // Bound and rounds of the next flow.
    fn settle(&mut self, next: Carried) -> Result<(), AllocError> {
        let above = self.above(&next)?;
        let (bound, rounds) = match self.equation(&next, above.as_slice())? {
            Some(equation) => (equation.first_solution(), equation.count_rounds()),
            None => (None, 0),
        };
        self.settled.push(Settled {
            carried: next,
            above,
            bound,
            rounds,
        })?;
        Ok(())
    }
}

// What comes out for each flow.
pub fn settle_all(
    heap: Global,
    slot: Slot,
    flows: Vec<Carried>,
) -> Result<Vec<Settled>, AllocError> {
    let mut ranking = Ranking {
        heap,
        slot,
        settled: Vec::new(heap),
    };
    for next in flows {
        ranking.settle(next)?;
    }
    Ok(ranking.settled)
}
