// What the library answers, in the words of the second calculation.
use crate::answer::{Answer, NoRoute, Refusal, Row};
use crate::case::Case;
use crate::numbered::{Cause, Reason, UnknownNumber};
use crate::second::link::Link;
use crate::second::network::Trip;
use analysis::figures::Figures;
use analysis::load::load;
use analysis::loaded::Loaded;
use anyhow::anyhow;
use fabric::fabric::Fabric;
use fabric::fault::RouteFault;
use fabric::route::Ends;
use fabric::trip;
use std::alloc::Global;
use table::fault::LoadFault;

impl TryFrom<RouteFault> for NoRoute {
    type Error = UnknownNumber;

    fn try_from(fault: RouteFault) -> Result<NoRoute, UnknownNumber> {
        Ok(NoRoute {
            hop: fault.hop as u64,
            cause: Cause::try_from(fault.cause.number())?,
        })
    }
}

// Want of memory stops the comparison.
impl TryFrom<LoadFault> for Refusal {
    type Error = anyhow::Error;

    fn try_from(fault: LoadFault) -> anyhow::Result<Refusal> {
        let Some(number) = fault.number() else {
            return Err(anyhow!("there was no memory"));
        };
        let route = match fault {
            LoadFault::Route { fault, .. } => Some(NoRoute::try_from(fault)?),
            _ => None,
        };
        Ok(Refusal {
            reason: Reason::try_from(number)?,
            flow: fault.flow() as u64,
            byte: fault.byte() as u64,
            route,
        })
    }
}

impl From<Figures> for Row {
    fn from(figures: Figures) -> Row {
        Row {
            hops: figures.hops as u64,
            parts: u64::from(figures.parts),
            alone: figures.alone,
            bound: figures.bound.map(u64::from),
            rounds: figures.rounds,
        }
    }
}

impl From<Ends> for Link {
    fn from(ends: Ends) -> Link {
        Link {
            start: ends.start as u64,
            stop: ends.stop as u64,
        }
    }
}

impl From<Trip> for trip::Trip {
    fn from(trip: Trip) -> trip::Trip {
        trip::Trip {
            flow: trip.flow as usize,
            source: trip.source as usize,
            destination: trip.destination as usize,
        }
    }
}

// The figures of every flow, and of no other.
fn rows(heap: Global, loaded: &Loaded) -> anyhow::Result<Vec<Row>> {
    let past = loaded.flows().saturating_add(1);
    if loaded.figures(0).is_some() || loaded.figures(past).is_some() {
        return Err(anyhow!("a flow that the table does not have has figures"));
    }
    (1..past)
        .map(|flow| {
            let figures = loaded.figures(flow);
            let row = figures.map(Row::from);
            row.ok_or_else(|| anyhow!("a flow of the table has no figures"))
        })
        .try_collect(heap)
}

// What load answers to a case, with the fabric that was made for it.
pub fn answer_of<F: Fabric>(heap: Global, case: &Case, fabric: &F) -> anyhow::Result<Answer> {
    match load(heap, case.file.bytes, fabric, case.limit as usize) {
        Ok(loaded) => Ok(Ok(rows(heap, &loaded)?)),
        Err(fault) => Ok(Err(Refusal::try_from(fault)?)),
    }
}
