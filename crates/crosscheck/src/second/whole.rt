// The whole answer to a case, with the checks in their order.
use crate::answer::{Answer, Refusal, Row};
use crate::case::Case;
use crate::numbered::Reason;
use crate::second::bounds::{Carried, Settled, settle_all};
use crate::second::checks::{check_fabric, check_file, check_records};
use crate::second::network::Network;
use crate::second::records::{Record, Slot};
use std::alloc::{AllocError, Global};

// What stops the calculation.
#[derive(Clone, Copy)]
enum Stop {
    NoMemory(AllocError),
    Refused(Refusal),
}

impl From<AllocError> for Stop {
    fn from(fault: AllocError) -> Stop {
        Stop::NoMemory(fault)
    }
}

impl From<Refusal> for Stop {
    fn from(refusal: Refusal) -> Stop {
        Stop::Refused(refusal)
    }
}

impl From<&Settled> for Row {
    fn from(settled: &Settled) -> Row {
        let Carried { links, cut, .. } = &settled.carried;
        Row {
            hops: links.len() as u64,
            parts: cut.parts,
            alone: cut.alone,
            bound: settled.bound,
            rounds: settled.rounds,
        }
    }
}

// A flow with its route, and cut up.
fn carry(heap: Global, network: Network, slot: &Slot, record: Record) -> Result<Carried, Stop> {
    let flow = record.flow;
    let links = network
        .route(heap, record.trip())?
        .map_err(|fault| Refusal {
            route: Some(fault),
            ..record.refused(Reason::Route)
        })?;
    let cut = slot
        .cut_up(links.len() as u64, flow.payload)
        .ok_or(record.refused(Reason::Capacity))?;
    Ok(Carried { flow, links, cut })
}

// The figures of all flows, after all checks.
fn rows(heap: Global, case: &Case) -> Result<Vec<Row>, Stop> {
    check_fabric(case.network.file)?;
    let slot = check_file(case)?;
    check_records(case.file, slot.whole)?;
    let flows: Vec<Carried> = (1..=case.file.flows())
        .map(|flow| carry(heap, case.network, &slot, case.file.record(flow)))
        .try_collect(heap)?;
    let settled = settle_all(heap, slot, flows)?;
    Ok(settled.iter().map(Row::from).collect(heap)?)
}

// The answer to a case.
pub fn answer(heap: Global, case: &Case) -> Result<Answer, AllocError> {
    match rows(heap, case) {
        Ok(rows) => Ok(Ok(rows)),
        Err(Stop::Refused(refusal)) => Ok(Err(refusal)),
        Err(Stop::NoMemory(fault)) => Err(fault),
    }
}
