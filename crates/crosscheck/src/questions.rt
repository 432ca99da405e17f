// The questions that a fabric answers, compared with the second calculation.
use crate::answer::NoRoute;
use crate::bench::Bench;
use crate::dice::Dice;
use crate::second::link::Link;
use crate::second::network::{Network, Route, Trip};
use anyhow::anyhow;
use fabric::fabric::Fabric;
use std::alloc::{AllocError, Global};
use std::iter::once;

// What is told of a route: its length or why there is none, and its links one by one up to past its end.
#[derive(PartialEq, Debug, Drop)]
struct Told {
    length: Result<u64, NoRoute>,
    links: Vec<Option<u64>>,
}

// So many links are asked for past the end of a route, the last of them far away.
const PAST: usize = 4;

fn told_by_second(heap: Global, route: &Route) -> Result<Told, AllocError> {
    let links = match route {
        Ok(links) => links.as_slice(),
        Err(_) => &[],
    };
    let told = links.iter().copied().map(Some).chain([None; PAST]);
    Ok(Told {
        length: route
            .as_ref()
            .map(|links| links.len() as u64)
            .map_err(|fault| *fault),
        links: told.collect(heap)?,
    })
}

// A trip of any flow between any nodes, some of which no fabric has.
fn draw_trip(dice: &mut Dice, network: Network) -> Trip {
    let nodes = network.file.nodes();
    let flow = dice.below(network.file.flows().saturating_add(2));
    let source = dice.below(nodes.saturating_add(1));
    let destination = dice.below(nodes);
    Trip {
        flow: dice.pick(&[flow, flow, flow, u64::MAX]),
        source: dice.pick(&[source, source, source, source, 65535, u64::MAX]),
        destination: dice.pick(&[
            destination,
            destination,
            destination,
            destination,
            nodes,
            u64::MAX,
        ]),
    }
}

// A link number, at times one that no fabric has.
fn draw_link(dice: &mut Dice, network: Network) -> u64 {
    let links = network.file.nodes().saturating_mul(6);
    let any = dice.below(links.saturating_add(2));
    dice.pick(&[any, any, any, 2047, 2048, u64::MAX])
}

// One fabric, by both calculations.
#[derive(Drop)]
pub struct Sides<'a, 'b, F> {
    pub ours: Network<'a>,
    pub theirs: &'b F,
}

impl<F: Fabric> Sides<'_, '_, F> {
    fn told_link(&self, trip: Trip, k: usize) -> Option<u64> {
        let link = self.theirs.route_link(trip.into(), k)?;
        Some(link as u64)
    }

    // What the library tells, asked for as many links as the second calculation told.
    fn told_by_library(&self, heap: Global, trip: Trip, asked: usize) -> anyhow::Result<Told> {
        let length = match self.theirs.route_len(trip.into()) {
            Ok(length) => Ok(length as u64),
            Err(fault) => Err(NoRoute::try_from(fault)?),
        };
        let links = (0..asked.saturating_sub(1))
            .chain(once(usize::MAX))
            .map(|k| self.told_link(trip, k))
            .collect(heap)?;
        Ok(Told { length, links })
    }

    fn ask_ends(&self, bench: &Bench, link: u64) -> anyhow::Result<()> {
        let theirs = self.theirs.link_ends(link as usize).map(Link::from);
        let ours = self.ours.ends(link);
        if theirs == ours {
            return Ok(());
        }
        let number = bench.tally.tables();
        println!(bench.rt;
            "table {number}, link {link}: the library says {theirs:?}, the second calculation {ours:?}"
        )?;
        Err(anyhow!("a fabric tells other ends of a link"))
    }

    // Asks for a route, which the second calculation told already.
    fn ask_route(&self, bench: &Bench, trip: Trip, route: &Route) -> anyhow::Result<()> {
        let heap = bench.rt.alloc();
        let ours = told_by_second(heap, route)?;
        let theirs = self.told_by_library(heap, trip, ours.links.len())?;
        if theirs == ours {
            return Ok(());
        }
        let number = bench.tally.tables();
        let Trip {
            flow,
            source,
            destination,
        } = trip;
        println!(bench.rt; "table {number}, flow {flow} from {source} to {destination}")?;
        println!(bench.rt; "the library says {theirs:?}")?;
        println!(bench.rt; "and the second calculation {ours:?}")?;
        Err(anyhow!("a fabric tells another route"))
    }

    // Asks for a route and for the ends of its links.
    fn ask(&self, bench: &mut Bench, trip: Trip) -> anyhow::Result<()> {
        let route = self.ours.route(bench.rt.alloc(), trip)?;
        self.ask_route(bench, trip, &route)?;
        match route {
            Err(fault) => bench.tally.note_asked(fault)?,
            Ok(links) => {
                bench.tally.note_route();
                for link in links.iter() {
                    self.ask_ends(bench, *link)?;
                }
            }
        }
        Ok(())
    }

    // Asks about every flow's own trip, a few others, and some links.
    pub fn ask_all(&self, bench: &mut Bench) -> anyhow::Result<()> {
        let file = self.ours.file;
        if self.theirs.node_count() as u64 != file.nodes() {
            return Err(anyhow!("a fabric tells another number of nodes"));
        }
        for flow in 1..=file.flows() {
            self.ask(bench, file.record(flow).trip())?;
        }
        for _question in 0..4 {
            let trip = draw_trip(&mut bench.dice, self.ours);
            self.ask(bench, trip)?;
            let link = draw_link(&mut bench.dice, self.ours);
            self.ask_ends(bench, link)?;
        }
        Ok(())
    }
}
