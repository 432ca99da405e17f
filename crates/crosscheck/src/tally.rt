// What was seen.
use crate::answer::{Answer, NoRoute, Row};
use crate::case::Case;
use crate::numbered::{Cause, Reason};
use crate::second::network::Kind;
use crate::second::records::BOARDS;
use std::alloc::{AllocError, Global};
use std::collections::BTreeMap;
use std::fmt;

// How often each of some cases was seen.
#[derive(Drop)]
struct Seen<K: Ord> {
    times: BTreeMap<K, u64>,
}

impl<K: Ord + Copy> Seen<K> {
    // None was seen yet.
    fn new(heap: Global) -> Seen<K> {
        Seen {
            times: BTreeMap::new(heap),
        }
    }

    // A case was seen once more.
    fn note(&mut self, case: K) -> Result<(), AllocError> {
        let times = self.times.entry(case)?.or_insert(0);
        *times = times.saturating_add(1);
        Ok(())
    }

    // How often a case was seen.
    fn times(&self, case: K) -> u64 {
        self.times.get(&case).copied().unwrap_or(0)
    }

    // Whether each of these was seen.
    fn has_all(&self, cases: &[K]) -> bool {
        cases.iter().all(|case| self.times.contains_key(case))
    }
}

#[derive(Drop)]
pub struct Tally {
    tables: u64,
    loaded: Seen<Kind>,
    bounded: u64,
    unbounded: u64,
    // the most of a loaded table or of one flow
    flows: u64,
    hops: u64,
    parts: u64,
    rounds: u64,
    profiles: Seen<u64>,
    refusals: Seen<Reason>,
    // a cause is told at load or by a fabric that is asked for a route
    causes: Seen<Cause>,
    asked: Seen<Cause>,
    // routes that a fabric told
    routes: u64,
}

impl Tally {
    pub fn new(heap: Global) -> Tally {
        Tally {
            tables: 0,
            loaded: Seen::new(heap),
            bounded: 0,
            unbounded: 0,
            flows: 0,
            hops: 0,
            parts: 0,
            rounds: 0,
            profiles: Seen::new(heap),
            refusals: Seen::new(heap),
            causes: Seen::new(heap),
            asked: Seen::new(heap),
            routes: 0,
        }
    }

    pub fn tables(&self) -> u64 {
        self.tables
    }

    pub fn note_route(&mut self) {
        self.routes = self.routes.saturating_add(1);
    }

    pub fn note_asked(&mut self, fault: NoRoute) -> Result<(), AllocError> {
        self.asked.note(fault.cause)
    }

    fn note_row(&mut self, row: &Row) {
        match row.bound {
            Some(_) => self.bounded = self.bounded.saturating_add(1),
            None => self.unbounded = self.unbounded.saturating_add(1),
        }
        self.hops = self.hops.max(row.hops);
        self.parts = self.parts.max(row.parts);
        self.rounds = self.rounds.max(row.rounds);
    }

    fn note_loaded(&mut self, case: &Case, rows: &[Row]) -> Result<(), AllocError> {
        self.loaded.note(case.network.kind)?;
        self.profiles.note(case.file.profile())?;
        self.flows = self.flows.max(rows.len() as u64);
        for row in rows {
            self.note_row(row);
        }
        Ok(())
    }

    // Counts a case with its answer.
    pub fn note(&mut self, case: &Case, answer: &Answer) -> Result<(), AllocError> {
        self.tables = self.tables.saturating_add(1);
        match answer {
            Ok(rows) => self.note_loaded(case, rows.as_slice()),
            Err(refusal) => {
                self.refusals.note(refusal.reason)?;
                match refusal.route {
                    Some(fault) => self.causes.note(fault.cause),
                    None => Ok(()),
                }
            }
        }
    }

    // Whether every refusal was seen, every cause when asked, and at load all but the last, which load never meets.
    pub fn complete(&self) -> bool {
        self.refusals.has_all(&Reason::ALL)
            && self.asked.has_all(&Cause::ALL)
            && self.causes.has_all(&Cause::ALL[..7])
    }
}

impl fmt::Display for Tally {
    fn fmt<W: fmt::Write>(&self, f: &mut fmt::Formatter<W>) -> fmt::Result {
        let tables = self.tables;
        let on_mesh = self.loaded.times(Kind::Mesh);
        let on_listed = self.loaded.times(Kind::Listed);
        writeln!(
            f,
            "tables {tables}: {on_mesh} loaded on a mesh, {on_listed} on listed links"
        )?;
        let Tally {
            bounded,
            unbounded,
            flows,
            hops,
            parts,
            rounds,
            ..
        } = self;
        writeln!(f, "flows {bounded} bounded, {unbounded} unbounded")?;
        writeln!(
            f,
            "at most {flows} flows, {hops} hops, {parts} parts, {rounds} rounds"
        )?;
        self.write_cases(f)
    }
}

impl Tally {
    // How often each profile, refusal and cause was seen, and how many routes were asked for.
    fn write_cases<W: fmt::Write>(&self, f: &mut fmt::Formatter<W>) -> fmt::Result {
        for board in BOARDS {
            let profile = board.profile;
            let loaded = self.profiles.times(profile);
            writeln!(f, "profile {profile}: {loaded}")?;
        }
        for reason in Reason::ALL {
            let told = self.refusals.times(reason);
            writeln!(f, "refusal {reason}: {told}")?;
        }
        let routes = self.routes;
        writeln!(f, "routes {routes} asked")?;
        for cause in Cause::ALL {
            let at_load = self.causes.times(cause);
            let asked = self.asked.times(cause);
            writeln!(f, "cause {cause}: {at_load} at load, {asked} asked")?;
        }
        Ok(())
    }
}
