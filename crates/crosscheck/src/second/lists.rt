// The links and the routes that a file lists.
use crate::answer::NoRoute;
use crate::numbered::Cause;
use crate::second::file::File;
use crate::second::link::{Link, core};
use crate::second::network::{Route, Trip};
use crate::second::sections::Section;
use std::alloc::{AllocError, Global};

#[derive(Clone, Copy)]
pub struct Lists<'a> {
    pub file: File<'a>,
}

impl Lists<'_> {
    // The ends of a link, as its record has them.
    pub fn ends(self, link: u64) -> Option<Link> {
        if link >= self.file.links() {
            return None;
        }
        let at = Section::Links.place(self.file, link);
        Some(Link {
            start: self.file.number(at, 2),
            stop: self.file.number(at.saturating_add(2), 2),
        })
    }

    // What is wrong with a link after those before it, each of which was found right.
    fn wrong(self, trip: Trip, before: &[u64], link: u64) -> Option<Cause> {
        let Some(ends) = self.ends(link) else {
            return Some(Cause::UnknownLink);
        };
        let (at, cause) = match before.last().and_then(|last| self.ends(*last)) {
            Some(last) => (last.stop, Cause::Gap),
            None => (core(trip.source), Cause::Start),
        };
        if ends.start != at {
            return Some(cause);
        }
        before.contains(&link).then_some(Cause::Repeated)
    }

    // Whether links lead from the source's core to the destination's.
    fn check(self, trip: Trip, links: &[u64]) -> Result<(), NoRoute> {
        let wrong = links.iter().enumerate().find_map(|(k, link)| {
            let cause = self.wrong(trip, &links[..k], *link)?;
            let hop = (k as u64).saturating_add(1);
            Some(NoRoute { hop, cause })
        });
        let end = links.last().and_then(|last| self.ends(*last));
        match (wrong, end) {
            (Some(fault), _) => Err(fault),
            (None, Some(end)) if end.stop == core(trip.destination) => Ok(()),
            _ => Err(NoRoute {
                hop: links.len() as u64,
                cause: Cause::End,
            }),
        }
    }

    // Which numbers of the number list belong to the route of a flow: the first, and how many.
    fn entry(self, flow: u64) -> Result<(u64, u64), Cause> {
        let file = self.file;
        if file.is_mesh() || !(1..=file.flows()).contains(&flow) {
            return Err(Cause::Length);
        }
        let entry = Section::Entries.place(file, flow.saturating_sub(1));
        let length = file.number(entry, 2);
        let first = file.number(entry.saturating_add(2), 2);
        if !(2..=64).contains(&length) {
            Err(Cause::Length)
        } else if first.saturating_add(length) > file.numbers() {
            Err(Cause::List)
        } else {
            Ok((first, length))
        }
    }

    // The numbers that a flow's entry points at, if they make a route.
    pub fn route(self, heap: Global, trip: Trip) -> Result<Route, AllocError> {
        let (first, length) = match self.entry(trip.flow) {
            Ok(entry) => entry,
            Err(cause) => return Ok(Err(NoRoute { hop: 0, cause })),
        };
        let links: Vec<u64> = (0..length)
            .map(|k| Section::List.place(self.file, first.saturating_add(k)))
            .map(|at| self.file.number(at, 2))
            .collect(heap)?;
        Ok(self.check(trip, links.as_slice()).map(|()| links))
    }
}
