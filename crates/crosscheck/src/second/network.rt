// The routes of both fabrics and the ends of their links.
use crate::answer::NoRoute;
use crate::numbered::Cause;
use crate::second::file::File;
use crate::second::grid::Grid;
use crate::second::link::Link;
use crate::second::lists::Lists;
use std::alloc::{AllocError, Global};

// Which fabric is made from a file.
#[derive(Clone, Copy, PartialEq, Eq, PartialOrd, Ord)]
pub enum Kind {
    Mesh,
    Listed,
}

// A flow number, a source and a destination, as a fabric is asked for a route.
#[derive(Clone, Copy)]
pub struct Trip {
    pub flow: u64,
    pub source: u64,
    pub destination: u64,
}

// The numbers of its links.
pub type Route = Result<Vec<u64>, NoRoute>;

// The fabric that is made from a file, of the kind that the file means or of the other.
#[derive(Clone, Copy)]
pub struct Network<'a> {
    pub kind: Kind,
    pub file: File<'a>,
}

impl<'a> Network<'a> {
    // The fabric that a file means.
    pub fn of(file: File<'a>) -> Network<'a> {
        let kind = if file.is_mesh() {
            Kind::Mesh
        } else {
            Kind::Listed
        };
        Network { kind, file }
    }

    // The route of a flow.
    pub fn route(self, heap: Global, trip: Trip) -> Result<Route, AllocError> {
        let nodes = self.file.nodes();
        if trip.source >= nodes || trip.destination >= nodes {
            return Ok(Err(NoRoute {
                hop: 0,
                cause: Cause::UnknownNode,
            }));
        }
        match self.kind {
            Kind::Mesh => Grid::of(self.file).route(heap, trip),
            Kind::Listed => Lists { file: self.file }.route(heap, trip),
        }
    }

    // The ends of a link.
    pub fn ends(self, link: u64) -> Option<Link> {
        match self.kind {
            Kind::Mesh => Grid::of(self.file).ends(link),
            Kind::Listed => Lists { file: self.file }.ends(link),
        }
    }
}
