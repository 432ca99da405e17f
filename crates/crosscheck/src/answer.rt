// What is told of a table: a row of figures for each flow, or the first refusal.
use crate::numbered::{Cause, Reason};
use std::fmt;

// Why there is no route: the hop, from 1 (0 where it is about no hop), and the cause.
#[derive(Clone, Copy, PartialEq, Debug)]
pub struct NoRoute {
    pub hop: u64,
    pub cause: Cause,
}

// The first refusal, with the flow and the byte that it is about (0 for none).
#[derive(Clone, Copy, PartialEq)]
pub struct Refusal {
    pub reason: Reason,
    pub flow: u64,
    pub byte: u64,
    pub route: Option<NoRoute>,
}

impl Refusal {
    pub fn new(reason: Reason, flow: u64, byte: u64) -> Refusal {
        Refusal {
            reason,
            flow,
            byte,
            route: None,
        }
    }
}

// The figures of one flow.
#[derive(Clone, Copy, PartialEq)]
pub struct Row {
    pub hops: u64,
    pub parts: u64,
    pub alone: u64,
    pub bound: Option<u64>,
    pub rounds: u64,
}

pub type Answer = Result<Vec<Row>, Refusal>;

impl fmt::Display for Row {
    fn fmt<W: fmt::Write>(&self, f: &mut fmt::Formatter<W>) -> fmt::Result {
        let Row {
            hops,
            parts,
            alone,
            rounds,
            bound,
        } = *self;
        match bound {
            Some(bound) => write!(f, "{hops} {parts} {alone} {bound} {rounds}"),
            None => write!(f, "{hops} {parts} {alone} - {rounds}"),
        }
    }
}

impl fmt::Display for NoRoute {
    fn fmt<W: fmt::Write>(&self, f: &mut fmt::Formatter<W>) -> fmt::Result {
        let NoRoute { hop, cause } = *self;
        write!(f, "hop {hop} cause {cause}")
    }
}

impl fmt::Display for Refusal {
    fn fmt<W: fmt::Write>(&self, f: &mut fmt::Formatter<W>) -> fmt::Result {
        let Refusal {
            reason,
            flow,
            byte,
            route,
        } = *self;
        write!(f, "refused {reason} flow {flow} byte {byte}")?;
        match route {
            Some(fault) => write!(f, " {fault}"),
            None => Ok(()),
        }
    }
}
