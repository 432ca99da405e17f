// The figures of a flow, as they are printed.
ghost use Rattle.std.specs.Prelude.{Some};
ghost use Rattle.analysis.specs.Printed.{figures_text};

use std::fmt;

#[derive(Clone, Copy, PartialEq, Eq)]
pub struct Figures {
    // the links of its route
    pub hops: usize,
    // the parts of a packet, and its time with nobody else about
    pub parts: u32,
    pub alone: u64,
    // the least solution of its equation within its deadline, if it has one
    pub bound: Option<u32>,
    // the evaluations of the bound's equation
    pub rounds: u64,
}

// The columns after the flow's number; a dash where there is no bound.
impl fmt::Display for Figures {
    ghost output = { λ figures. Some (figures_text figures) };

    fn fmt<W: fmt::Write>(&self, f: &mut fmt::Formatter<W>) -> fmt::Result {
        let Figures {
            hops,
            parts,
            alone,
            bound,
            rounds,
        } = *self;
        write!(f, "{hops} {parts} {alone} ")?;
        match bound {
            Some(bound) => write!(f, "{bound}")?,
            None => write!(f, "-")?,
        }
        write!(f, " {rounds}")
    }
}
