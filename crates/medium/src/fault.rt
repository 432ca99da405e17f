// The refusals of a medium.
ghost use Rattle.std.specs.Prelude.{◌≡◌, Some};
ghost use Rattle.medium.specs.Faults.{number_of, text_of};

use std::fmt;

// Why a medium refuses a call.
#[derive(Clone, Copy, PartialEq, Eq, Debug)]
pub enum MediumFault {
    // An interval is opened at the limit.
    Full = 11,
    // An interval is pulled where none is open.
    Closed = 12,
    // A node above 255 pulls.
    NoNode = 13,
}

impl MediumFault {
    // The number by which the refusal is told.
    pub fn number(self) -> u8
        ensures { result ≡ number_of self }
    {
        self as u8
    }

    // What was refused, and what would be accepted.
    fn text(self) -> &'static str
        ensures { result.now ≡ text_of self }
    {
        match self {
            MediumFault::Full => "no more intervals can be opened: clear the medium first",
            MediumFault::Closed => "no interval is open: open one before a node pulls",
            MediumFault::NoNode => "there is no such node: nodes are numbered from 0 to 255",
        }
    }
}

impl fmt::Display for MediumFault {
    ghost output = { λ fault. Some (text_of fault) };

    fn fmt<W: fmt::Write>(&self, f: &mut fmt::Formatter<W>) -> fmt::Result {
        f.write_str(self.text())
    }
}
