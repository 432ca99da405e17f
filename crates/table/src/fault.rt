// Why a flow table is refused.
ghost use Rattle.std.specs.Prelude.{◌≡◌, Some};
ghost use Rattle.table.specs.Faults.{fault_number, fault_flow, fault_byte, line_of};
ghost use Rattle.table.specs.declared.fault.LoadFault.TheVariants.{NoMemory};

use fabric::fault::RouteFault;
use std::alloc::{AllocError, AllocFailed};
use std::fmt;

#[derive(Clone, Copy, PartialEq, Eq)]
pub enum LoadFault {
    // there was no memory to load the table into; this refusal has no number
    NoMemory,
    // the file has under 32 or over 65,535 bytes
    Size,
    // a header field outside its range
    Field {
        byte: usize,
    },
    // a profile that nobody knows
    Profile,
    // a section ends past the file
    Section {
        byte: usize,
    },
    // a flow record that is out of range
    Record {
        flow: usize,
        byte: usize,
    },
    // a flow whose separation is shorter than a slot
    Separation {
        flow: usize,
        byte: usize,
    },
    // a flow without a route
    Route {
        flow: usize,
        byte: usize,
        fault: RouteFault,
    },
    // a flow whose route is too long for one part to carry a flit
    Capacity {
        flow: usize,
        byte: usize,
    },
    // more flows than the medium has intervals, or a fabric of another size
    Misfit,
}

impl LoadFault {
    // The number by which reports name the refusal; want of memory has none. A match, since a case with fields has no number of its own.
    pub fn number(self) -> Option<u8>
        ensures { result ≡ fault_number self }
    {
        match self {
            LoadFault::NoMemory => None,
            LoadFault::Size => Some(1),
            LoadFault::Field { .. } => Some(2),
            LoadFault::Profile => Some(3),
            LoadFault::Section { .. } => Some(4),
            LoadFault::Record { .. } => Some(5),
            LoadFault::Separation { .. } => Some(6),
            LoadFault::Route { .. } => Some(7),
            LoadFault::Capacity { .. } => Some(8),
            LoadFault::Misfit => Some(9),
        }
    }

    // The flow that it is about, 0 where it is about none.
    pub fn flow(self) -> usize
        ensures { result ≡ fault_flow self }
    {
        match self {
            LoadFault::Record { flow, .. }
            | LoadFault::Separation { flow, .. }
            | LoadFault::Route { flow, .. }
            | LoadFault::Capacity { flow, .. } => flow,
            _ => 0,
        }
    }

    // The byte that it is told at, 0 where it is about none.
    pub fn byte(self) -> usize
        ensures { result ≡ fault_byte self }
    {
        match self {
            LoadFault::Profile => 6,
            LoadFault::Field { byte }
            | LoadFault::Section { byte }
            | LoadFault::Record { byte, .. }
            | LoadFault::Separation { byte, .. }
            | LoadFault::Route { byte, .. }
            | LoadFault::Capacity { byte, .. } => byte,
            _ => 0,
        }
    }
}

// Two impls, since std tells want of memory by two errors; by a derive no clause would know which case comes.
impl From<AllocError> for LoadFault {
    ghost from_gives = { λ _ r. r ≡ NoMemory };

    fn from(_e: AllocError) -> LoadFault {
        LoadFault::NoMemory
    }
}

impl<T: Drop> From<AllocFailed<T>> for LoadFault {
    ghost from_gives = { λ _ r. r ≡ NoMemory };

    fn from(_e: AllocFailed<T>) -> LoadFault {
        LoadFault::NoMemory
    }
}

// The one line that reports a refusal; only a missing route has a hop and a cause.
impl fmt::Display for LoadFault {
    ghost output = { λ fault. Some (line_of fault) };

    fn fmt<W: fmt::Write>(&self, f: &mut fmt::Formatter<W>) -> fmt::Result {
        let Some(number) = self.number() else {
            return f.write_str("refused: no memory");
        };
        let (flow, byte) = (self.flow(), self.byte());
        write!(f, "refused {number} flow {flow} byte {byte}")?;
        match self {
            LoadFault::Route { fault, .. } => {
                let (hop, cause) = (fault.hop, fault.cause.number());
                write!(f, " hop {hop} cause {cause}")
            }
            _ => Ok(()),
        }
    }
}
