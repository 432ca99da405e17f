// Why the load of a run is refused.
ghost use Rattle.std.specs.Prelude.{◌≡◌, Some};
ghost use Rattle.calls.specs.LoadRefusals.{load_number, load_flow, load_byte, load_line};
ghost use Rattle.calls.specs.declared.load_refusal.LoadRefusal.TheVariants.{Fault};
ghost use Rattle.table.specs.declared.fault.LoadFault.TheVariants.{NoMemory};

use crate::refusal::Refusal;
use std::alloc::{AllocError, AllocFailed};
use std::fmt;
use table::fault::LoadFault;

#[derive(Clone, Copy, PartialEq, Eq)]
pub enum LoadRefusal {
    // the run that is to be loaded owes an injection
    Owed,
    // its table is refused, or there was no memory to load it into
    Fault(LoadFault),
}

impl LoadRefusal {
    // The number by which reports name the refusal; want of memory has none.
    pub fn number(self) -> Option<u8>
        ensures { result ≡ load_number self }
    {
        match self {
            LoadRefusal::Owed => Some(Refusal::Owed.number()),
            LoadRefusal::Fault(fault) => fault.number(),
        }
    }

    // The flow that it is about, 0 where it is about none.
    pub fn flow(self) -> usize
        ensures { result ≡ load_flow self }
    {
        match self {
            LoadRefusal::Owed => 0,
            LoadRefusal::Fault(fault) => fault.flow(),
        }
    }

    // The byte that it is told at, 0 where it is about none.
    pub fn byte(self) -> usize
        ensures { result ≡ load_byte self }
    {
        match self {
            LoadRefusal::Owed => 0,
            LoadRefusal::Fault(fault) => fault.byte(),
        }
    }
}

impl From<LoadFault> for LoadRefusal {
    ghost from_gives = { λ fault r. r ≡ Fault fault };

    fn from(fault: LoadFault) -> LoadRefusal {
        LoadRefusal::Fault(fault)
    }
}

// Two impls, since std tells want of memory by two errors; by a derive no clause would know which case comes.
impl From<AllocError> for LoadRefusal {
    ghost from_gives = { λ _ r. r ≡ Fault NoMemory };

    fn from(_e: AllocError) -> LoadRefusal {
        LoadRefusal::Fault(LoadFault::NoMemory)
    }
}

impl<T: Drop> From<AllocFailed<T>> for LoadRefusal {
    ghost from_gives = { λ _ r. r ≡ Fault NoMemory };

    fn from(_e: AllocFailed<T>) -> LoadRefusal {
        LoadRefusal::Fault(LoadFault::NoMemory)
    }
}

// The one line that reports a refusal, as a table's refusal is reported.
impl fmt::Display for LoadRefusal {
    ghost output = { λ refusal. Some (load_line refusal) };

    fn fmt<W: fmt::Write>(&self, f: &mut fmt::Formatter<W>) -> fmt::Result {
        match self {
            LoadRefusal::Owed => {
                let number = Refusal::Owed.number();
                let (flow, byte) = (self.flow(), self.byte());
                write!(f, "refused {number} flow {flow} byte {byte}")
            }
            LoadRefusal::Fault(fault) => fault.fmt(f),
        }
    }
}
