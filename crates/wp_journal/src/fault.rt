ghost use Rattle.std.specs.Prelude.{◌≡◌, Some};
ghost use Rattle.wp_journal.specs.FaultTexts.{entry_fault_text};
ghost use Rattle.wp_journal.specs.declared.fault.EntryFault.TheVariants as fault;

use std::alloc::{AllocError, AllocFailed};
use std::error::Error;
use std::fmt;
use wp_model::Memory;

/// Why a line isn't read as an entry.
#[derive(Clone, Copy, Debug, PartialEq, Eq)]
pub enum EntryFault {
    /// It is the line of no entry.
    NotEntry,
    /// There was no memory for the entry.
    Memory,
}

impl fmt::Display for EntryFault {
    ghost output = { λ fault. Some (entry_fault_text fault) };

    fn fmt<W: fmt::Write>(&self, f: &mut fmt::Formatter<W>) -> fmt::Result {
        f.write_str(match self {
            EntryFault::NotEntry => "not-entry",
            EntryFault::Memory => "memory",
        })
    }
}

impl Error for EntryFault {}

impl From<Memory> for EntryFault {
    ghost from_gives = { λ _ e. e ≡ fault.Memory };

    fn from(_error: Memory) -> EntryFault {
        EntryFault::Memory
    }
}

impl From<AllocError> for EntryFault {
    ghost from_gives = { λ _ e. e ≡ fault.Memory };

    fn from(_error: AllocError) -> EntryFault {
        EntryFault::Memory
    }
}

impl<T: Drop> From<AllocFailed<T>> for EntryFault {
    ghost from_gives = { λ _ e. e ≡ fault.Memory };

    fn from(_error: AllocFailed<T>) -> EntryFault {
        EntryFault::Memory
    }
}
