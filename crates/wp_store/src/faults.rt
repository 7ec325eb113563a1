ghost use Rattle.std.specs.Prelude.{◌≡◌, Some};
ghost use Rattle.wp_store.specs.Faults.{open_fault_text, append_fault_text, open_fault_of};
ghost use Rattle.wp_store.specs.declared.faults.AppendFault.TheVariants.{Disk as AppendDisk};
ghost use Rattle.wp_store.specs.declared.faults.OpenFault.TheVariants.{Disk as OpenDisk, Memory as OpenMemory};

use crate::disk::{DiskFailed, DiskFault};
use std::alloc::AllocError;
use std::error::Error;
use std::fmt;

/// Why a store was not opened.
#[derive(Clone, Copy, Debug, PartialEq, Eq)]
pub enum OpenFault {
    /// The disk failed.
    Disk,
    /// The file has more than `MOST_STORE_BYTES` bytes.
    TooLong,
    /// There was no memory for the records.
    Memory,
}

impl fmt::Display for OpenFault {
    ghost output = { λ fault. Some (open_fault_text fault) };

    fn fmt<W: fmt::Write>(&self, f: &mut fmt::Formatter<W>) -> fmt::Result {
        f.write_str(match self {
            OpenFault::Disk => "the disk failed",
            OpenFault::TooLong => "the file on the disk is too long",
            OpenFault::Memory => "out of memory",
        })
    }
}

impl Error for OpenFault {}

impl From<DiskFault> for OpenFault {
    ghost from_gives = { λ fault other. other ≡ open_fault_of fault };

    fn from(fault: DiskFault) -> OpenFault {
        match fault {
            DiskFault::Failed => OpenFault::Disk,
            DiskFault::TooLong => OpenFault::TooLong,
            DiskFault::Memory => OpenFault::Memory,
        }
    }
}

impl From<DiskFailed> for OpenFault {
    ghost from_gives = { λ _ fault. fault ≡ OpenDisk };

    fn from(_failed: DiskFailed) -> OpenFault {
        OpenFault::Disk
    }
}

impl From<AllocError> for OpenFault {
    ghost from_gives = { λ _ fault. fault ≡ OpenMemory };

    fn from(_refused: AllocError) -> OpenFault {
        OpenFault::Memory
    }
}

/// Why a record was not stored.
#[derive(Clone, Copy, Debug, PartialEq, Eq)]
pub enum AppendFault {
    /// The disk failed. The store is to be opened again.
    Disk,
    /// An earlier append of this store answered `Disk`.
    Broken,
}

impl fmt::Display for AppendFault {
    ghost output = { λ fault. Some (append_fault_text fault) };

    fn fmt<W: fmt::Write>(&self, f: &mut fmt::Formatter<W>) -> fmt::Result {
        f.write_str(match self {
            AppendFault::Disk => "the disk failed",
            AppendFault::Broken => "the store is to be opened again",
        })
    }
}

impl Error for AppendFault {}

impl From<DiskFailed> for AppendFault {
    ghost from_gives = { λ _ fault. fault ≡ AppendDisk };

    fn from(_failed: DiskFailed) -> AppendFault {
        AppendFault::Disk
    }
}
