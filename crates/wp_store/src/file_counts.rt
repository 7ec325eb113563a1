ghost use Rattle.std.specs.Prelude.{◌≡◌, ◌≢◌, ◌≤◌, IfOk, IfErr, OnErr, IsErr, IsErrOf};
ghost use Rattle.std.specs.IoError.{error_kind};
ghost use Rattle.std.specs.declared.io.ErrorKind.TheVariants.{OutOfMemory};
ghost use Rattle.wp_store.specs.Disk.{one_more};
ghost use Rattle.wp_store.specs.declared.disk.DiskFault.TheVariants.{Failed, Memory as MemoryFault};

use crate::disk::{DiskFailed, DiskFault};
use std::io;
use std::marker::Model;

/// How often a file failed, and how often it was called. A count at its end stands.
#[derive(Drop)]
pub(crate) struct FileCounts {
    faults: u64,
    calls: u64,
}

impl Model for FileCounts {
    ghost use Rattle.wp_store.specs.Untold.{Counts};

    ghost Value = { Counts };

    ghost view = { λ s. record { faults = s.faults; calls = s.calls } };
}

impl FileCounts {
    pub(crate) fn zero() -> FileCounts
        ensures { result ≡ record { faults = 0; calls = 0 } }
    {
        FileCounts {
            faults: 0,
            calls: 0,
        }
    }

    /// One call more that answers so. Each error is a fault.
    pub(crate) fn told<T>(&mut self, answer: io::Result<T>) -> Result<T, DiskFailed>
        ensures called { self.new.calls ≡ one_more self.old.calls }
        ensures given { IfOk answer (λ value. (result ≡ Ok value)
            × (self.new.faults ≡ self.old.faults)) }
        ensures fault { OnErr answer (IsErr result × (self.new.faults ≡ one_more self.old.faults)) }
        ensures rises { self.old.faults ≤ self.new.faults }
    {
        self.calls = self.calls.saturating_add(1);
        match answer {
            Ok(value) => Ok(value),
            Err(_) => {
                self.faults = self.faults.saturating_add(1);
                Err(DiskFailed)
            }
        }
    }

    /// One read more that answers so. Each error but want of memory is a fault.
    pub(crate) fn told_by_read<T>(&mut self, answer: io::Result<T>) -> Result<T, DiskFault>
        ensures called { self.new.calls ≡ one_more self.old.calls }
        ensures given { IfOk answer (λ value. (result ≡ Ok value)
            × (self.new.faults ≡ self.old.faults)) }
        ensures lacks { IfErr answer (λ error. error_kind error ≡ OutOfMemory
            → IsErrOf result MemoryFault × (self.new.faults ≡ self.old.faults)) }
        ensures fault { IfErr answer (λ error. error_kind error ≢ OutOfMemory
            → IsErrOf result Failed × (self.new.faults ≡ one_more self.old.faults)) }
        ensures failed { IsErrOf result Failed → self.new.faults ≡ one_more self.old.faults }
        ensures sound { (IsErrOf result Failed → ⊥) → self.new.faults ≡ self.old.faults }
        ensures short { ¬ IsErrOf result DiskFault.TooLong }
    {
        self.calls = self.calls.saturating_add(1);
        match answer {
            Ok(value) => Ok(value),
            Err(error) if error.kind() == io::ErrorKind::OutOfMemory => Err(DiskFault::Memory),
            Err(_) => {
                self.faults = self.faults.saturating_add(1);
                Err(DiskFault::Failed)
            }
        }
    }
}
