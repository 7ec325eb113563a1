ghost use Rattle.std.specs.Prelude.{◌≡◌, ◌+◌, ◌<◌, ◌≤◌, ◌⊎◌, Some, IfOk, IfSome, IsErrOf};
ghost use Rattle.wp_outside.specs.Faults.{file_fault_text};
ghost use Rattle.wp_outside.specs.Outside.{FilesTold, SameBytes, NoneFalls, IsTooLong};
ghost use Rattle.wp_outside.specs.declared.files.FileFault.TheVariants.{Memory as MemoryFault};

use std::alloc::{AllocError, Global};
use std::error::Error;
use std::fmt;
use wp_model::Memory;

/// Why a file was not read.
#[derive(Clone, Copy, Debug, PartialEq, Eq)]
pub enum FileFault {
    /// The file is not there, or the device failed.
    Failed,
    /// The file has more than `MOST_FILE_BYTES` bytes.
    TooLong,
    /// There was no memory for its bytes.
    Memory,
}

impl fmt::Display for FileFault {
    ghost output = { λ fault. Some (file_fault_text fault) };

    fn fmt<W: fmt::Write>(&self, f: &mut fmt::Formatter<W>) -> fmt::Result {
        f.write_str(match self {
            FileFault::Failed => "the file could not be read",
            FileFault::TooLong => "the file is too long",
            FileFault::Memory => "out of memory",
        })
    }
}

impl Error for FileFault {}

impl From<Memory> for FileFault {
    ghost from_gives = { λ _ fault. fault ≡ MemoryFault };

    fn from(_want: Memory) -> FileFault {
        FileFault::Memory
    }
}

impl From<AllocError> for FileFault {
    ghost from_gives = { λ _ fault. fault ≡ MemoryFault };

    fn from(_refused: AllocError) -> FileFault {
        FileFault::Memory
    }
}

/// Named files that are read whole.
pub trait Files {
    /// What they tell: the bytes that each name holds, by the bytes of the name, or that they aren't told; how often
    /// reading each name failed, where one number may serve for all names; and how many reads there were.
    ghost told: { Self → FilesTold };

    /// All the bytes of the file of this name. It is one read, but where memory runs out it may be none. No read
    /// changes what a name holds, nor whether that is told, and no count falls. `Failed` comes only where the count of
    /// this name rose in this call. Where the bytes are told, `TooLong` comes exactly where they are more than
    /// `MOST_FILE_BYTES` and that count did not rise, unless memory runs out.
    fn read(&mut self, alloc: Global, name: &str) -> Result<Vec<u8>, FileFault>
        ensures bytes { IfOk result (λ read.
            IfSome ((told self.old).holds name.now) (λ held. read.items ≡ held)) }
        ensures same { SameBytes (told self.old).holds (told self.new).holds }
        ensures counts { NoneFalls (told self.old).faults (told self.new).faults }
        ensures failed { IsErrOf result FileFault.Failed
            → (told self.old).faults name.now < (told self.new).faults name.now }
        ensures too_long { IsErrOf result FileFault.TooLong
            → IfSome ((told self.old).holds name.now) (λ held.
            IsTooLong held × ((told self.new).faults name.now ≡ (told self.old).faults name.now)) }
        ensures long { IfSome ((told self.old).holds name.now) (λ held.
            IsTooLong held
            → (told self.new).faults name.now ≡ (told self.old).faults name.now
            → IsErrOf result FileFault.TooLong ⊎ IsErrOf result FileFault.Memory) }
        ensures once { (IsErrOf result FileFault.Memory → ⊥)
            → (told self.new).reads ≡ (told self.old).reads + 1 }
        ensures least { (told self.old).reads ≤ (told self.new).reads }
        ensures most { (told self.new).reads ≤ (told self.old).reads + 1 };
}
