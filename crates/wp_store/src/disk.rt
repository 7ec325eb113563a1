ghost use Rattle.std.specs.Prelude.{◌≡◌, ◌≤◌, Some, length, take, option_map, IfOk, OnOk, OnErr, IsErrOf};
ghost use Rattle.wp_store.specs.Disk.{DiskTold, WhereTold, Rose, IsTooLong, written_over, Torn, Cut, Stays, Only};
ghost use Rattle.wp_store.specs.Disk.{OneCall, NoSync, OneSync, IsDisk};
ghost use Rattle.wp_store.specs.Faults.{disk_fault_text};
ghost use Rattle.wp_store.specs.declared.disk.DiskFault.TheVariants.{Memory as MemoryFault};

use std::alloc::{AllocError, Global};
use std::error::Error;
use std::fmt;

/// Why a disk was not read.
#[derive(Clone, Copy, Debug, PartialEq, Eq)]
pub enum DiskFault {
    /// The disk failed.
    Failed,
    /// The file has more than `MOST_STORE_BYTES` bytes.
    TooLong,
    /// There was no memory for its bytes.
    Memory,
}

impl fmt::Display for DiskFault {
    ghost output = { λ fault. Some (disk_fault_text fault) };

    fn fmt<W: fmt::Write>(&self, f: &mut fmt::Formatter<W>) -> fmt::Result {
        f.write_str(match self {
            DiskFault::Failed => "the disk failed",
            DiskFault::TooLong => "the file on the disk is too long",
            DiskFault::Memory => "out of memory",
        })
    }
}

impl Error for DiskFault {}

impl From<AllocError> for DiskFault {
    ghost from_gives = { λ _ fault. fault ≡ MemoryFault };

    fn from(_refused: AllocError) -> DiskFault {
        DiskFault::Memory
    }
}

/// The disk failed.
#[derive(Clone, Copy, Debug, PartialEq, Eq)]
pub struct DiskFailed;

/// A file on a disk, which a crash may come upon at any moment. An image is a content of the file that a crash leaves.
pub trait Disk {
    /// What it tells: its bytes, what a crash may leave of them, its syncs, its faults and how often it was called.
    ghost told: { Self → DiskTold };

    /// All the bytes. `Failed` comes only where the count of faults rose in this call, and it rises with no other
    /// answer. Where the bytes are told, `TooLong` comes exactly where they are more than `MOST_STORE_BYTES`, unless
    /// the disk fails or memory runs out.
    fn read(&mut self, alloc: Global) -> Result<Vec<u8>, DiskFault>
        ensures bytes { IfOk result (λ read. WhereTold (told self.old).holds
            (λ bytes. read.items ≡ bytes)) }
        ensures same { (told self.new).holds ≡ (told self.old).holds }
        ensures too_long { IsErrOf result DiskFault.TooLong
            → WhereTold (told self.old).holds IsTooLong }
        ensures short { OnOk result (WhereTold (told self.old).holds
            (λ bytes. IsTooLong bytes → ⊥)) }
        ensures calls { OneCall Stays (told self.old) (told self.new) }
        ensures unsynced { NoSync (told self.old) (told self.new) }
        ensures failed { IsErrOf result DiskFault.Failed
            → Rose (told self.old).faults (told self.new).faults }
        ensures sound { (IsErrOf result DiskFault.Failed → ⊥)
            → (told self.new).faults ≡ (told self.old).faults };

    /// Writes a piece over what stands at a place, and past the end. Until a sync, a crash may leave any bytes in that
    /// range. `DiskFailed` comes only where the count of faults rose in this call, and without it the count stands.
    fn write_at(&mut self, place: u64, piece: &[u8]) -> Result<(), DiskFailed>
        requires { WhereTold (told self.old).holds (λ bytes. place ≤ length bytes) }
        ensures written { OnOk result
            ((told self.new).holds ≡ option_map (written_over place piece.now) (told self.old).holds) }
        ensures calls { OneCall (Torn place (length piece.now)) (told self.old) (told self.new) }
        ensures unsynced { NoSync (told self.old) (told self.new) }
        ensures failed { OnErr result (Rose (told self.old).faults (told self.new).faults) }
        ensures sound { OnOk result ((told self.new).faults ≡ (told self.old).faults) };

    /// Cuts the file to a length. Until a sync, a crash may leave what was cut away. `DiskFailed` comes only where the
    /// count of faults rose in this call, and without it the count stands.
    fn cut(&mut self, size: u64) -> Result<(), DiskFailed>
        requires { WhereTold (told self.old).holds (λ bytes. size ≤ length bytes) }
        ensures written { OnOk result ((told self.new).holds
            ≡ option_map (take size) (told self.old).holds) }
        ensures calls { OneCall (Cut size) (told self.old) (told self.new) }
        ensures unsynced { NoSync (told self.old) (told self.new) }
        ensures failed { OnErr result (Rose (told self.old).faults (told self.new).faults) }
        ensures sound { OnOk result ((told self.new).faults ≡ (told self.old).faults) };

    /// After it, what a read gives is the only image. `DiskFailed` comes only where the count of faults rose in this
    /// call, and without it the count stands.
    fn sync(&mut self) -> Result<(), DiskFailed>
        ensures same { OnOk result ((told self.new).holds ≡ (told self.old).holds) }
        ensures durable { OnOk result (WhereTold (told self.old).holds
            (λ bytes. Only bytes (told self.new).images)) }
        ensures calls { OneCall Stays (told self.old) (told self.new) }
        ensures synced { OnOk result (WhereTold (told self.old).holds
            (λ _. OneSync (told self.old) (told self.new))) }
        ensures unsynced { OnErr result (NoSync (told self.old) (told self.new)) }
        ensures failed { OnErr result (Rose (told self.old).faults (told self.new).faults) }
        ensures sound { OnOk result ((told self.new).faults ≡ (told self.old).faults) };

    /// What is so of each disk.
    ghost is_disk: { (disk : Self) → IsDisk (told disk) };
}
