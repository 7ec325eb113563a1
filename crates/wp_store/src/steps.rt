//! A write or a cut of a disk, and the sync after it.
ghost use Rattle.std.specs.Prelude.{◌≡◌, ◌≤◌, length, take, option_map, OnOk, OnErr};
ghost use Rattle.wp_store.specs.Disk.{WhereTold, Rose, Torn, Cut, GoesOn, EndsSynced, LeavesOnly, NoSync, written_over};
ghost use Rattle.wp_store.specs.Store.{IsDurable};

use crate::disk::{Disk, DiskFailed};

/// Writes a piece at a place, and syncs. The file is on the disk before, and after `Ok`.
pub(crate) fn write_and_sync<D: Disk>(
    disk: &mut D,
    place: u64,
    piece: &[u8],
) -> Result<(), DiskFailed>
    requires within { WhereTold (D.told disk.old).holds (λ bytes. place ≤ length bytes) }
    requires durable { IsDurable (D.told disk.old) }
    ensures written { OnOk result
        ((D.told disk.new).holds ≡ option_map (written_over place piece.now) (D.told disk.old).holds) }
    ensures durable { OnOk result (IsDurable (D.told disk.new)) }
    ensures any_moment { WhereTold (D.told disk.old).holds (λ bytes.
        LeavesOnly (D.told disk.old) (D.told disk.new) (Torn place (length piece.now) bytes)) }
    ensures course { GoesOn 2 1 (D.told disk.old) (D.told disk.new) }
    ensures synced { OnOk result (WhereTold (D.told disk.old).holds (λ _.
        EndsSynced 1 (D.told disk.old) (D.told disk.new))) }
    ensures unsynced { OnErr result (NoSync (D.told disk.old) (D.told disk.new)) }
    ensures failed { OnErr result (Rose (D.told disk.old).faults (D.told disk.new).faults) }
    ensures sound { OnOk result ((D.told disk.new).faults ≡ (D.told disk.old).faults) }
{
    disk.write_at(place, piece)?;
    disk.sync()
}

/// Cuts the file to a length, and syncs. The file is on the disk before, and after `Ok`.
pub(crate) fn cut_and_sync<D: Disk>(disk: &mut D, size: u64) -> Result<(), DiskFailed>
    requires within { WhereTold (D.told disk.old).holds (λ bytes. size ≤ length bytes) }
    requires durable { IsDurable (D.told disk.old) }
    ensures written { OnOk result ((D.told disk.new).holds
        ≡ option_map (take size) (D.told disk.old).holds) }
    ensures durable { OnOk result (IsDurable (D.told disk.new)) }
    ensures any_moment { WhereTold (D.told disk.old).holds (λ bytes.
        LeavesOnly (D.told disk.old) (D.told disk.new) (Cut size bytes)) }
    ensures course { GoesOn 2 1 (D.told disk.old) (D.told disk.new) }
    ensures synced { OnOk result (WhereTold (D.told disk.old).holds (λ _.
        EndsSynced 1 (D.told disk.old) (D.told disk.new))) }
    ensures unsynced { OnErr result (NoSync (D.told disk.old) (D.told disk.new)) }
    ensures failed { OnErr result (Rose (D.told disk.old).faults (D.told disk.new).faults) }
    ensures sound { OnOk result ((D.told disk.new).faults ≡ (D.told disk.old).faults) }
{
    disk.cut(size)?;
    disk.sync()
}
