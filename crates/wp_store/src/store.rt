ghost use Rattle.std.specs.Prelude.{◌≡◌, ◌+◌, ◌*◌, ◌<◌, ◌≤◌, ◌++◌, [], ◌∷◌, ◌^◌, length, vec_capacity, OnOk, OnErr};
ghost use Rattle.wp_store.specs.Disk.{WhereTold, Rose, GoesOn, EndsSynced, LeavesOnly};
ghost use Rattle.wp_store.specs.Records.{records_of, length_bytes, most_records, most_body_bytes, room_bytes};
ghost use Rattle.wp_store.specs.Store.{IsSettledAt, IsWithOrWithout, GainsRecord};

use crate::disk::{Disk, DiskFailed};
use crate::steps::write_and_sync;

/// Puts the length, the body and a closed byte into the room, in the place of what it held.
pub(crate) fn fill(room: &mut Vec<u8>, body: &[u8])
    requires capacity { room_bytes ≤ vec_capacity room.old }
    requires few { length body.now ≤ most_body_bytes }
    ensures piece { room.new.items ≡ length_bytes (length body.now) ++ body.now ++ 0 ∷ [] }
    ensures capacity { vec_capacity room.old ≤ vec_capacity room.new }
{
    let length = body.len();
    room.clear();
    room.push_reserved((length / 16_777_216 % 256) as u8);
    room.push_reserved((length / 65_536 % 256) as u8);
    room.push_reserved((length / 256 % 256) as u8);
    room.push_reserved((length % 256) as u8);
    let _put = room.extend_from_slice(body);
    let _closed = room.push(0);
}

/// Writes a piece, which is a length, a body and a closed byte, behind the closed byte at a place; then opens that
/// byte. Each of the two is on the disk before the next call.
pub(crate) fn append_at<D: Disk>(
    disk: &mut D,
    place: u64,
    piece: &[u8],
    body: &[u8],
) -> Result<(), DiskFailed>
    requires settled { IsSettledAt (D.told disk.old) place }
    requires fits { place + 1 < 2 ^ 64 }
    requires room { WhereTold (D.told disk.old).holds
        (λ bytes. length (records_of bytes) < most_records) }
    requires piece { piece.now ≡ length_bytes (length body.now) ++ body.now ++ 0 ∷ [] }
    requires some { 1 ≤ length body.now }
    requires few { length body.now ≤ most_body_bytes }
    ensures settled { OnOk result (IsSettledAt (D.told disk.new) (place + 5 + length body.now)) }
    ensures stored { OnOk result (GainsRecord (D.told disk.old) (D.told disk.new) body.now) }
    ensures any_moment { WhereTold (D.told disk.old).holds (λ bytes.
        LeavesOnly (D.told disk.old) (D.told disk.new) (IsWithOrWithout (records_of bytes) body.now)) }
    ensures course { GoesOn 4 2 (D.told disk.old) (D.told disk.new) }
    ensures synced { OnOk result (WhereTold (D.told disk.old).holds (λ _.
        EndsSynced 2 (D.told disk.old) (D.told disk.new))) }
    ensures unsynced { OnErr result (WhereTold (D.told disk.old).holds (λ _.
        (D.told disk.new).syncs ≤ (D.told disk.old).syncs + 1)) }
    ensures failed { OnErr result (Rose (D.told disk.old).faults (D.told disk.new).faults) }
    ensures sound { OnOk result ((D.told disk.new).faults ≡ (D.told disk.old).faults) }
{
    write_and_sync(disk, place + 1, piece)?;
    write_and_sync(disk, place, &[1])
}
