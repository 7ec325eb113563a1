ghost use Rattle.std.specs.Prelude.{false, ◌≡◌, ◌*◌, ◌<◌, ◌≤◌, length, vec_len, vec_capacity, IfOk, OnOk, OnErr};
ghost use Rattle.std.specs.Prelude.{IsErrOf};
ghost use Rattle.wp_store.specs.Disk.{WhereTold, Rose, IsTooLong, GoesOn, EndsSynced, LeavesOnly, SinceSyncs};
ghost use Rattle.wp_store.specs.Disk.{FailedSince};
ghost use Rattle.wp_store.specs.Records.{records_of, stored_bytes, room_bytes, most_records};
ghost use Rattle.wp_store.specs.Store.{HasRecords, IsBeforeOrStandsFor, IsDurable, IsSettledAt, KeepsRecords};
ghost use Rattle.wp_store.specs.Store.{StandsFor};

use crate::bodies::{Bodies, Read, read_bodies};
use crate::disk::{Disk, DiskFailed};
use crate::faults::OpenFault;
use crate::opened::Store;
use crate::records::ROOM_BYTES;
use crate::steps::{cut_and_sync, write_and_sync};
use std::alloc::{AllocError, Global};

/// The records that were found on a disk whose end was repaired, where its closed byte stands, and room for a further
/// one.
#[derive(Drop)]
pub struct Recovered {
    pub(crate) bodies: Bodies,
    pub(crate) place: u64,
    pub(crate) room: Vec<u8>,
    pub ghost bounded: { place ≤ room_bytes * length bodies },
    pub ghost most: { length bodies ≤ most_records },
    pub ghost has_room: { room_bytes ≤ vec_capacity room },
}

fn found(alloc: Global, bytes: Vec<u8>) -> Result<Recovered, AllocError>
    ensures bodies { IfOk result (λ found. found.bodies ≡ records_of bytes.items) }
    ensures place { IfOk result (λ found. found.place ≡ stored_bytes (records_of bytes.items)) }
    ensures within { IfOk result (λ found. found.place ≤ vec_len bytes) }
{
    let room = Vec::with_capacity(alloc, ROOM_BYTES)?;
    let Read { bodies, end } = read_bodies(alloc, bytes)?;
    Ok(Recovered {
        bodies,
        place: end as u64,
        room,
    })
}

/// Cuts the file at the end of its records, and writes a closed byte there. The file is on the disk before.
fn close<D: Disk>(disk: &mut D, place: u64) -> Result<(), DiskFailed>
    requires durable { IsDurable (D.told disk.old) }
    requires place { WhereTold (D.told disk.old).holds
        (λ bytes. place ≡ stored_bytes (records_of bytes)) }
    ensures settled { OnOk result (IsSettledAt (D.told disk.new) place) }
    ensures same { OnOk result (KeepsRecords (D.told disk.old) (D.told disk.new)) }
    ensures any_moment { WhereTold (D.told disk.old).holds (λ bytes.
        LeavesOnly (D.told disk.old) (D.told disk.new) (StandsFor (records_of bytes))) }
    ensures course { GoesOn 4 2 (D.told disk.old) (D.told disk.new) }
    ensures synced { OnOk result (WhereTold (D.told disk.old).holds (λ _.
        EndsSynced 2 (D.told disk.old) (D.told disk.new))) }
    ensures failed { OnErr result (Rose (D.told disk.old).faults (D.told disk.new).faults) }
    ensures sound { OnOk result ((D.told disk.new).faults ≡ (D.told disk.old).faults) }
{
    // The cut has to be on the disk first: behind a byte that is torn open, what stood there would count.
    cut_and_sync(disk, place)?;
    write_and_sync(disk, place, &[0])
}

/// Reads the records of a disk whose file is on it, and repairs the file's end.
fn repair<D: Disk>(alloc: Global, disk: &mut D) -> Result<Recovered, OpenFault>
    requires durable { IsDurable (D.told disk.old) }
    ensures records { IfOk result (λ found. WhereTold (D.told disk.old).holds
        (λ bytes. found.bodies ≡ records_of bytes)) }
    ensures settled { IfOk result (λ found. IsSettledAt (D.told disk.new) found.place) }
    ensures same { OnOk result (KeepsRecords (D.told disk.old) (D.told disk.new)) }
    ensures any_moment { WhereTold (D.told disk.old).holds (λ bytes.
        LeavesOnly (D.told disk.old) (D.told disk.new) (StandsFor (records_of bytes))) }
    ensures course { GoesOn 5 2 (D.told disk.old) (D.told disk.new) }
    ensures synced { OnOk result (WhereTold (D.told disk.old).holds (λ _.
        EndsSynced 2 (D.told disk.old) (D.told disk.new))) }
    ensures failed { IsErrOf result OpenFault.Disk
        → Rose (D.told disk.old).faults (D.told disk.new).faults }
    ensures sound { (IsErrOf result OpenFault.Disk → ⊥)
        → (D.told disk.new).faults ≡ (D.told disk.old).faults }
    ensures too_long { IsErrOf result OpenFault.TooLong
        → WhereTold (D.told disk.old).holds IsTooLong }
    ensures short { OnOk result (WhereTold (D.told disk.old).holds (λ bytes. IsTooLong bytes → ⊥)) }
{
    let bytes = disk.read(alloc)?;
    let found = found(alloc, bytes)?;
    close(disk, found.place)?;
    Ok(found)
}

/// Syncs a disk, reads its records, and repairs its end: the file is cut at the end of the records, and one closed byte
/// is written there, each on the disk before the next call. It makes six calls at most, of which three are syncs; at
/// `Ok` all three have succeeded, the last as it ended.
///
/// Since each sync of this call that succeeded, the first of them the one that it begins with, every image has just the
/// records of what a read gave as it began; a sync that succeeds doesn't change that. Until then every image is one of
/// those that there were. `Disk` comes only where the disk's count of faults rose in this call, and without it the
/// count stands. Where the bytes are told, `TooLong` comes exactly where they are too many, unless the disk fails or
/// memory runs out. With any other answer than `Disk` a sync of this call succeeded.
pub fn recover<D: Disk>(alloc: Global, disk: &mut D) -> Result<Recovered, OpenFault>
    ensures records { IfOk result (λ found. WhereTold (D.told disk.old).holds
        (λ bytes. found.bodies ≡ records_of bytes)) }
    ensures settled { IfOk result (λ found. IsSettledAt (D.told disk.new) found.place) }
    ensures same { OnOk result (KeepsRecords (D.told disk.old) (D.told disk.new)) }
    ensures since_syncs { WhereTold (D.told disk.old).holds (λ bytes.
        SinceSyncs (D.told disk.old) (D.told disk.new) (StandsFor (records_of bytes))) }
    ensures any_moment { WhereTold (D.told disk.old).holds (λ bytes.
        LeavesOnly (D.told disk.old) (D.told disk.new) (IsBeforeOrStandsFor (D.told disk.old) (records_of bytes))) }
    ensures course { GoesOn 6 3 (D.told disk.old) (D.told disk.new) }
    ensures first { (IsErrOf result OpenFault.Disk → ⊥) → WhereTold (D.told disk.old).holds (λ _.
        (D.told disk.old).syncs < (D.told disk.new).syncs) }
    ensures synced { OnOk result (WhereTold (D.told disk.old).holds (λ _.
        EndsSynced 3 (D.told disk.old) (D.told disk.new))) }
    ensures failed { IsErrOf result OpenFault.Disk
        → Rose (D.told disk.old).faults (D.told disk.new).faults }
    ensures sound { (IsErrOf result OpenFault.Disk → ⊥)
        → (D.told disk.new).faults ≡ (D.told disk.old).faults }
    ensures too_long { IsErrOf result OpenFault.TooLong
        → WhereTold (D.told disk.old).holds IsTooLong }
    ensures short { OnOk result (WhereTold (D.told disk.old).holds (λ bytes. IsTooLong bytes → ⊥)) }
{
    disk.sync()?;
    repair(alloc, disk)
}

impl Recovered {
    /// The bodies of the records.
    pub fn bodies(&self) -> &Bodies
        ensures { result.now ≡ self.now.bodies }
    {
        &self.bodies
    }

    /// A store over the disk that these records were found on.
    pub fn into_store<'a, D: Disk>(self, disk: &'a mut D) -> Store<'a, D>
        requires settled { IsSettledAt (D.told disk.old) self.place }
        requires same { HasRecords (D.told disk.old) self.bodies }
        ensures same_reference { result.disk.ghost_name ≡ disk.entry.ghost_name }
        ensures disk { result.disk.now ≡ disk.old }
        ensures count { result.count ≡ length self.bodies }
        ensures sound { result.is_broken ≡ false }
    {
        let Recovered {
            bodies,
            place,
            room,
        } = self;
        Store::over(disk, place, bodies.len(), room)
    }

    /// A store over the disk that these records were found on, and the records.
    pub fn open<'a, D: Disk>(self, disk: &'a mut D) -> Opened<'a, D>
        requires settled { IsSettledAt (D.told disk.old) self.place }
        requires same { HasRecords (D.told disk.old) self.bodies }
        ensures same_reference { result.store.disk.ghost_name ≡ disk.entry.ghost_name }
        ensures disk { result.store.disk.now ≡ disk.old }
        ensures bodies { result.bodies ≡ self.bodies }
        ensures count { result.store.count ≡ length self.bodies }
        ensures sound { result.store.is_broken ≡ false }
    {
        let Recovered {
            bodies,
            place,
            room,
        } = self;
        let count = bodies.len();
        Opened {
            store: Store::over(disk, place, count, room),
            bodies,
        }
    }
}

/// A store, and the records that it opened with.
pub struct Opened<'a, D: Disk> {
    pub store: Store<'a, D>,
    pub bodies: Bodies,
}

impl<'a, D: Disk> Drop for Opened<'a, D> {
    fn drop(self) {
        let Opened {
            store: _,
            bodies: _,
        } = self;
    }
}

/// Recovers a disk and opens a store over it. What is promised of the disk where that fails, at every moment of the
/// call, is said of `recover`, which this calls first. Nothing is called on the disk after that.
///
/// `Disk` comes only where the disk's count of faults rose in this call: calls have then left a disk that tells so.
/// Code over every disk comes to a disk with a higher count by calls on the one that it is given alone.
pub fn open<D: Disk>(alloc: Global, disk: &mut D) -> Result<Opened<'_, D>, OpenFault>
    ensures same_reference { IfOk result (λ opened. opened.store.disk.ghost_name
        ≡ disk.entry.ghost_name) }
    ensures records { IfOk result (λ opened. WhereTold (D.told disk.old).holds
        (λ bytes. opened.bodies ≡ records_of bytes)) }
    ensures count { IfOk result (λ opened. opened.store.count ≡ length opened.bodies) }
    ensures sound { IfOk result (λ opened. opened.store.is_broken ≡ false) }
    ensures stored { IfOk result (λ opened. HasRecords
        (D.told opened.store.disk.now) opened.bodies) }
    ensures since_syncs { IfOk result (λ opened. WhereTold (D.told disk.old).holds (λ bytes.
        SinceSyncs (D.told disk.old) (D.told opened.store.disk.now) (StandsFor (records_of bytes)))) }
    ensures any_moment { IfOk result (λ opened. WhereTold (D.told disk.old).holds (λ bytes.
        LeavesOnly (D.told disk.old) (D.told opened.store.disk.now)
        (IsBeforeOrStandsFor (D.told disk.old) (records_of bytes)))) }
    ensures course { IfOk result (λ opened. GoesOn 6 3 (D.told disk.old)
        (D.told opened.store.disk.now)) }
    ensures synced { IfOk result (λ opened. WhereTold (D.told disk.old).holds (λ _.
        EndsSynced 3 (D.told disk.old) (D.told opened.store.disk.now))) }
    ensures failed { IsErrOf result OpenFault.Disk
        → (left : D) × FailedSince (D.told disk.old) (D.told left) }
    ensures too_long { IsErrOf result OpenFault.TooLong
        → WhereTold (D.told disk.old).holds IsTooLong }
{
    let recovered = recover(alloc, disk)?;
    Ok(recovered.open(disk))
}
