ghost use Rattle.std.specs.Prelude.{◌≡◌, ◌↔◌, ◌+◌, ◌*◌, ◌<◌, ◌≤◌, ◌++◌, [], ◌∷◌, ℕ, List, true, false, length, is_err};
ghost use Rattle.std.specs.Prelude.{vec_capacity, OnOk, OnErr, IsErrOf};
ghost use Rattle.std.proofs.Props.{props};
ghost use Rattle.wp_store.specs.Disk.{WhereTold, Rose, GoesOn, EndsSynced, LeavesOnly};
ghost use Rattle.wp_store.specs.Records.{records_of, most_records, room_bytes, most_body_bytes};
ghost use Rattle.wp_store.specs.Store.{IsSettledAt, HasCounted, IsWithOrWithout, StandsFor, GainsRecord};

use crate::disk::Disk;
use crate::faults::AppendFault;
use crate::store::{append_at, fill};

/// A store of records on a disk. What stands in its file is on the disk, unless an append answered `Disk`.
pub struct Store<'a, D: Disk> {
    disk: &'a mut D,
    place: u64,
    count: u32,
    room: Vec<u8>,
    is_broken: bool,
    ghost settled: { is_broken ≡ false → IsSettledAt (D.told disk.now) place } by { Prim.hlevel props },
    ghost counted: { is_broken ≡ false → HasCounted (D.told disk.now) count } by { Prim.hlevel props },
    ghost bounded: { place ≤ room_bytes * count },
    ghost most: { count ≤ most_records },
    ghost has_room: { room_bytes ≤ vec_capacity room },
}

impl<'a, D: Disk> Drop for Store<'a, D> {
    fn drop(self) {
        let Store {
            disk: _,
            place: _,
            count: _,
            room: _,
            is_broken: _,
        } = self;
    }
}

impl<'a, D: Disk> Store<'a, D> {
    /// Over a disk whose file is at rest, with its closed byte at this place.
    pub(crate) fn over(disk: &'a mut D, place: u64, count: u32, room: Vec<u8>) -> Store<'a, D>
        requires settled { IsSettledAt (D.told disk.old) place }
        requires counted { HasCounted (D.told disk.old) count }
        requires bounded { place ≤ room_bytes * count }
        requires most { count ≤ most_records }
        requires room { room_bytes ≤ vec_capacity room }
        ensures same_reference { result.disk.ghost_name ≡ disk.entry.ghost_name }
        ensures disk { result.disk.now ≡ disk.old }
        ensures count { result.count ≡ count }
        ensures sound { result.is_broken ≡ false }
    {
        Store {
            disk,
            place,
            count,
            room,
            is_broken: false,
        }
    }

    /// The disk again, for whoever is done with the store.
    pub fn into_disk(self) -> &'a mut D
        ensures same_reference { result.ghost_name ≡ self.entry.disk.ghost_name }
        ensures disk { result.now ≡ self.entry.disk.now }
    {
        let Store {
            disk,
            place: _,
            count: _,
            room: _,
            is_broken: _,
        } = self;
        disk
    }

    /// How many records it has.
    pub fn count(&self) -> u32
        ensures count { result ≡ self.now.count }
        ensures most { result ≤ most_records }
        ensures records { self.now.is_broken ≡ false
            → HasCounted (D.told self.now.disk.now) result }
    {
        self.count
    }

    /// Stores a record. At `Ok` it is acknowledged: from then on every image has it. At every moment of the call, and
    /// after `Disk`, every image has the records from before it, or these and the body. It makes four calls at most, of
    /// which two are syncs; at `Ok` both have succeeded, the second as it ended. `Disk` comes only where the disk's
    /// count of faults rose in this call, and without it the count stands. `Broken` comes exactly where an earlier
    /// append of this store answered `Disk`; then nothing is called on the disk, and the store is to be opened again.
    /// It takes no memory.
    pub fn append(&mut self, body: &[u8]) -> Result<(), AppendFault>
        requires some { 1 ≤ length body.now }
        requires few { length body.now ≤ most_body_bytes }
        requires room { self.old.count < most_records }
        ensures same_reference { self.new.disk.ghost_name ≡ self.old.disk.ghost_name }
        ensures broken { IsErrOf result AppendFault.Broken ↔ (self.old.is_broken ≡ true) }
        ensures breaks { self.new.is_broken ≡ is_err result }
        ensures untouched { self.old.is_broken ≡ true → self.new.disk.now ≡ self.old.disk.now }
        ensures count { OnOk result (self.new.count ≡ self.old.count + 1) }
        ensures same_count { OnErr result (self.new.count ≡ self.old.count) }
        ensures stored { OnOk result (GainsRecord (D.told self.old.disk.now)
            (D.told self.new.disk.now) body.now) }
        ensures acknowledged { OnOk result (WhereTold (D.told self.old.disk.now).holds
            (λ bytes. (image : List ℕ)
            → (D.told self.new.disk.now).images image → StandsFor (records_of bytes ++ body.now ∷ []) image)) }
        ensures any_moment { self.old.is_broken ≡ false
            → WhereTold (D.told self.old.disk.now).holds (λ bytes.
            LeavesOnly (D.told self.old.disk.now) (D.told self.new.disk.now)
            (IsWithOrWithout (records_of bytes) body.now)) }
        ensures course { GoesOn 4 2 (D.told self.old.disk.now) (D.told self.new.disk.now) }
        ensures synced { OnOk result (WhereTold (D.told self.old.disk.now).holds (λ _.
            EndsSynced 2 (D.told self.old.disk.now) (D.told self.new.disk.now))) }
        ensures unsynced { OnErr result (WhereTold (D.told self.old.disk.now).holds (λ _.
            (D.told self.new.disk.now).syncs ≤ (D.told self.old.disk.now).syncs + 1)) }
        ensures disk { IsErrOf result AppendFault.Disk
            → Rose (D.told self.old.disk.now).faults (D.told self.new.disk.now).faults }
        ensures healthy { (IsErrOf result AppendFault.Disk → ⊥)
            → (D.told self.new.disk.now).faults ≡ (D.told self.old.disk.now).faults }
    {
        if self.is_broken {
            return Err(AppendFault::Broken);
        }
        self.is_broken = true;
        fill(&mut self.room, body);
        append_at(self.disk, self.place, &self.room, body)?;
        self.place += 5 + body.len() as u64;
        self.count += 1;
        self.is_broken = false;
        Ok(())
    }
}
