ghost use Rattle.std.specs.Prelude.{◌≡◌, ◌≤◌, ◌↔◌, [], Some, length, is_err, vec_len, if◌then◌else◌, IsTrue, IfOk};
ghost use Rattle.std.specs.Prelude.{OnOk, OnErr, IsErrOf};
ghost use Rattle.wp_store.specs.Disk.{WhereTold, Rose, IsTooLong, Torn, Cut, Stays, OneCall, NoSync, OneSync};
ghost use Rattle.wp_store.specs.InMemory.{disk_bytes, kept_after, mem_told, after_write, after_cut, after_sync};
ghost use Rattle.wp_store.specs.InMemory.{after_read, write_fails, next_fails, IsImage};
ghost use Rattle.wp_store.specs.Moments.{mem_is_disk};

use crate::calls::DiskCalls;
use crate::disk::{Disk, DiskFailed, DiskFault};
use crate::done::{Done, Kind};
use crate::records::MOST_STORE_BYTES;
use crate::written::{keep, note, write_over};
use std::alloc::Global;
use std::marker::Model;
use std::snapshot::Snapshot;
use wp_model::Memory;

/// A disk in memory, which fails as it is told, and tells all that a disk tells. Its moments are counted by the writes,
/// cuts and syncs that were done. A call that fails changes nothing.
#[derive(Drop)]
pub struct MemDisk {
    first: Snapshot<Vec<u8>>,
    bytes: Vec<u8>,
    kept: Vec<u8>,
    done: Vec<Done>,
    calls: DiskCalls,
}

impl Model for MemDisk {
    ghost use Rattle.wp_store.specs.InMemory.{DiskInMemory, newest_first};
    ghost use Rattle.wp_store.specs.InMemory.{HasRoom};

    ghost Value = { DiskInMemory };

    ghost view = { λ s. record { first = s.first.value.items; done = newest_first s.done.items; calls = s.calls } };

    ghost invariant = { λ s. HasRoom s.first.value s.bytes s.kept s.done s.calls };
}

impl MemDisk {
    /// A disk that holds these bytes, with room for `size` bytes and `calls` calls. A call past either fails, and so do
    /// the calls whose numbers, counted from 1, stand in `fails`, and each call after the first `stop`, where that is
    /// given.
    pub fn new(
        alloc: Global,
        bytes: Vec<u8>,
        size: u64,
        calls: u32,
        fails: Vec<u64>,
        stop: Option<u64>,
    ) -> Result<MemDisk, Memory>
        requires { vec_len bytes ≤ size }
        ensures bytes { IfOk result (λ disk. disk.first ≡ bytes.items) }
        ensures done { IfOk result (λ disk. disk.done ≡ []) }
        ensures calls { IfOk result (λ disk. disk.calls
            ≡ record { fails = fails.items; stop = stop; most = calls; size = size; made = 0; faults = 0 }) }
    {
        let mut room = Vec::with_capacity(alloc, size as usize)?;
        let mut kept = Vec::with_capacity(alloc, size as usize)?;
        let done = Vec::with_capacity(alloc, calls as usize)?;
        let first = Snapshot::of(&bytes);
        keep(&mut room, &bytes);
        keep(&mut kept, &bytes);
        Ok(MemDisk {
            first,
            bytes: room,
            kept,
            done,
            calls: DiskCalls::of(fails, stop, calls, size),
        })
    }

    /// One of its images now: where `kept` is true the bytes that a read gives, else the bytes as they stood after the
    /// last sync, or before the first sync as the disk was made.
    #[tactic(auto, using(crate::proofs::Tearing::kept_is_image))]
    pub fn image(&self, alloc: Global, kept: bool) -> Result<Vec<u8>, Memory>
        ensures bytes { IfOk result (λ image. image.items
            ≡ (if kept then disk_bytes self.now else kept_after self.now.first self.now.done)) }
        ensures is_image { IfOk result (λ image. IsImage self.now.first self.now.done image.items) }
    {
        if kept {
            return Ok(self.bytes.to_vec(alloc)?);
        }
        Ok(self.kept.to_vec(alloc)?)
    }
}

impl Disk for MemDisk {
    ghost told = { mem_told };

    ghost is_disk = { mem_is_disk };

    /// A read fails exactly where the call is to fail, and changes no bytes.
    fn read(&mut self, alloc: Global) -> Result<Vec<u8>, DiskFault>
        ensures planned { IsErrOf result DiskFault.Failed ↔ IsTrue (next_fails self.old.calls) }
        ensures after { self.new ≡ after_read self.old }
        ensures bytes { IfOk result (λ read. read.items ≡ disk_bytes self.old) }
        ensures too_long { IsErrOf result DiskFault.TooLong
            → WhereTold (Some (disk_bytes self.old)) IsTooLong }
        ensures short { OnOk result (WhereTold (Some (disk_bytes self.old))
            (λ bytes. IsTooLong bytes → ⊥)) }
        ensures calls { OneCall Stays (mem_told self.old) (mem_told self.new) }
        ensures failed { IsErrOf result DiskFault.Failed
            → Rose self.old.calls.faults self.new.calls.faults }
        ensures sound { (IsErrOf result DiskFault.Failed → ⊥)
            → self.new.calls.faults ≡ self.old.calls.faults }
    {
        let fails = self.calls.next_fails();
        self.calls.count(fails);
        if fails {
            return Err(DiskFault::Failed);
        }
        if self.bytes.len() > MOST_STORE_BYTES {
            return Err(DiskFault::TooLong);
        }
        Ok(self.bytes.to_vec(alloc)?)
    }

    /// A write fails exactly where the call is to fail, or would make the file longer than there is room for.
    fn write_at(&mut self, place: u64, piece: &[u8]) -> Result<(), DiskFailed>
        requires { place ≤ length (disk_bytes self.old) }
        ensures planned { is_err result ≡ write_fails self.old place piece.now }
        ensures after { self.new ≡ after_write self.old place piece.now }
        ensures calls { OneCall (Torn place (length piece.now)) (mem_told self.old)
            (mem_told self.new) }
        ensures unsynced { NoSync (mem_told self.old) (mem_told self.new) }
        ensures failed { OnErr result (Rose self.old.calls.faults self.new.calls.faults) }
        ensures sound { OnOk result (self.new.calls.faults ≡ self.old.calls.faults) }
    {
        let fails = self.calls.next_fails() || piece.len() as u64 > self.calls.size() - place;
        if !fails {
            write_over(&mut self.bytes, place as usize, piece);
            note(
                &mut self.done,
                Kind::Wrote(place, piece.len() as u64),
                &self.bytes,
            );
        }
        self.calls.count(fails);
        answer(fails)
    }

    /// A cut fails exactly where the call is to fail.
    fn cut(&mut self, size: u64) -> Result<(), DiskFailed>
        ensures planned { is_err result ≡ next_fails self.old.calls }
        ensures after { self.new ≡ after_cut self.old size }
        ensures calls { OneCall (Cut size) (mem_told self.old) (mem_told self.new) }
        ensures unsynced { NoSync (mem_told self.old) (mem_told self.new) }
        ensures failed { OnErr result (Rose self.old.calls.faults self.new.calls.faults) }
        ensures sound { OnOk result (self.new.calls.faults ≡ self.old.calls.faults) }
    {
        let fails = self.calls.next_fails();
        if !fails {
            self.bytes.truncate(size as usize);
            note(&mut self.done, Kind::CutTo(size), &self.bytes);
        }
        self.calls.count(fails);
        answer(fails)
    }

    /// A sync fails exactly where the call is to fail.
    fn sync(&mut self) -> Result<(), DiskFailed>
        ensures planned { is_err result ≡ next_fails self.old.calls }
        ensures after { self.new ≡ after_sync self.old }
        ensures calls { OneCall Stays (mem_told self.old) (mem_told self.new) }
        ensures synced { OnOk result (OneSync (mem_told self.old) (mem_told self.new)) }
        ensures unsynced { OnErr result (NoSync (mem_told self.old) (mem_told self.new)) }
        ensures failed { OnErr result (Rose self.old.calls.faults self.new.calls.faults) }
        ensures sound { OnOk result (self.new.calls.faults ≡ self.old.calls.faults) }
    {
        let fails = self.calls.next_fails();
        if !fails {
            keep(&mut self.kept, &self.bytes);
            note(&mut self.done, Kind::Synced, &self.bytes);
        }
        self.calls.count(fails);
        answer(fails)
    }
}

fn answer(fails: bool) -> Result<(), DiskFailed>
    ensures { is_err result ≡ fails }
{
    if fails {
        return Err(DiskFailed);
    }
    Ok(())
}
