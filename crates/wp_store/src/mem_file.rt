ghost use Rattle.std.specs.Prelude.{◌≡◌, ◌-◌, ◌<◌, ◌≤◌, [], None, length, take, drop, vec_len, IfOk};
ghost use Rattle.wp_store.specs.DiskFile.{mem_file_told};
ghost use Rattle.wp_store.specs.Moments.{mem_is_disk};

use crate::disk::{Disk, DiskFailed, DiskFault};
use crate::disk_file::DiskFile;
use crate::mem_disk::MemDisk;
use std::alloc::Global;
use std::marker::Model;
use wp_model::Memory;

/// What a file in memory has room for.
#[derive(Clone, Copy)]
pub struct FileRoom {
    /// The most bytes that it may have.
    pub size: u64,
    /// How often it may be called.
    pub calls: u32,
    /// How many bytes one call reads or writes at most. Where that is 0, it is one.
    pub most: usize,
}

/// A file in memory, which fails as it is told, and tells all. Its bytes stand on a disk in memory. It reads and
/// writes no more than so many bytes a call, as a file of the system may.
#[derive(Drop)]
pub struct MemFile {
    disk: MemDisk,
    alloc: Global,
    room: FileRoom,
    position: u64,
}

impl Model for MemFile {
    ghost use Rattle.std.specs.Prelude.{◌≡◌};
    ghost use Rattle.wp_store.specs.DiskFile.{FileInMemory};

    ghost Value = { FileInMemory };

    ghost view = { λ s. record { disk = s.disk; position = s.position } };

    ghost invariant = { λ s. s.disk.calls.size ≡ s.room.size };
}

impl MemFile {
    /// A file that holds these bytes, before the first of them. A call past its room fails, and so do the calls whose
    /// numbers, counted from 1, stand in `fails`.
    pub fn new(
        alloc: Global,
        bytes: Vec<u8>,
        room: FileRoom,
        fails: Vec<u64>,
    ) -> Result<MemFile, Memory>
        requires { vec_len bytes ≤ room.size }
        ensures bytes { IfOk result (λ file. file.disk.first ≡ bytes.items) }
        ensures done { IfOk result (λ file. file.disk.done ≡ []) }
        ensures calls { IfOk result (λ file. file.disk.calls
            ≡ record { fails = fails.items; stop = None; most = room.calls; size = room.size; made = 0; faults = 0 }) }
        ensures position { IfOk result (λ file. file.position ≡ 0) }
    {
        let disk = MemDisk::new(alloc, bytes, room.size, room.calls, fails, None)?;
        Ok(MemFile {
            disk,
            alloc,
            room,
            position: 0,
        })
    }
}

impl DiskFile for MemFile {
    ghost told = { mem_file_told };

    ghost position = { λ file. file.position };

    ghost is_disk = { λ file. mem_is_disk file.disk };

    ghost counts_alone = { λ _ untold. absurd (cc (untold)) };

    #[tactic(auto, using(crate::proofs::InFile::read_file_call))]
    fn seek(&mut self, place: u64) -> Result<(), DiskFailed> {
        match self.disk.read(self.alloc) {
            Err(DiskFault::Failed) => Err(DiskFailed),
            _ => {
                self.position = place;
                Ok(())
            }
        }
    }

    #[tactic(auto, using(crate::proofs::InFile::read_file_call))]
    fn read(&mut self, piece: &mut [u8]) -> Result<usize, DiskFault> {
        if let Err(DiskFault::Failed) = self.disk.read(self.alloc) {
            return Err(DiskFault::Failed);
        }
        let Ok(bytes) = self.disk.image(self.alloc, true) else {
            return Err(DiskFault::Memory);
        };
        let count = copy_from(&bytes, self.position, piece, self.room.most.max(1));
        self.position += count as u64;
        Ok(count)
    }

    fn write(&mut self, piece: &[u8]) -> Result<usize, DiskFailed> {
        let count = piece.len().min(self.room.most.max(1));
        self.disk.write_at(self.position, &piece[..count])?;
        self.position += count as u64;
        Ok(count)
    }

    #[tactic(auto, using(crate::proofs::InFile::cut_file_call))]
    fn cut(&mut self, size: u64) -> Result<(), DiskFailed> {
        self.disk.cut(size)
    }

    fn sync(&mut self) -> Result<(), DiskFailed> {
        self.disk.sync()
    }
}

// Copies bytes from a place on into a piece, so many at most, and answers how many.
fn copy_from(bytes: &[u8], place: u64, piece: &mut [u8], most: usize) -> usize
    requires { 0 < most }
    ensures within { result ≤ length piece.new }
    ensures left { result ≤ length bytes.now - place }
    ensures copied { take result piece.new ≡ take result (drop place bytes.now) }
    ensures end { result ≡ 0 → 0 < length piece.new → length bytes.now ≤ place }
{
    let start = bytes.len().min(place as usize);
    let rest = &bytes[start..];
    let count = rest.len().min(piece.len()).min(most);
    piece[..count].copy_from_slice(&rest[..count]);
    count
}
