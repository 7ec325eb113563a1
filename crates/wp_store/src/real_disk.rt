ghost use Rattle.std.specs.Prelude.{◌≡◌, ◌+◌, ◌≤◌, ◌↔◌, length, take, is_some, option_map, vec_len, IfOk, OnOk, OnErr};
ghost use Rattle.std.specs.Prelude.{IsErrOf};
ghost use Rattle.wp_store.specs.Disk.{WhereTold, IsTooLong, written_over, Torn, Cut, Stays, Only, OneCall, NoSync};
ghost use Rattle.wp_store.specs.Disk.{OneSync, one_more};
ghost use Rattle.wp_store.specs.DiskFile.{AsOneCall, over_told, recounted};
ghost use Rattle.wp_store.specs.Records.{most_store_bytes};

use crate::disk::{Disk, DiskFailed, DiskFault};
use crate::disk_file::DiskFile;
use crate::records::MOST_STORE_BYTES;
use std::alloc::{AllocError, Global};
use std::marker::Model;

/// How many bytes one read asks for.
const PIECE_BYTES: usize = 65_536;

/// A disk over a file, as that of the system. It tells what the file tells, and counts its own calls.
#[derive(Drop)]
pub struct RealDisk<F: DiskFile + Drop> {
    file: F,
    calls: u64,
}

impl<F: DiskFile + Drop> Model for RealDisk<F> {
    ghost use Rattle.wp_store.specs.DiskFile.{OverFile};

    ghost Value = { OverFile F };

    ghost view = { λ s. record { file = s.file; calls = s.calls } };
}

impl<F: DiskFile + Drop> RealDisk<F> {
    /// A disk over this file, which wasn't called yet.
    pub fn new(file: F) -> RealDisk<F>
        ensures { result ≡ record { file = file; calls = 0 } }
    {
        RealDisk { file, calls: 0 }
    }

    // One call more. A count at its end stands.
    fn count(&mut self)
        ensures { self.new ≡ record self.old { calls = one_more self.old.calls } }
    {
        self.calls = self.calls.saturating_add(1);
    }
}

impl<F: DiskFile + Drop> Disk for RealDisk<F> {
    ghost told = { over_told F.told };

    ghost is_disk = { λ disk. recounted (F.told disk.file) disk.calls (F.is_disk disk.file) };

    /// No more than `MOST_STORE_BYTES` and one byte are read. It fails as soon as a call of the file does, which is
    /// then the last: the file's count of faults is the disk's, and rises by one.
    fn read(&mut self, alloc: Global) -> Result<Vec<u8>, DiskFault>
        ensures most { (IsErrOf result DiskFault.Failed → ⊥)
            → WhereTold (F.told self.old.file).holds (λ _.
            F.position self.new.file ≤ most_store_bytes + 1) }
        ensures failed { IsErrOf result DiskFault.Failed
            → (F.told self.new.file).faults ≡ one_more (F.told self.old.file).faults }
        ensures sound { (IsErrOf result DiskFault.Failed → ⊥)
            → (F.told self.new.file).faults ≡ (F.told self.old.file).faults }

        ensures bytes { IfOk result (λ read. WhereTold (F.told self.old.file).holds
            (λ bytes. read.items ≡ bytes)) }
        ensures same { (F.told self.new.file).holds ≡ (F.told self.old.file).holds }
        ensures too_long { IsErrOf result DiskFault.TooLong
            → WhereTold (F.told self.old.file).holds IsTooLong }
        ensures short { OnOk result (WhereTold (F.told self.old.file).holds
            (λ bytes. IsTooLong bytes → ⊥)) }
        ensures calls { OneCall Stays (over_told F.told self.old) (over_told F.told self.new) }
        ensures unsynced { (F.told self.new.file).syncs ≡ (F.told self.old.file).syncs }
    {
        self.count();
        read_whole(&mut self.file, alloc)
    }

    /// It fails as soon as a call of the file does, which is then the last.
    fn write_at(&mut self, place: u64, piece: &[u8]) -> Result<(), DiskFailed>
        requires { WhereTold (F.told self.old.file).holds (λ bytes. place ≤ length bytes) }
        ensures failed { OnErr result ((F.told self.new.file).faults
            ≡ one_more (F.told self.old.file).faults) }
        ensures sound { OnOk result ((F.told self.new.file).faults
            ≡ (F.told self.old.file).faults) }

        ensures written { OnOk result
            ((F.told self.new.file).holds ≡ option_map (written_over place piece.now) (F.told self.old.file).holds) }
        ensures calls { OneCall (Torn place (length piece.now))
            (over_told F.told self.old) (over_told F.told self.new) }
        ensures unsynced { (F.told self.new.file).syncs ≡ (F.told self.old.file).syncs }
    {
        self.count();
        write_there(&mut self.file, place, piece)
    }

    /// The file is called once, and fails where the disk does.
    fn cut(&mut self, size: u64) -> Result<(), DiskFailed>
        requires { WhereTold (F.told self.old.file).holds (λ bytes. size ≤ length bytes) }
        ensures failed { OnErr result ((F.told self.new.file).faults
            ≡ one_more (F.told self.old.file).faults) }
        ensures sound { OnOk result ((F.told self.new.file).faults
            ≡ (F.told self.old.file).faults) }
        ensures once { (F.told self.new.file).calls ≡ one_more (F.told self.old.file).calls }

        ensures written { OnOk result
            ((F.told self.new.file).holds ≡ option_map (take size) (F.told self.old.file).holds) }
        ensures calls { OneCall (Cut size) (over_told F.told self.old) (over_told F.told self.new) }
        ensures unsynced { (F.told self.new.file).syncs ≡ (F.told self.old.file).syncs }
    {
        self.count();
        self.file.cut(size)
    }

    /// The file is called once, and fails where the disk does.
    fn sync(&mut self) -> Result<(), DiskFailed>
        ensures failed { OnErr result ((F.told self.new.file).faults
            ≡ one_more (F.told self.old.file).faults) }
        ensures sound { OnOk result ((F.told self.new.file).faults
            ≡ (F.told self.old.file).faults) }
        ensures once { (F.told self.new.file).calls ≡ one_more (F.told self.old.file).calls }

        ensures same { OnOk result ((F.told self.new.file).holds ≡ (F.told self.old.file).holds) }
        ensures durable { OnOk result (WhereTold (F.told self.old.file).holds (λ bytes.
            Only bytes (F.told self.new.file).images)) }
        ensures calls { OneCall Stays (over_told F.told self.old) (over_told F.told self.new) }
        ensures synced { OnOk result (WhereTold (F.told self.old.file).holds (λ _.
            OneSync (over_told F.told self.old) (over_told F.told self.new))) }
        ensures unsynced { OnErr result ((F.told self.new.file).syncs
            ≡ (F.told self.old.file).syncs) }
    {
        self.count();
        self.file.sync()
    }
}

/// All the bytes, unless they are too many. No more are read than the first that is too many.
fn read_whole<F: DiskFile>(file: &mut F, alloc: Global) -> Result<Vec<u8>, DiskFault>
    ensures bytes { IfOk result (λ read. WhereTold (F.told file.old).holds
        (λ bytes. read.items ≡ bytes)) }
    ensures fits { IfOk result (λ read. vec_len read ≤ most_store_bytes) }
    ensures too_long { IsErrOf result DiskFault.TooLong
        → WhereTold (F.told file.old).holds IsTooLong }
    ensures most { (IsErrOf result DiskFault.Failed → ⊥) → WhereTold (F.told file.old).holds (λ _.
        F.position file.new ≤ most_store_bytes + 1) }
    ensures same { (F.told file.new).holds ≡ (F.told file.old).holds }
    ensures calls { WhereTold (F.told file.old).holds
        (λ _. AsOneCall Stays (F.told file.old) (F.told file.new)) }
    ensures failed { IsErrOf result DiskFault.Failed
        → (F.told file.new).faults ≡ one_more (F.told file.old).faults }
    ensures sound { (IsErrOf result DiskFault.Failed → ⊥)
        → (F.told file.new).faults ≡ (F.told file.old).faults }
{
    file.seek(0)?;
    read_to_limit(file, alloc)
}

/// The bytes from the next on, unless they are too many.
fn read_to_limit<F: DiskFile>(file: &mut F, alloc: Global) -> Result<Vec<u8>, DiskFault>
    requires { WhereTold (F.told file.old).holds (λ _. F.position file.old ≡ 0) }
    ensures bytes { IfOk result (λ read. WhereTold (F.told file.old).holds
        (λ bytes. read.items ≡ bytes)) }
    ensures fits { IfOk result (λ read. vec_len read ≤ most_store_bytes) }
    ensures too_long { IsErrOf result DiskFault.TooLong
        → WhereTold (F.told file.old).holds IsTooLong }
    ensures most { WhereTold (F.told file.old).holds
        (λ _. F.position file.new ≤ most_store_bytes + 1) }
    ensures same { (F.told file.new).holds ≡ (F.told file.old).holds }
    ensures calls { WhereTold (F.told file.old).holds
        (λ _. AsOneCall Stays (F.told file.old) (F.told file.new)) }
    ensures failed { IsErrOf result DiskFault.Failed
        → (F.told file.new).faults ≡ one_more (F.told file.old).faults }
    ensures sound { (IsErrOf result DiskFault.Failed → ⊥)
        → (F.told file.new).faults ≡ (F.told file.old).faults }
{
    let mut bytes = Vec::new(alloc);
    let mut piece = room_for_a_piece(alloc)?;
    while bytes.len() <= MOST_STORE_BYTES {
        let room = PIECE_BYTES.min(MOST_STORE_BYTES + 1 - bytes.len());
        let part = &mut piece[..room];
        let count = file.read(part)?;
        if count == 0 {
            return Ok(bytes);
        }
        bytes.extend_from_slice(&part[..count])?;
    }
    Err(DiskFault::TooLong)
}

fn room_for_a_piece(alloc: Global) -> Result<Vec<u8>, AllocError>
    ensures { IfOk result (λ piece. vec_len piece ≡ PIECE_BYTES) }
{
    vec![in alloc; 0u8; PIECE_BYTES]
}

/// Writes a piece over what stands at a place, and past the end.
fn write_there<F: DiskFile>(file: &mut F, place: u64, piece: &[u8]) -> Result<(), DiskFailed>
    requires { WhereTold (F.told file.old).holds (λ bytes. place ≤ length bytes) }
    ensures written { OnOk result
        ((F.told file.new).holds ≡ option_map (written_over place piece.now) (F.told file.old).holds) }
    ensures told { is_some (F.told file.new).holds ≡ is_some (F.told file.old).holds }
    ensures calls { WhereTold (F.told file.old).holds (λ _.
        AsOneCall (Torn place (length piece.now)) (F.told file.old) (F.told file.new)) }
    ensures failed { OnErr result ((F.told file.new).faults ≡ one_more (F.told file.old).faults) }
    ensures sound { OnOk result ((F.told file.new).faults ≡ (F.told file.old).faults) }
{
    file.seek(place)?;
    write_whole(file, piece)
}

/// Writes a piece over what stands next, in as many calls as the file wants.
fn write_whole<F: DiskFile>(file: &mut F, piece: &[u8]) -> Result<(), DiskFailed>
    requires { WhereTold (F.told file.old).holds (λ bytes. F.position file.old ≤ length bytes) }
    ensures written { OnOk result
        ((F.told file.new).holds ≡ option_map (written_over (F.position file.old) piece.now) (F.told file.old).holds) }
    ensures told { is_some (F.told file.new).holds ≡ is_some (F.told file.old).holds }
    ensures calls { WhereTold (F.told file.old).holds (λ _.
        AsOneCall (Torn (F.position file.old) (length piece.now)) (F.told file.old) (F.told file.new)) }
    ensures failed { OnErr result ((F.told file.new).faults ≡ one_more (F.told file.old).faults) }
    ensures sound { OnOk result ((F.told file.new).faults ≡ (F.told file.old).faults) }
{
    let mut done = 0;
    while done < piece.len() {
        done += file.write(&piece[done..])?;
    }
    Ok(())
}
