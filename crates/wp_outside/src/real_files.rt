ghost use Rattle.std.specs.Prelude.{◌≡◌, ◌≤◌, ◌+◌, ◌⊎◌, vec_len, IfOk, IfSome, IsErrOf};
ghost use Rattle.wp_model.specs.Limits.{most_file_bytes};
ghost use Rattle.wp_outside.specs.Outside.{IsTooLong, SameBytes};

use crate::count::Count;
use crate::files::{FileFault, Files};
use crate::opener::Opens;
use std::alloc::{AllocError, Global};
use std::marker::Model;
use wp_model::MOST_FILE_BYTES;

/// How many bytes one read asks for.
const PIECE_BYTES: usize = 65_536;

/// Files that are opened by their names, as those of the system, how often reading one failed, and how many reads there
/// were. They tell their bytes where the opener does.
#[derive(Drop)]
pub struct RealFiles<O: Opens + Drop> {
    opener: O,
    faults: Count,
    reads: Count,
}

impl<O: Opens + Drop> Model for RealFiles<O> {
    ghost use Rattle.wp_outside.specs.Devices.{Opened};

    ghost Value = { Opened O };

    ghost view = { λ s. record { opener = s.opener; faults = s.faults; reads = s.reads } };
}

impl<O: Opens + Drop> RealFiles<O> {
    /// The files that this opener opens. None was read yet.
    pub fn new(opener: O) -> RealFiles<O>
        ensures { result ≡ record { opener = opener; faults = 0; reads = 0 } }
    {
        RealFiles {
            opener,
            faults: Count::zero(),
            reads: Count::zero(),
        }
    }
}

impl<O: Opens + Drop> Files for RealFiles<O> {
    ghost told = { λ s. record { holds = O.holds s.opener; faults = λ _. s.faults; reads = s.reads } };

    /// Each failure counts once, for all names, and nothing else does. It comes only where the opener failed at this
    /// very name. Nothing is opened or read after that: the opener fails at most once, and not at all where bytes are
    /// answered.
    fn read(&mut self, alloc: Global, name: &str) -> Result<Vec<u8>, FileFault>
        ensures cause { IsErrOf result FileFault.Failed
            → O.faults self.new.opener name.now ≡ O.faults self.old.opener name.now + 1 }
        ensures at_most { O.faults self.new.opener name.now
            ≤ O.faults self.old.opener name.now + 1 }
        ensures sound { (IsErrOf result FileFault.Failed → ⊥)
            → (IsErrOf result FileFault.Memory → ⊥)
            → O.faults self.new.opener name.now ≡ O.faults self.old.opener name.now }
        ensures counted { IsErrOf result FileFault.Failed → self.new.faults ≡ self.old.faults + 1 }
        ensures uncounted { (IsErrOf result FileFault.Failed → ⊥)
            → self.new.faults ≡ self.old.faults }

        ensures bytes { IfOk result (λ read.
            IfSome (O.holds self.old.opener name.now) (λ told. read.items ≡ told)) }
        ensures same { SameBytes (O.holds self.old.opener) (O.holds self.new.opener) }
        ensures too_long { IsErrOf result FileFault.TooLong
            → IfSome (O.holds self.old.opener name.now) IsTooLong }
        ensures long { IfSome (O.holds self.old.opener name.now) (λ told.
            IsTooLong told
            → self.new.faults ≡ self.old.faults
            → IsErrOf result FileFault.TooLong ⊎ IsErrOf result FileFault.Memory) }
        ensures once { (IsErrOf result FileFault.Memory → ⊥) → self.new.reads ≡ self.old.reads + 1 }
        ensures least { self.old.reads ≤ self.new.reads }
        ensures most { self.new.reads ≤ self.old.reads + 1 }
    {
        self.reads.raise()?;
        let answer = open_and_read(&mut self.opener, alloc, name);
        if let Err(FileFault::Failed) = answer {
            self.faults.raise()?;
        }
        answer
    }
}

fn open_and_read<O: Opens>(opener: &mut O, alloc: Global, name: &str) -> Result<Vec<u8>, FileFault>
    ensures bytes { IfOk result (λ bytes.
        IfSome (O.holds opener.old name.now) (λ told. bytes.items ≡ told)) }
    ensures fits { IfOk result (λ bytes. vec_len bytes ≤ most_file_bytes) }
    ensures too_long { IsErrOf result FileFault.TooLong
        → IfSome (O.holds opener.old name.now) IsTooLong }
    ensures same { SameBytes (O.holds opener.old) (O.holds opener.new) }
    ensures counted { IsErrOf result FileFault.Failed
        → O.faults opener.new name.now ≡ O.faults opener.old name.now + 1 }
    ensures uncounted { (IsErrOf result FileFault.Failed → ⊥)
        → O.faults opener.new name.now ≡ O.faults opener.old name.now }
{
    let mut file = opener.open(name)?;
    read_to_limit(opener, alloc, name, &mut file)
}

/// The bytes up to the end. No more are read than the first byte that is too many.
fn read_to_limit<O: Opens>(
    opener: &mut O,
    alloc: Global,
    name: &str,
    file: &mut O::File,
) -> Result<Vec<u8>, FileFault>
    ensures bytes { IfOk result (λ bytes.
        IfSome (O.File.remaining file.old) (λ told. bytes.items ≡ told)) }
    ensures fits { IfOk result (λ bytes. vec_len bytes ≤ most_file_bytes) }
    ensures too_long { IsErrOf result FileFault.TooLong
        → IfSome (O.File.remaining file.old) IsTooLong }
    ensures same { SameBytes (O.holds opener.old) (O.holds opener.new) }
    ensures counted { IsErrOf result FileFault.Failed
        → O.faults opener.new name.now ≡ O.faults opener.old name.now + 1 }
    ensures uncounted { (IsErrOf result FileFault.Failed → ⊥)
        → O.faults opener.new name.now ≡ O.faults opener.old name.now }
{
    let mut bytes = Vec::new(alloc);
    let mut piece = room_for_a_piece(alloc)?;
    while bytes.len() <= MOST_FILE_BYTES {
        let room = PIECE_BYTES.min(MOST_FILE_BYTES + 1 - bytes.len());
        let part = &mut piece[..room];
        let count = opener.read(name, file, part)?;
        if count == 0 {
            return Ok(bytes);
        }
        bytes.extend_from_slice(&part[..count])?;
    }
    Err(FileFault::TooLong)
}

fn room_for_a_piece(alloc: Global) -> Result<Vec<u8>, AllocError>
    ensures { IfOk result (λ piece. vec_len piece ≡ PIECE_BYTES) }
{
    vec![in alloc; 0u8; PIECE_BYTES]
}
