ghost use Rattle.std.specs.Prelude.{◌≡◌, ◌≢◌, ◌+◌, ℕ, List, Option, Some, None, IfOk, IfErr, IfSome, IsErr, IsErrOf};
ghost use Rattle.std.specs.Io.{ReadsAtMost};
ghost use Rattle.std.specs.Io.KnownBytes.{ReadConsumes};
ghost use Rattle.std.specs.IoError.{error_kind};
ghost use Rattle.wp_outside.specs.Outside.{NoneFalls, SameBytes, IsToldAs};
ghost use Rattle.wp_outside.specs.declared.files.FileFault.TheVariants.{Failed, Memory as MemoryFault, TooLong};

use crate::count::Count;
use crate::files::FileFault;
use std::io::Read;
use std::marker::Model;
use std::rt::Files as FileSystem;
use std::{fs, io};

/// Where files are opened by their names and read piece by piece.
pub trait Opens {
    type File: Read + Drop;

    /// The bytes that each name holds, by the bytes of the name. `None` where they are not told.
    ghost holds: { Self → List ℕ → Option (List ℕ) };

    /// How often opening and reading failed, for each name. One number may serve for all names.
    ghost faults: { Self → List ℕ → ℕ };

    /// The file of this very name, before its first byte. The count of this name rises by one with `Failed`, and with
    /// nothing else.
    fn open(&mut self, name: &str) -> Result<Self::File, FileFault>
        ensures file { IfOk result (λ file.
            IfSome (holds self.old name.now) (λ told. Self.File.remaining file ≡ Some told)) }
        ensures same { SameBytes (holds self.old) (holds self.new) }
        ensures counts { NoneFalls (faults self.old) (faults self.new) }
        ensures counted { IsErrOf result FileFault.Failed
            → faults self.new name.now ≡ faults self.old name.now + 1 }
        ensures uncounted { (IsErrOf result FileFault.Failed → ⊥)
            → faults self.new name.now ≡ faults self.old name.now }
        ensures short { ¬ IsErrOf result FileFault.TooLong };

    /// Reads the next bytes of a file that was opened under this name, and answers how many: none at its end. The
    /// count of this name rises by one with `Failed`, and with nothing else.
    fn read(
        &mut self,
        name: &str,
        file: &mut Self::File,
        piece: &mut [u8],
    ) -> Result<usize, FileFault>
        ensures bound { ReadsAtMost result piece.new }
        ensures bytes { ReadConsumes (Self.File.remaining file.old)
            (Self.File.remaining file.new) result piece.new }
        ensures same { SameBytes (holds self.old) (holds self.new) }
        ensures counts { NoneFalls (faults self.old) (faults self.new) }
        ensures counted { IsErrOf result FileFault.Failed
            → faults self.new name.now ≡ faults self.old name.now + 1 }
        ensures uncounted { (IsErrOf result FileFault.Failed → ⊥)
            → faults self.new name.now ≡ faults self.old name.now }
        ensures short { ¬ IsErrOf result FileFault.TooLong };
}

/// The files that a runtime opens, and how often that failed. They tell nothing else, and contracts see that number.
#[derive(Drop)]
pub struct SystemFiles<'a, R: FileSystem> {
    rt: &'a R,
    faults: Count,
}

impl<'a, R: FileSystem> Model for SystemFiles<'a, R> {
    ghost use Rattle.std.specs.Prelude.{ℕ};

    ghost Value = { ℕ };

    ghost view = { λ s. s.faults };
}

impl<'a, R: FileSystem> SystemFiles<'a, R> {
    /// The files of this runtime, of which none has failed yet.
    pub fn of(rt: &'a R) -> SystemFiles<'a, R>
        ensures { result ≡ 0 }
    {
        SystemFiles {
            rt,
            faults: Count::zero(),
        }
    }
}

impl<'a, R: FileSystem> Opens for SystemFiles<'a, R> {
    type File = R::File;

    ghost holds = { λ _ _. None };

    ghost faults = { λ s _. s };

    fn open(&mut self, name: &str) -> Result<R::File, FileFault> {
        answer_of(&mut self.faults, fs::open(self.rt, name))
    }

    fn read(
        &mut self,
        _name: &str,
        file: &mut R::File,
        piece: &mut [u8],
    ) -> Result<usize, FileFault> {
        answer_of(&mut self.faults, file.read(piece))
    }
}

// What a call of the system answers, whose error is told as it is to be.
fn answer_of<T>(faults: &mut Count, answer: io::Result<T>) -> Result<T, FileFault>
    ensures given { IfOk answer (λ value. (result ≡ Ok value) × (faults.new ≡ faults.old)) }
    ensures fault { IfErr answer (λ error.
        IfErr result (IsToldAs Failed MemoryFault (error_kind error) faults.old faults.new)) }
    ensures refused { IfErr answer (λ _. IsErr result) }
    ensures counted { IsErrOf result FileFault.Failed → faults.new ≡ faults.old + 1 }
    ensures uncounted { (IsErrOf result FileFault.Failed → ⊥) → faults.new ≡ faults.old }
    ensures short { ¬ IsErrOf result FileFault.TooLong }
{
    match answer {
        Ok(value) => Ok(value),
        Err(error) => Err(fault_of(faults, &error)),
    }
}

fn fault_of(faults: &mut Count, error: &io::Error) -> FileFault
    ensures told { IsToldAs Failed MemoryFault (error_kind error.now) faults.old faults.new result }
    ensures counted { result ≡ Failed → faults.new ≡ faults.old + 1 }
    ensures uncounted { (result ≡ Failed → ⊥) → faults.new ≡ faults.old }
    ensures short { result ≢ TooLong }
{
    if error.kind() == io::ErrorKind::OutOfMemory {
        return FileFault::Memory;
    }
    match faults.raise() {
        Ok(()) => FileFault::Failed,
        Err(_) => FileFault::Memory,
    }
}
