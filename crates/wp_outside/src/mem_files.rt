ghost use Rattle.std.specs.Prelude.{◌≡◌, ◌↔◌, ◌⊎◌, ◌+◌, ◌≤◌, vec_len, IfOk, IfSome, IsTrue, IsErrOf};
ghost use Rattle.wp_outside.specs.Outside.{IsTooLong};
ghost use Rattle.wp_outside.specs.InMemory.{files_of, files_told, bytes_of, read_fails, after_read};

use crate::calls::Calls;
use crate::files::{FileFault, Files};
use crate::shelf::{Shelf, whole_copy};
use std::alloc::Global;
use std::marker::Model;

/// Files in memory, which fail as they are told. Of equal names the first holds. The reads whose
/// numbers, counted from 1, stand in a list fail, and so does each read of an unknown name. Each
/// failure counts, for all names at once.
#[derive(Drop)]
pub struct MemFiles {
    shelf: Shelf,
    calls: Calls,
}

impl Model for MemFiles {
    ghost use Rattle.wp_outside.specs.InMemory.{FilesInMemory};

    ghost Value = { FilesInMemory };

    ghost view = { λ s. record { files = s.shelf; calls = s.calls } };
}

impl MemFiles {
    /// Each name holds the content beside it, and the reads with these numbers are to fail. None was
    /// made yet.
    pub fn of(names: Vec<String>, contents: Vec<Vec<u8>>, fails: Vec<u64>) -> MemFiles
        requires { vec_len contents ≡ vec_len names }
        ensures files { result.files ≡ files_of names.items contents.items }
        ensures calls { result.calls ≡ record { fails = fails.items; made = 0; faults = 0 } }
    {
        MemFiles {
            shelf: Shelf::of(names, contents),
            calls: Calls::of(fails),
        }
    }
}

impl Files for MemFiles {
    ghost told = { files_told };

    /// A read fails exactly where its number says so or no file has the name, and each is counted.
    /// After 2^64 - 1 reads there is no number: none fails, and nothing is counted.
    fn read(&mut self, alloc: Global, name: &str) -> Result<Vec<u8>, FileFault>
        ensures planned { IsErrOf result FileFault.Failed ↔ IsTrue (read_fails self.old name.now) }
        ensures counted { self.new ≡ after_read self.old name.now }

        ensures bytes { IfOk result (λ read.
            IfSome (bytes_of self.old.files name.now) (λ told. read.items ≡ told)) }
        ensures too_long { IsErrOf result FileFault.TooLong
            → IfSome (bytes_of self.old.files name.now) (λ told.
            IsTooLong told × (self.new.calls.faults ≡ self.old.calls.faults)) }
        ensures long { IfSome (bytes_of self.old.files name.now) (λ told.
            IsTooLong told
            → self.new.calls.faults ≡ self.old.calls.faults
            → IsErrOf result FileFault.TooLong ⊎ IsErrOf result FileFault.Memory) }
        ensures once { (IsErrOf result FileFault.Memory → ⊥)
            → self.new.calls.made ≡ self.old.calls.made + 1 }
        ensures least { self.old.calls.made ≤ self.new.calls.made }
        ensures most { self.new.calls.made ≤ self.old.calls.made + 1 }
    {
        let held = self.shelf.bytes_of(name);
        let fails = self.calls.next_fails(held.is_none())?;
        match held {
            Some(bytes) if !fails => whole_copy(alloc, bytes),
            _ => Err(FileFault::Failed),
        }
    }
}
