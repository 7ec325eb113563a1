ghost use Rattle.std.specs.Prelude.{◌≡◌, ◌+◌, ◌≤◌, ◌++◌, [], Some, true, false, length, vec_len, IfOk, OnOk, OnErr};
ghost use Rattle.std.specs.Prelude.{IsErrOf};
ghost use Rattle.wp_model.specs.Limits.{most_file_bytes};
ghost use Rattle.wp_outside.specs.Outside.{IsTooLong};
ghost use Rattle.wp_outside.specs.InMemory.{files_of, bytes_or_empty};

use crate::count::Count;
use crate::errors::Errors;
use crate::files::{FileFault, Files};
use crate::shelf::{Shelf, whole_copy};
use crate::sink::{Sink, SinkFault};
use std::alloc::Global;
use std::marker::Model;

/// Files and a sink in memory that never fail: their count of faults is the constant 0. Of equal
/// names the first holds. An unknown name holds no bytes.
#[derive(Drop)]
pub struct NeverFails {
    shelf: Shelf,
    reads: Count,
    bytes: Vec<u8>,
    errors: Errors,
}

impl Model for NeverFails {
    ghost use Rattle.wp_outside.specs.InMemory.{BothInMemory};

    ghost Value = { BothInMemory };

    ghost view = { λ s. record { files = s.shelf; reads = s.reads; taken = s.bytes.items; errors = s.errors } };
}

impl NeverFails {
    /// Each name holds the content beside it. Nothing was read or taken yet.
    pub fn of(alloc: Global, names: Vec<String>, contents: Vec<Vec<u8>>) -> NeverFails
        requires { vec_len contents ≡ vec_len names }
        ensures files { result.files ≡ files_of names.items contents.items }
        ensures reads { result.reads ≡ 0 }
        ensures taken { result.taken ≡ [] }
        ensures errors { result.errors ≡ record { stopped = false; late = false } }
    {
        NeverFails {
            shelf: Shelf::of(names, contents),
            reads: Count::zero(),
            bytes: Vec::new(alloc),
            errors: Errors::none(),
        }
    }

    /// The bytes that it took.
    pub fn taken(&self) -> &[u8]
        ensures { result.now ≡ self.now.taken }
    {
        self.bytes.as_slice()
    }
}

impl Files for NeverFails {
    ghost told = { λ s. record {
      holds = λ name. Some
          (bytes_or_empty s.files name);
      faults = λ _. 0;
      reads = s.reads;
    } };

    /// A read is refused only where the file is too long or memory is wanting. It is counted, unless its count is at
    /// its end, and changes nothing else.
    fn read(&mut self, alloc: Global, name: &str) -> Result<Vec<u8>, FileFault>
        ensures bytes { IfOk result (λ read. read.items ≡ bytes_or_empty self.old.files name.now) }
        ensures fits { OnOk result
            (length (bytes_or_empty self.old.files name.now) ≤ most_file_bytes) }
        ensures too_long { IsErrOf result FileFault.TooLong
            → IsTooLong (bytes_or_empty self.old.files name.now) }
        ensures no_fault { ¬ IsErrOf result FileFault.Failed }
        ensures once { (IsErrOf result FileFault.Memory → ⊥) → self.new.reads ≡ self.old.reads + 1 }
        ensures least { self.old.reads ≤ self.new.reads }
        ensures most { self.new.reads ≤ self.old.reads + 1 }
        ensures files { self.new.files ≡ self.old.files }
        ensures taken { self.new.taken ≡ self.old.taken }
        ensures errors { self.new.errors ≡ self.old.errors }
    {
        self.reads.raise()?;
        match self.shelf.bytes_of(name) {
            Some(bytes) => whole_copy(alloc, bytes),
            None => Ok(Vec::new(alloc)),
        }
    }
}

impl Sink for NeverFails {
    ghost told = { λ s. record { taken = Some s.taken; faults = 0; stopped = s.errors.stopped; late = s.errors.late } };

    /// It takes the whole piece, unless memory is wanting. The files stay as they were.
    fn write(&mut self, piece: &[u8]) -> Result<usize, SinkFault>
        ensures whole { IfOk result (λ n. n ≡ length piece.now) }
        ensures takes { OnOk result (self.new.taken ≡ self.old.taken ++ piece.now) }
        ensures empty { length piece.now ≡ 0 → result ≡ Ok 0 }
        ensures memory { OnErr result (self.new.taken ≡ self.old.taken) }
        ensures no_fault { ¬ IsErrOf result SinkFault.Failed }
        ensures files { self.new.files ≡ self.old.files }
        ensures reads { self.new.reads ≡ self.old.reads }
        ensures sound { OnOk result (self.new.errors.stopped ≡ self.old.errors.stopped) }
        ensures stopped { OnErr result (self.new.errors.stopped ≡ true) }
        ensures early { self.old.errors.stopped ≡ false
            → self.new.errors.late ≡ self.old.errors.late }
        ensures late { self.old.errors.stopped ≡ true → self.new.errors.late ≡ true }
    {
        let answer = take_whole(&mut self.bytes, piece);
        self.errors.note(answer.is_err());
        answer
    }
}

fn take_whole(bytes: &mut Vec<u8>, piece: &[u8]) -> Result<usize, SinkFault>
    ensures whole { IfOk result (λ n. n ≡ length piece.now) }
    ensures takes { OnOk result (bytes.new.items ≡ bytes.old.items ++ piece.now) }
    ensures empty { length piece.now ≡ 0 → result ≡ Ok 0 }
    ensures memory { OnErr result (bytes.new.items ≡ bytes.old.items) }
    ensures no_fault { ¬ IsErrOf result SinkFault.Failed }
{
    bytes.extend_from_slice(piece)?;
    Ok(piece.len())
}
