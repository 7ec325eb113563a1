ghost use Rattle.std.specs.Prelude.{◌≡◌, ◌+◌, ◌<◌, ◌≤◌, ℕ, List, Option, is_some, length, take, IfOk, IfErr, IsErr};
ghost use Rattle.std.specs.Prelude.{OnErr, IsErrOf, refl};
ghost use Rattle.std.specs.IoError.{error_kind};
ghost use Rattle.wp_outside.specs.Outside.{Grows, IsToldAs};
ghost use Rattle.wp_outside.specs.declared.sink.SinkFault.TheVariants.{Failed, Memory as MemoryFault};

use crate::count::Count;
use crate::sink::SinkFault;
use std::io;
use std::io::{Printer, Write};
use std::marker::Model;

/// A writer that is flushed, and counts how often it failed.
pub trait Writes {
    /// The bytes that it holds. `None` where they are not told.
    ghost contents: { Self → Option (List ℕ) };

    /// How often writing or flushing failed.
    ghost faults: { Self → ℕ };

    /// Writes the first bytes of a piece, and answers how many: at least one, unless the piece is empty. After an `Err`
    /// nothing was written. The count rises by one with `Failed`, and with nothing else.
    fn write(&mut self, piece: &[u8]) -> Result<usize, SinkFault>
        ensures within { IfOk result (λ n. n ≤ length piece.now) }
        ensures progress { 0 < length piece.now → IfOk result (λ n. 0 < n) }
        ensures takes { IfOk result (λ n. Grows (contents self.old) (contents self.new)
            (take n piece.now)) }
        ensures nothing { OnErr result (contents self.new ≡ contents self.old) }
        ensures counted { IsErrOf result SinkFault.Failed → faults self.new ≡ faults self.old + 1 }
        ensures uncounted { (IsErrOf result SinkFault.Failed → ⊥)
            → faults self.new ≡ faults self.old };

    /// Flushes what was written. The count rises by one with `Failed`, and with nothing else.
    fn flush(&mut self) -> Result<(), SinkFault>
        ensures contents { contents self.new ≡ contents self.old }
        ensures counted { IsErrOf result SinkFault.Failed → faults self.new ≡ faults self.old + 1 }
        ensures uncounted { (IsErrOf result SinkFault.Failed → ⊥)
            → faults self.new ≡ faults self.old };
}

/// A writer of the kit of which either each value tells the bytes that it holds, or none does.
pub trait Tells: Write {
    ghost alike: { (one other : Self) → is_some (Self.contents one) ≡ is_some (Self.contents other) };
}

/// Standard output tells nothing.
impl<P: Print> Tells for Printer<'_, P> {
    ghost alike = { λ _ _. refl };
}

/// A list of bytes tells all that it holds.
impl Tells for Vec<u8> {
    ghost alike = { λ _ _. refl };
}

/// A writer of the kit, as standard output, and how often it failed. A writer that takes nothing of a piece that
/// isn't empty has failed.
#[derive(Drop)]
pub struct SystemWriter<W: Tells> {
    out: W,
    faults: Count,
}

impl<W: Tells> Model for SystemWriter<W> {
    ghost use Rattle.wp_outside.specs.Devices.{SystemWritten};

    ghost Value = { SystemWritten };

    ghost view = { λ s. record { contents = W.contents s.out; faults = s.faults } };
}

impl<W: Tells> SystemWriter<W> {
    /// This writer, which didn't fail yet.
    pub fn of(out: W) -> SystemWriter<W>
        ensures { result ≡ record { contents = W.contents out; faults = 0 } }
    {
        SystemWriter {
            out,
            faults: Count::zero(),
        }
    }
}

impl<W: Tells> Writes for SystemWriter<W> {
    ghost contents = { λ s. s.contents };

    ghost faults = { λ s. s.faults };

    fn write(&mut self, piece: &[u8]) -> Result<usize, SinkFault> {
        match answer_of(&mut self.faults, write_some(&mut self.out, piece))? {
            0 if !piece.is_empty() => Err(failure(&mut self.faults)),
            count => Ok(count),
        }
    }

    fn flush(&mut self) -> Result<(), SinkFault> {
        answer_of(&mut self.faults, flush_all(&mut self.out))
    }
}

// What a call of the writer answers, whose error is told as it is to be.
fn answer_of<T>(faults: &mut Count, answer: io::Result<T>) -> Result<T, SinkFault>
    ensures given { IfOk answer (λ value. (result ≡ Ok value) × (faults.new ≡ faults.old)) }
    ensures fault { IfErr answer (λ error.
        IfErr result (IsToldAs Failed MemoryFault (error_kind error) faults.old faults.new)) }
    ensures refused { IfErr answer (λ _. IsErr result) }
    ensures counted { IsErrOf result SinkFault.Failed → faults.new ≡ faults.old + 1 }
    ensures uncounted { (IsErrOf result SinkFault.Failed → ⊥) → faults.new ≡ faults.old }
{
    match answer {
        Ok(value) => Ok(value),
        Err(error) => Err(fault_of(faults, &error)),
    }
}

// One more fault, unless its count is at its end.
fn failure(faults: &mut Count) -> SinkFault
    ensures failed { faults.old < u64.MAX → (result ≡ Failed) × (faults.new ≡ faults.old + 1) }
    ensures at_its_end { faults.old ≡ u64.MAX → (result ≡ MemoryFault) × (faults.new ≡ faults.old) }
    ensures counted { result ≡ Failed → faults.new ≡ faults.old + 1 }
    ensures uncounted { (result ≡ Failed → ⊥) → faults.new ≡ faults.old }
{
    match faults.raise() {
        Ok(()) => SinkFault::Failed,
        Err(_) => SinkFault::Memory,
    }
}

fn fault_of(faults: &mut Count, error: &io::Error) -> SinkFault
    ensures told { IsToldAs Failed MemoryFault (error_kind error.now) faults.old faults.new result }
    ensures counted { result ≡ Failed → faults.new ≡ faults.old + 1 }
    ensures uncounted { (result ≡ Failed → ⊥) → faults.new ≡ faults.old }
{
    if error.kind() == io::ErrorKind::OutOfMemory {
        return SinkFault::Memory;
    }
    failure(faults)
}

fn write_some<W: Tells>(out: &mut W, piece: &[u8]) -> io::Result<usize>
    ensures within { IfOk result (λ n. n ≤ length piece.now) }
    ensures takes { IfOk result (λ n. Grows (W.contents out.old) (W.contents out.new)
        (take n piece.now)) }
    ensures nothing { OnErr result (W.contents out.new ≡ W.contents out.old) }
{
    out.write(piece)
}

fn flush_all<W: Tells>(out: &mut W) -> io::Result<()>
    ensures { W.contents out.new ≡ W.contents out.old }
{
    out.flush()
}
