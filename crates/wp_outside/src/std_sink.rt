ghost use Rattle.std.specs.Prelude.{◌≡◌, ◌<◌, ◌≤◌, ◌+◌, ◌⊎◌, true, false, length, take, IfOk, OnOk, OnErr, IsErrOf, Ok};
ghost use Rattle.wp_outside.specs.Devices.{flushed};
ghost use Rattle.wp_outside.specs.Outside.{Grows};

use crate::count::Count;
use crate::errors::Errors;
use crate::flushing::Flushing;
use crate::sink::{Sink, SinkFault};
use crate::writer::Writes;
use std::marker::Model;

/// A sink over a writer, as standard output, which is flushed after each write. What was flushed was taken. Where the
/// writer tells its bytes, so does the sink. After bytes that could not be flushed nothing more is written.
#[derive(Drop)]
pub struct StdSink<W: Writes + Drop> {
    writer: Flushing<W>,
    faults: Count,
    errors: Errors,
}

impl<W: Writes + Drop> Model for StdSink<W> {
    ghost use Rattle.wp_outside.specs.Devices.{OverWriter};

    ghost Value = { OverWriter };

    ghost view = { λ s. record { writer = s.writer; faults = s.faults; errors = s.errors } };
}

impl<W: Writes + Drop> StdSink<W> {
    /// A sink over this writer. What the writer holds was taken, and no write failed yet.
    pub fn new(out: W) -> StdSink<W>
        ensures writer { result.writer ≡ record {
          contents = W.contents out;
          faults = W.faults out;
          behind = 0;
        } }
        ensures faults { result.faults ≡ 0 }
        ensures errors { result.errors ≡ record { stopped = false; late = false } }
    {
        StdSink {
            writer: Flushing::new(out),
            faults: Count::zero(),
            errors: Errors::none(),
        }
    }
}

impl<W: Writes + Drop> Sink for StdSink<W> {
    ghost told = { λ s. record {
      taken = flushed
          s.writer;
      faults = s.faults;
      stopped = s.errors.stopped;
      late = s.errors.late;
    } };

    /// A write fails only where the writer fails in this call, or where bytes that it took before could not be
    /// flushed: then nothing is called on the writer. After a call that failed no other is made: the writer fails at
    /// most once, and not at all where bytes were taken.
    fn write(&mut self, piece: &[u8]) -> Result<usize, SinkFault>
        ensures cause { IsErrOf result SinkFault.Failed
            → (self.new.writer.faults ≡ self.old.writer.faults + 1) ⊎ (0 < self.old.writer.behind) }
        ensures behind { 0 < self.new.writer.behind
            → (self.new.writer.faults ≡ self.old.writer.faults + 1) ⊎ (0 < self.old.writer.behind)
            ⊎ IsErrOf result SinkFault.Memory }
        ensures uncalled { 0 < self.old.writer.behind → self.new.writer ≡ self.old.writer }
        ensures at_most { self.new.writer.faults ≤ self.old.writer.faults + 1 }
        ensures faultless { OnOk result (self.new.writer.faults ≡ self.old.writer.faults) }

        ensures within { IfOk result (λ n. n ≤ length piece.now) }
        ensures takes { IfOk result (λ n. Grows (flushed self.old.writer) (flushed self.new.writer)
            (take n piece.now)) }
        ensures progress { 0 < length piece.now → IfOk result (λ n. 0 < n) }
        ensures empty { length piece.now ≡ 0 → (result ≡ Ok 0)
            × (flushed self.new.writer ≡ flushed self.old.writer) }
        ensures nothing { OnErr result (flushed self.new.writer ≡ flushed self.old.writer) }
        ensures counted { IsErrOf result SinkFault.Failed → self.new.faults ≡ self.old.faults + 1 }
        ensures uncounted { (IsErrOf result SinkFault.Failed → ⊥)
            → self.new.faults ≡ self.old.faults }
        ensures sound { OnOk result (self.new.errors.stopped ≡ self.old.errors.stopped) }
        ensures stopped { OnErr result (self.new.errors.stopped ≡ true) }
        ensures early { self.old.errors.stopped ≡ false
            → self.new.errors.late ≡ self.old.errors.late }
        ensures late { self.old.errors.stopped ≡ true → self.new.errors.late ≡ true }
    {
        let answer = write_counted(&mut self.writer, &mut self.faults, piece);
        self.errors.note(answer.is_err());
        answer
    }
}

// Each failure counts once, and nothing else does.
fn write_counted<W: Writes + Drop>(
    writer: &mut Flushing<W>,
    faults: &mut Count,
    piece: &[u8],
) -> Result<usize, SinkFault>
    ensures cause { IsErrOf result SinkFault.Failed
        → (writer.new.faults ≡ writer.old.faults + 1) ⊎ (0 < writer.old.behind) }
    ensures behind { 0 < writer.new.behind
        → (writer.new.faults ≡ writer.old.faults + 1) ⊎ (0 < writer.old.behind) ⊎ IsErrOf result SinkFault.Memory }
    ensures uncalled { 0 < writer.old.behind → writer.new ≡ writer.old }
    ensures at_most { writer.new.faults ≤ writer.old.faults + 1 }
    ensures faultless { OnOk result (writer.new.faults ≡ writer.old.faults) }
    ensures counted { IsErrOf result SinkFault.Failed → faults.new ≡ faults.old + 1 }
    ensures uncounted { (IsErrOf result SinkFault.Failed → ⊥) → faults.new ≡ faults.old }
    ensures within { IfOk result (λ n. n ≤ length piece.now) }
    ensures takes { IfOk result (λ n. Grows (flushed writer.old) (flushed writer.new)
        (take n piece.now)) }
    ensures progress { 0 < length piece.now → IfOk result (λ n. 0 < n) }
    ensures empty { length piece.now ≡ 0 → (result ≡ Ok 0)
        × (flushed writer.new ≡ flushed writer.old) }
    ensures nothing { OnErr result (flushed writer.new ≡ flushed writer.old) }
{
    if piece.is_empty() {
        return Ok(0);
    }
    let answer = write_and_flush(writer, piece);
    if let Err(SinkFault::Failed) = answer {
        faults.raise()?;
    }
    answer
}

/// Writes some of the piece, which isn't empty, and flushes it. A writer that could not flush what it took before has
/// failed.
fn write_and_flush<W: Writes + Drop>(
    writer: &mut Flushing<W>,
    piece: &[u8],
) -> Result<usize, SinkFault>
    requires { 0 < length piece.now }
    ensures within { IfOk result (λ n. n ≤ length piece.now) }
    ensures progress { IfOk result (λ n. 0 < n) }
    ensures takes { IfOk result (λ n. Grows (flushed writer.old) (flushed writer.new)
        (take n piece.now)) }
    ensures nothing { OnErr result (flushed writer.new ≡ flushed writer.old) }
    ensures cause { IsErrOf result SinkFault.Failed
        → (writer.new.faults ≡ writer.old.faults + 1) ⊎ (0 < writer.old.behind) }
    ensures behind { 0 < writer.new.behind
        → (writer.new.faults ≡ writer.old.faults + 1) ⊎ (0 < writer.old.behind) ⊎ IsErrOf result SinkFault.Memory }
    ensures uncalled { 0 < writer.old.behind → writer.new ≡ writer.old }
    ensures at_most { writer.new.faults ≤ writer.old.faults + 1 }
    ensures faultless { OnOk result (writer.new.faults ≡ writer.old.faults) }
{
    if writer.is_behind() {
        return Err(SinkFault::Failed);
    }
    let count = writer.write(piece)?;
    writer.flush()?;
    Ok(count)
}
