ghost use Rattle.std.specs.Prelude.{◌≡◌, ◌↔◌, ◌++◌, [], true, false, length, IsTrue, IfOk, OnOk, OnErr, IsErrOf};
ghost use Rattle.wp_outside.specs.InMemory.{calls_after_piece, calls_after_write, piece_fails, sink_told, write_fails};

use crate::calls::Calls;
use crate::errors::Errors;
use crate::sink::{Sink, SinkFault};
use std::alloc::Global;
use std::marker::Model;

/// A sink that keeps the bytes, and fails as it is told: the writes of pieces that aren't empty are
/// numbered from 1, and those whose numbers stand in a list fail. Each failure counts.
#[derive(Drop)]
pub struct MemSink {
    bytes: Vec<u8>,
    calls: Calls,
    errors: Errors,
}

impl Model for MemSink {
    ghost use Rattle.wp_outside.specs.InMemory.{SinkInMemory};

    ghost Value = { SinkInMemory };

    ghost view = { λ s. record { taken = s.bytes.items; calls = s.calls; errors = s.errors } };
}

impl MemSink {
    /// It took nothing yet, and the writes with these numbers are to fail. None was made yet.
    pub fn of(alloc: Global, fails: Vec<u64>) -> MemSink
        ensures taken { result.taken ≡ [] }
        ensures calls { result.calls ≡ record { fails = fails.items; made = 0; faults = 0 } }
        ensures errors { result.errors ≡ record { stopped = false; late = false } }
    {
        MemSink {
            bytes: Vec::new(alloc),
            calls: Calls::of(fails),
            errors: Errors::none(),
        }
    }

    /// The bytes that it took.
    pub fn taken(&self) -> &[u8]
        ensures { result.now ≡ self.now.taken }
    {
        self.bytes.as_slice()
    }
}

impl Sink for MemSink {
    ghost told = { sink_told };

    /// It takes the whole piece. A write fails exactly where its number says so, and each write of a
    /// piece that isn't empty is counted. After 2^64 - 1 of them there is no number: none fails, and
    /// nothing is counted.
    fn write(&mut self, piece: &[u8]) -> Result<usize, SinkFault>
        ensures planned { IsErrOf result SinkFault.Failed
            ↔ IsTrue (write_fails self.old piece.now) }
        ensures counted { self.new.calls ≡ calls_after_write self.old piece.now }

        ensures whole { IfOk result (λ n. n ≡ length piece.now) }
        ensures takes { OnOk result (self.new.taken ≡ self.old.taken ++ piece.now) }
        ensures empty { length piece.now ≡ 0
            → (result ≡ Ok 0) × (self.new.taken ≡ self.old.taken) }
        ensures nothing { OnErr result (self.new.taken ≡ self.old.taken) }
        ensures sound { OnOk result (self.new.errors.stopped ≡ self.old.errors.stopped) }
        ensures stopped { OnErr result (self.new.errors.stopped ≡ true) }
        ensures early { self.old.errors.stopped ≡ false
            → self.new.errors.late ≡ self.old.errors.late }
        ensures late { self.old.errors.stopped ≡ true → self.new.errors.late ≡ true }
    {
        let answer = take_whole(&mut self.bytes, &mut self.calls, piece);
        self.errors.note(answer.is_err());
        answer
    }
}

fn take_whole(bytes: &mut Vec<u8>, calls: &mut Calls, piece: &[u8]) -> Result<usize, SinkFault>
    ensures planned { IsErrOf result SinkFault.Failed ↔ IsTrue (piece_fails calls.old piece.now) }
    ensures counted { calls.new ≡ calls_after_piece calls.old piece.now }
    ensures whole { IfOk result (λ n. n ≡ length piece.now) }
    ensures takes { OnOk result (bytes.new.items ≡ bytes.old.items ++ piece.now) }
    ensures empty { length piece.now ≡ 0 → (result ≡ Ok 0) × (bytes.new.items ≡ bytes.old.items) }
    ensures nothing { OnErr result (bytes.new.items ≡ bytes.old.items) }
{
    if piece.is_empty() {
        return Ok(0);
    }
    if calls.next_fails(false)? {
        return Err(SinkFault::Failed);
    }
    bytes.extend_from_slice(piece)?;
    Ok(piece.len())
}
