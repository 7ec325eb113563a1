ghost use Rattle.std.specs.Prelude.{◌≡◌, ◌↔◌, ◌+◌, ◌<◌, ◌≤◌, length, take, IsTrue, IfOk, OnOk, OnErr, IsErrOf};
ghost use Rattle.wp_outside.specs.Outside.{Grows};

use crate::sink::SinkFault;
use crate::writer::Writes;
use std::marker::Model;

/// A writer, and how many of the bytes that it took last weren't flushed. Clauses see the bytes that it holds, where
/// they are told, how often it failed, and that number.
#[derive(Drop)]
pub(crate) struct Flushing<W: Writes + Drop> {
    out: W,
    behind: usize,
}

impl<W: Writes + Drop> Model for Flushing<W> {
    ghost use Rattle.wp_outside.specs.Devices.{Written};

    ghost Value = { Written };

    ghost view = { λ s. record { contents = W.contents s.out; faults = W.faults s.out; behind = s.behind } };
}

impl<W: Writes + Drop> Flushing<W> {
    pub(crate) fn new(out: W) -> Flushing<W>
        ensures { result ≡ record { contents = W.contents out; faults = W.faults out; behind = 0 } }
    {
        Flushing { out, behind: 0 }
    }

    pub(crate) fn is_behind(&self) -> bool
        ensures { IsTrue result ↔ (0 < self.now.behind) }
    {
        self.behind > 0
    }

    /// Writes the first bytes of a piece that isn't empty, and answers how many.
    pub(crate) fn write(&mut self, piece: &[u8]) -> Result<usize, SinkFault>
        requires flushed { self.old.behind ≡ 0 }
        requires some { 0 < length piece.now }
        ensures within { IfOk result (λ n. n ≤ length piece.now) }
        ensures progress { IfOk result (λ n. 0 < n) }
        ensures behind { IfOk result (λ n. self.new.behind ≡ n) }
        ensures takes { IfOk result (λ n. Grows self.old.contents self.new.contents
            (take n piece.now)) }
        ensures nothing { OnErr result ((self.new.contents ≡ self.old.contents)
            × (self.new.behind ≡ 0)) }
        ensures counted { IsErrOf result SinkFault.Failed → self.new.faults ≡ self.old.faults + 1 }
        ensures uncounted { (IsErrOf result SinkFault.Failed → ⊥)
            → self.new.faults ≡ self.old.faults }
    {
        let count = self.out.write(piece)?;
        self.behind = count;
        Ok(count)
    }

    /// Flushes what was written.
    pub(crate) fn flush(&mut self) -> Result<(), SinkFault>
        ensures contents { self.new.contents ≡ self.old.contents }
        ensures flushed { OnOk result (self.new.behind ≡ 0) }
        ensures behind { OnErr result (self.new.behind ≡ self.old.behind) }
        ensures counted { IsErrOf result SinkFault.Failed → self.new.faults ≡ self.old.faults + 1 }
        ensures uncounted { (IsErrOf result SinkFault.Failed → ⊥)
            → self.new.faults ≡ self.old.faults }
    {
        self.out.flush()?;
        self.behind = 0;
        Ok(())
    }
}
