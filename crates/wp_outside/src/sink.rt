ghost use Rattle.std.specs.Prelude.{◌≡◌, ◌+◌, ◌<◌, ◌≤◌, true, false, Some, length, take, IfOk, OnOk, OnErr, IsErrOf};
ghost use Rattle.wp_outside.specs.Faults.{sink_fault_text};
ghost use Rattle.wp_outside.specs.Outside.{Grows, SinkTold};
ghost use Rattle.wp_outside.specs.declared.sink.SinkFault.TheVariants.{Memory as MemoryFault};

use std::alloc::AllocError;
use std::error::Error;
use std::fmt;
use wp_model::Memory;

/// Why a piece was not taken.
#[derive(Clone, Copy, Debug, PartialEq, Eq)]
pub enum SinkFault {
    /// The device failed, or took nothing.
    Failed,
    /// There was no memory to take the piece.
    Memory,
}

impl fmt::Display for SinkFault {
    ghost output = { λ fault. Some (sink_fault_text fault) };

    fn fmt<W: fmt::Write>(&self, f: &mut fmt::Formatter<W>) -> fmt::Result {
        f.write_str(match self {
            SinkFault::Failed => "the output could not be written",
            SinkFault::Memory => "out of memory",
        })
    }
}

impl Error for SinkFault {}

impl From<Memory> for SinkFault {
    ghost from_gives = { λ _ fault. fault ≡ MemoryFault };

    fn from(_want: Memory) -> SinkFault {
        SinkFault::Memory
    }
}

impl From<AllocError> for SinkFault {
    ghost from_gives = { λ _ fault. fault ≡ MemoryFault };

    fn from(_refused: AllocError) -> SinkFault {
        SinkFault::Memory
    }
}

/// Where text goes.
pub trait Sink {
    /// What it tells: the bytes that were taken so far, or that they aren't told; how often taking failed; whether a
    /// write was answered with an error; and whether a write was made after that.
    ghost told: { Self → SinkTold };

    /// Takes the first bytes of a piece, and answers how many: at least one, unless the piece is
    /// empty, which is always answered `Ok(0)`. After an `Err` nothing was taken. The count rises by one with
    /// `Failed`, and with nothing else. No call changes whether the bytes are told.
    fn write(&mut self, piece: &[u8]) -> Result<usize, SinkFault>
        ensures within { IfOk result (λ n. n ≤ length piece.now) }
        ensures takes { IfOk result (λ n.
            Grows (told self.old).taken (told self.new).taken (take n piece.now)) }
        ensures progress { 0 < length piece.now → IfOk result (λ n. 0 < n) }
        ensures empty { length piece.now ≡ 0
            → (result ≡ Ok 0) × ((told self.new).taken ≡ (told self.old).taken) }
        ensures nothing { OnErr result ((told self.new).taken ≡ (told self.old).taken) }
        ensures counted { IsErrOf result SinkFault.Failed
            → (told self.new).faults ≡ (told self.old).faults + 1 }
        ensures uncounted { (IsErrOf result SinkFault.Failed → ⊥)
            → (told self.new).faults ≡ (told self.old).faults }
        ensures sound { OnOk result ((told self.new).stopped ≡ (told self.old).stopped) }
        ensures stopped { OnErr result ((told self.new).stopped ≡ true) }
        ensures early { (told self.old).stopped ≡ false
            → (told self.new).late ≡ (told self.old).late }
        ensures late { (told self.old).stopped ≡ true → (told self.new).late ≡ true };
}
