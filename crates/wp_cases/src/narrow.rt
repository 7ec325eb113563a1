ghost use Rattle.std.specs.Prelude.{◌≡◌, []};
ghost use Rattle.wp_outside.specs.InMemory.{sink_told};

use std::alloc::Global;
use wp_outside::{MemSink, Sink, SinkFault};

/// A sink that keeps the bytes, fails as it is told, and may take but one byte a call.
#[derive(Drop)]
pub struct NarrowSink {
    sink: MemSink,
    one_byte: bool,
}

impl NarrowSink {
    /// It took nothing yet, and the writes with these numbers are to fail.
    pub fn of(alloc: Global, fails: Vec<u64>, one_byte: bool) -> NarrowSink
        ensures { result.sink.taken ≡ [] }
    {
        NarrowSink {
            sink: MemSink::of(alloc, fails),
            one_byte,
        }
    }

    /// The bytes that it took.
    pub fn taken(&self) -> &[u8]
        ensures { result.now ≡ self.now.sink.taken }
    {
        self.sink.taken()
    }
}

impl Sink for NarrowSink {
    ghost told = { λ s. sink_told s.sink };

    fn write(&mut self, piece: &[u8]) -> Result<usize, SinkFault> {
        if self.one_byte && !piece.is_empty() {
            self.sink.write(&piece[..1])
        } else {
            self.sink.write(piece)
        }
    }
}
