//! What waits to be written.
ghost use Rattle.std.specs.Prelude.{◌≡◌, ◌<◌, ◌++◌, [], length, IfOk, IfErr, OnOk};
ghost use Rattle.wp_outside.specs.Writing.{Fails, Writes, piece_bytes};

use crate::sink::{Sink, SinkFault};
use crate::writing::write_text;
use std::alloc::Global;
use wp_model::Memory;

/// How many bytes wait at most before they are written, but for the part that was printed last: 64 KiB.
pub const PIECE_BYTES: usize = 65_536;

/// Room for what waits, of which there is nothing yet. An `Err` comes from a want of memory alone.
pub fn room(alloc: Global) -> Result<Vec<u8>, Memory>
    ensures { IfOk result (λ waiting. waiting.items ≡ []) }
{
    Ok(Vec::with_capacity(alloc, PIECE_BYTES)?)
}

fn write_all<K: Sink>(out: &mut K, waiting: &mut Vec<u8>) -> Result<(), SinkFault>
    ensures empty { OnOk result (waiting.new.items ≡ []) }
    ensures writes { OnOk result (Writes (K.told out.old)
        (K.told out.new) waiting.old.items [] []) }
    ensures fails { IfErr result (λ fault. Fails fault (K.told out.old)
        (K.told out.new) waiting.old.items) }
{
    write_text(out, waiting.as_slice())?;
    waiting.clear();
    Ok(())
}

/// Writes what waits, if it is enough for a piece.
pub(crate) fn write_if_full<K: Sink>(out: &mut K, waiting: &mut Vec<u8>) -> Result<(), SinkFault>
    ensures short { OnOk result (length waiting.new.items < piece_bytes) }
    ensures writes { OnOk result (Writes (K.told out.old)
        (K.told out.new) waiting.old.items waiting.new.items []) }
    ensures fails { IfErr result (λ fault. Fails fault (K.told out.old)
        (K.told out.new) waiting.old.items) }
{
    if waiting.len() >= PIECE_BYTES {
        write_all(out, waiting)?;
    }
    Ok(())
}

/// Adds a text to what waits, and writes that if it is enough for a piece.
pub(crate) fn write_behind<K: Sink>(
    out: &mut K,
    waiting: &mut Vec<u8>,
    text: &[u8],
) -> Result<(), SinkFault>
    ensures short { OnOk result (length waiting.new.items < piece_bytes) }
    ensures writes { OnOk result (Writes (K.told out.old)
        (K.told out.new) waiting.old.items waiting.new.items text.now) }
    ensures fails { IfErr result (λ fault. Fails fault (K.told out.old) (K.told out.new)
        (waiting.old.items ++ text.now)) }
{
    waiting.extend_from_slice(text)?;
    write_if_full(out, waiting)
}

/// Writes what waits and then a last text, after which nothing waits. After an `Err` the sink took a beginning of both.
pub fn write_rest<K: Sink>(out: &mut K, waiting: &mut Vec<u8>, last: &[u8]) -> Result<(), SinkFault>
    ensures empty { OnOk result (waiting.new.items ≡ []) }
    ensures writes { OnOk result (Writes (K.told out.old)
        (K.told out.new) waiting.old.items [] last.now) }
    ensures fails { IfErr result (λ fault. Fails fault (K.told out.old) (K.told out.new)
        (waiting.old.items ++ last.now)) }
{
    waiting.extend_from_slice(last)?;
    write_all(out, waiting)
}
