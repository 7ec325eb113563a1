//! A section of an output.
ghost use Rattle.std.specs.Prelude.{ℕ, ◌<◌, ◌++◌, List, length, IfOk, IfErr, OnOk};
ghost use Rattle.wp_outside.specs.Sections.{AreParts, HaveText, IsSection};
ghost use Rattle.wp_outside.specs.Writing.{Fails, Writes, piece_bytes};

use crate::parts::{Parts, Section};
use crate::sink::{Sink, SinkFault};
use crate::waiting::{write_behind, write_if_full};
use std::alloc::Global;

fn write_part<P: Parts, K: Sink>(
    alloc: Global,
    out: &mut K,
    waiting: &mut Vec<u8>,
    parts: &P,
    number: usize,
) -> Result<(), SinkFault>
    requires ready { P.can_print parts.now }
    requires any { HaveText (P.says parts.now) (P.count parts.now) }
    requires within { number < P.count parts.now }
    ensures short { OnOk result (length waiting.new.items < piece_bytes) }
    ensures writes { OnOk result ((part : List ℕ) × P.says parts.now number part
        × Writes (K.told out.old) (K.told out.new) waiting.old.items waiting.new.items part) }
    ensures fails { IfErr result (λ fault. (part : List ℕ) × P.says parts.now number part
        × Fails fault (K.told out.old) (K.told out.new) (waiting.old.items ++ part)) }
{
    parts.print(alloc, number, waiting)?;
    write_if_full(out, waiting)
}

fn write_parts<P: Parts, K: Sink>(
    alloc: Global,
    out: &mut K,
    waiting: &mut Vec<u8>,
    parts: &P,
) -> Result<(), SinkFault>
    requires ready { P.can_print parts.now }
    requires any { HaveText (P.says parts.now) (P.count parts.now) }
    ensures writes { OnOk result ((text : List ℕ)
        × AreParts (P.says parts.now) (P.count parts.now) text
        × Writes (K.told out.old) (K.told out.new) waiting.old.items waiting.new.items text) }
    ensures fails { IfErr result (λ fault. (text : List ℕ)
        × AreParts (P.says parts.now) (P.count parts.now) text
        × Fails fault (K.told out.old) (K.told out.new) (waiting.old.items ++ text)) }
{
    for number in 0..parts.count() {
        write_part(alloc, out, waiting, parts, number)?;
    }
    Ok(())
}

/// Writes a section behind what waits: its heading, its parts one after the other, and its ending. Whenever enough
/// waits for a piece all of it is written, so that less waits at the end. After an `Err` the sink took a beginning of
/// what waited and of a text that the section may have: `Failed` comes from the sink, and `Memory` from the sink or the
/// parts.
pub fn write_section<P: Parts, K: Sink>(
    alloc: Global,
    out: &mut K,
    waiting: &mut Vec<u8>,
    section: &Section<'_, P>,
) -> Result<(), SinkFault>
    requires ready { P.can_print section.now.parts.now }
    requires any { HaveText (P.says section.now.parts.now) (P.count section.now.parts.now) }
    ensures short { OnOk result (length waiting.new.items < piece_bytes) }
    ensures writes { OnOk result ((text : List ℕ)
        × IsSection section.now.heading.now (P.count section.now.parts.now)
        (P.says section.now.parts.now) section.now.ending.now text
        × Writes (K.told out.old) (K.told out.new) waiting.old.items waiting.new.items text) }
    ensures fails { IfErr result (λ fault. (text : List ℕ)
        × IsSection section.now.heading.now (P.count section.now.parts.now)
        (P.says section.now.parts.now) section.now.ending.now text
        × Fails fault (K.told out.old) (K.told out.new) (waiting.old.items ++ text)) }
{
    write_behind(out, waiting, section.heading)?;
    write_parts(alloc, out, waiting, section.parts)?;
    write_behind(out, waiting, section.ending)
}
