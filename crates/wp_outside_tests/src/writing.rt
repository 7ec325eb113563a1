//! Sections that are written part by part.
ghost use Rattle.std.specs.Prelude.{◌≡◌, ◌+◌, ◌%◌, [], ◌∷◌};

use std::alloc::{AllocError, Global};
use std::test::Fail;
use wp_model::Memory;
use wp_outside::{MemSink, Parts, Section, Sink, SinkFault, room, write_rest, write_section};

/// So many numbers from 0 on, a line for each, which has its last digit.
#[derive(Drop)]
struct LastDigits {
    many: usize,
}

impl Parts for LastDigits {
    ghost count = { λ digits. digits.many };

    ghost says = { λ _ number part. part ≡ (48 + number % 10) ∷ 10 ∷ [] };

    ghost can_print = { λ _. Unit {0} };

    fn count(&self) -> usize {
        self.many
    }

    fn print(&self, _alloc: Global, number: usize, text: &mut Vec<u8>) -> Result<(), Memory> {
        text.extend_from_slice(&[48 + (number % 10) as u8, 10])?;
        Ok(())
    }
}

fn write_digits<K: Sink>(
    alloc: Global,
    out: &mut K,
    waiting: &mut Vec<u8>,
    many: usize,
) -> Result<(), SinkFault> {
    let section = Section {
        heading: b"digits\n",
        parts: &LastDigits { many },
        ending: b"end digits\n",
    };
    write_section(alloc, out, waiting, &section)
}

/// Writes two sections of last digits and a last line.
fn write_both<K: Sink>(
    alloc: Global,
    out: &mut K,
    many: usize,
    more: usize,
) -> Result<(), SinkFault> {
    let mut waiting = room(alloc)?;
    write_digits(alloc, out, &mut waiting, many)?;
    write_digits(alloc, out, &mut waiting, more)?;
    write_rest(out, &mut waiting, b"end\n")
}

/// A sink whose write with a number fails, or none with 0.
fn sink_failing(alloc: Global, number: u64) -> Result<MemSink, AllocError> {
    Ok(MemSink::of(alloc, vec![in alloc; number]?))
}

#[test]
fn sections_are_written_one_after_the_other(rt: HostRuntime) -> Result<(), Fail> {
    let mut out = sink_failing(rt.alloc(), 0)?;
    assert_eq!(rt; write_both(rt.alloc(), &mut out, 3, 0), Ok(()));
    assert!(rt;
        out.taken() == b"digits\n0\n1\n2\nend digits\ndigits\nend digits\nend\n".as_slice()
    );
    Ok(())
}

/// How many lines a longest section has.
const MANY: usize = 100_000;

/// The text of a longest section, of an empty one and of a last line.
fn long_text(alloc: Global) -> Result<Vec<u8>, AllocError> {
    let mut text = b"digits\n".to_vec(alloc)?;
    for number in 0..MANY {
        text.extend_from_slice(&[48 + (number % 10) as u8, 10])?;
    }
    text.extend_from_slice(b"end digits\ndigits\nend digits\nend\n")?;
    Ok(text)
}

#[test]
fn a_long_section_is_written_in_order(rt: HostRuntime) -> Result<(), Fail> {
    let text = long_text(rt.alloc())?;
    let mut out = sink_failing(rt.alloc(), 5)?;
    assert_eq!(rt; write_both(rt.alloc(), &mut out, MANY, 0), Ok(()));
    assert!(rt; out.taken() == text.as_slice());
    Ok(())
}

/// The number of a write, and how many bytes were taken before it. The first piece ends with a line, one byte past 64
/// KiB.
const TAKEN: &[(u64, usize)] = &[(1, 0), (2, 65_537), (3, 131_073), (4, 196_609)];

/// The first number of a write that doesn't fail, or before which something else was taken.
fn misplaced_fault(alloc: Global, text: &[u8]) -> Result<Option<u64>, AllocError> {
    for (number, taken) in TAKEN {
        let mut out = sink_failing(alloc, *number)?;
        if write_both(alloc, &mut out, MANY, 0) != Err(SinkFault::Failed)
            || out.taken().len() != *taken
            || !text.starts_with(out.taken())
        {
            return Ok(Some(*number));
        }
    }
    Ok(None)
}

#[test]
fn a_long_section_is_written_in_pieces_up_to_each_fault(rt: HostRuntime) -> Result<(), Fail> {
    let text = long_text(rt.alloc())?;
    assert_eq!(rt; misplaced_fault(rt.alloc(), &text), Ok(None));
    Ok(())
}
