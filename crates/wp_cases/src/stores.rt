//! The store of a case: the bytes of its file before the run, the calls that fail, and the bytes that it has to have
//! afterwards.
use crate::fault::CaseFault;
use crate::lines::{failing, number_in, rest_of};
use std::alloc::Global;
use wp_model::Memory;
use wp_outside::{Sink, write_text};
use wp_store::MemDisk;

/// How many bytes a file may grow by in a run.
const MORE_BYTES: u64 = 200_000;

/// How many calls a run may make.
const CALLS: u32 = 30_000;

/// An opened record of a text and a line feed: the byte 1, the length as four bytes, the most significant first, and
/// the body.
fn add_record(bytes: &mut Vec<u8>, text: &str) -> Result<(), Memory> {
    let length = text.len().saturating_add(1);
    bytes.push(1)?;
    bytes.push((length / 16_777_216 % 256) as u8)?;
    bytes.push((length / 65_536 % 256) as u8)?;
    bytes.push((length / 256 % 256) as u8)?;
    bytes.push((length % 256) as u8)?;
    bytes.extend_from_slice(text.as_bytes())?;
    bytes.push(b'\n')?;
    Ok(())
}

/// So many records of a text in which `#` stands for the number, from 0.
fn add_records(bytes: &mut Vec<u8>, alloc: Global, count: usize, text: &str) -> Result<(), Memory> {
    for number in 0..count {
        let digits = format!(in alloc; "{number}")?;
        let record = text.replace(alloc, "#", digits.as_str())?;
        add_record(bytes, record.as_str())?;
    }
    Ok(())
}

/// Bytes, each as two hexadecimal digits, parted by spaces.
fn add_digits(bytes: &mut Vec<u8>, digits: &str) -> Result<(), CaseFault> {
    for word in digits.split(' ') {
        let Ok(byte) = u8::from_str_radix(word, 16) else {
            return Err(CaseFault::Line);
        };
        if bytes.push(byte).is_err() {
            return Err(CaseFault::Memory);
        }
    }
    Ok(())
}

fn add_zeros(bytes: &mut Vec<u8>, digits: &str) -> Result<(), CaseFault> {
    let Ok(count) = digits.parse::<usize>() else {
        return Err(CaseFault::Line);
    };
    add_zero_bytes(bytes, count)?;
    Ok(())
}

fn add_zero_bytes(bytes: &mut Vec<u8>, count: usize) -> Result<(), Memory> {
    bytes.resize(bytes.len().saturating_add(count), 0)?;
    Ok(())
}

fn add_many(bytes: &mut Vec<u8>, alloc: Global, rest: &str) -> Result<(), CaseFault> {
    let Some((digits, text)) = rest.split_once(' ') else {
        return Err(CaseFault::Line);
    };
    let Ok(count) = digits.parse::<usize>() else {
        return Err(CaseFault::Line);
    };
    add_records(bytes, alloc, count, text)?;
    Ok(())
}

fn add_text(bytes: &mut Vec<u8>, text: &str, ending: &[u8]) -> Result<(), Memory> {
    bytes.extend_from_slice(text.as_bytes())?;
    bytes.extend_from_slice(ending)?;
    Ok(())
}

/// What the rest of a line adds: `record TEXT`, `records COUNT TEXT`, `text TEXT`, `letters TEXT`, `bytes DIGITS` or
/// `zeros COUNT`.
fn add_part(bytes: &mut Vec<u8>, alloc: Global, part: &str) -> Result<(), CaseFault> {
    let Some((kind, rest)) = part.split_once(' ') else {
        return Err(CaseFault::Line);
    };
    match kind {
        "record" => Ok(add_record(bytes, rest)?),
        "records" => add_many(bytes, alloc, rest),
        "text" => Ok(add_text(bytes, rest, b"\n")?),
        "letters" => Ok(add_text(bytes, rest, b"")?),
        "bytes" => add_digits(bytes, rest),
        "zeros" => add_zeros(bytes, rest),
        _ => Err(CaseFault::Line),
    }
}

/// The bytes that the lines with this beginning make, one behind the other.
fn bytes_in(alloc: Global, lines: &str, beginning: &str) -> Result<Vec<u8>, CaseFault> {
    let mut bytes = Vec::new(alloc);
    for line in lines.lines() {
        if let Some(part) = line.strip_prefix(beginning) {
            add_part(&mut bytes, alloc, part)?;
        }
    }
    Ok(bytes)
}

/// A disk that holds these bytes, with the calls that fail, and the stop, where there is one.
fn disk_with(
    alloc: Global,
    bytes: Vec<u8>,
    fails: Vec<u64>,
    stop: Option<u64>,
) -> Result<MemDisk, Memory> {
    let size = (bytes.len() as u64).saturating_add(MORE_BYTES);
    MemDisk::new(alloc, bytes, size, CALLS, fails, stop)
}

/// The disk of a case: it holds what the lines `store before` make, nothing where there is none.
pub fn disk_of(alloc: Global, lines: &str) -> Result<MemDisk, CaseFault> {
    let bytes = bytes_in(alloc, lines, "store before ")?;
    let fails = failing(alloc, lines, "store fails ")?;
    let stop = number_in(lines, "store stops ")?;
    Ok(disk_with(alloc, bytes, fails, stop)?)
}

/// A disk that holds these bytes, and of which no call fails.
pub fn disk_over(alloc: Global, bytes: Vec<u8>) -> Result<MemDisk, Memory> {
    disk_with(alloc, bytes, Vec::new(alloc), None)
}

/// The lines of an output's journal, where it has one.
fn journal_in(output: &str) -> Option<&str> {
    let (journal, _) = output.split_once("end journal\n")?;
    journal.strip_prefix("journal\n")
}

/// A store at rest that has a record for each of these lines.
fn store_of(alloc: Global, lines: &str) -> Result<Vec<u8>, Memory> {
    let mut bytes = Vec::new(alloc);
    for line in lines.lines() {
        add_record(&mut bytes, line)?;
    }
    bytes.push(0)?;
    Ok(bytes)
}

/// Whether a store is at rest and has just the lines of an output's journal.
pub fn is_journal(alloc: Global, store: &[u8], output: &str) -> Result<bool, Memory> {
    match journal_in(output) {
        Some(journal) => {
            let wanted = store_of(alloc, journal)?;
            Ok(store == wanted.as_slice())
        }
        None => Ok(false),
    }
}

/// Whether a store begins with what it had before, but for a closed byte.
pub fn goes_on(alloc: Global, lines: &str, store: &[u8]) -> Result<bool, CaseFault> {
    let bytes = bytes_in(alloc, lines, "store before ")?;
    let before = bytes.as_slice();
    Ok(store.starts_with(before.strip_suffix(b"\0").unwrap_or(before)))
}

fn print_digits<K: Sink>(alloc: Global, bytes: &[u8], out: &mut K) -> Result<(), CaseFault> {
    for byte in bytes {
        let digits = two_digits(alloc, *byte)?;
        write_text(out, digits.as_bytes())?;
    }
    write_text(out, b"\n")?;
    Ok(())
}

fn two_digits(alloc: Global, byte: u8) -> Result<String, Memory> {
    let digits = format!(in alloc; " {byte:02x}")?;
    Ok(digits)
}

/// Tells whether the file has the bytes that the lines `store after` make, where there are such lines, and else which
/// it has.
pub fn tell_store<K: Sink>(
    alloc: Global,
    lines: &str,
    disk: &MemDisk,
    out: &mut K,
) -> Result<(), CaseFault> {
    if rest_of(lines, "store after ").is_none() {
        return Ok(());
    }
    let wanted = bytes_in(alloc, lines, "store after ")?;
    let bytes = disk.image(alloc, true)?;
    if bytes.as_slice() == wanted.as_slice() {
        write_text(out, b"store as told\n")?;
        return Ok(());
    }
    write_text(out, b"store differs")?;
    print_digits(alloc, bytes.as_slice(), out)
}
