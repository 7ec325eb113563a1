//! What stands behind the last record, and the greatest files.
use crate::days::{BODIES, disk_of, opens_with};
use std::alloc::{AllocError, Global};
use std::test::Fail;
use wp_model::Memory;
use wp_store::open;

/// The first record of the smallest day, as it stands in a file.
const FIRST: &[u8] = b"\x01\x00\x00\x00\x1e0 1 submit W1 O1 -> submitted\n";

/// What stands behind a record and is no record: nothing, a closed byte, noise, a record cut short, no length, a length
/// that is too great, one with its least byte first, and a closed byte before a whole record.
const ENDS: &[&[u8]] = &[
    b"",
    b"\x00",
    b"\x01",
    b"\x02\x00\x00\x00\x01a",
    b"\x01\x00\x00\x00",
    b"\x01\x00\x00\x00\x03ab",
    b"\x01\x00\x00\x00\x00a",
    b"\x01\x00\x00\x20\x01a",
    b"\x01\x01\x00\x00\x00a",
    b"\x00\x01\x00\x00\x00\x1b1 1 release W1 -> released\n",
];

fn is_cut_away(alloc: Global, end: &[u8]) -> Result<bool, Memory> {
    let mut bytes = FIRST.to_vec(alloc)?;
    bytes.extend_from_slice(end)?;
    if bytes.len() > 1000 {
        return Ok(false);
    }
    let mut disk = disk_of(alloc, &bytes, &[], None)?;
    let opens = open(alloc, &mut disk).is_ok();
    let left = disk.image(alloc, false)?;
    Ok(opens && left.len() == FIRST.len() + 1 && opens_with(alloc, &left, BODIES)? == Some(1))
}

fn first_other_end(alloc: Global) -> Result<Option<usize>, Memory> {
    for (i, end) in ENDS.iter().enumerate() {
        if !is_cut_away(alloc, end)? {
            return Ok(Some(i));
        }
    }
    Ok(None)
}

#[test]
fn what_stands_behind_the_last_record_is_cut_away(rt: HostRuntime) -> Result<(), Fail> {
    assert_eq!(rt; first_other_end(rt.alloc())?, None);
    Ok(())
}

/// So many records of one byte.
fn many(alloc: Global, count: usize) -> Result<Vec<u8>, AllocError> {
    let mut bytes = Vec::new(alloc);
    for _ in 0..count {
        bytes.extend_from_slice(b"\x01\x00\x00\x00\x01a")?;
    }
    Ok(bytes)
}

fn count_of(alloc: Global, bytes: Vec<u8>) -> Result<Option<u32>, Memory> {
    if bytes.len() > 100_000 {
        return Ok(None);
    }
    let mut disk = disk_of(alloc, &bytes, &[], None)?;
    match open(alloc, &mut disk) {
        Ok(opened) => Ok(Some(opened.bodies.len())),
        Err(_) => Ok(None),
    }
}

#[test]
fn no_more_than_10000_records_are_read(rt: HostRuntime) -> Result<(), Fail> {
    let alloc = rt.alloc();
    assert_eq!(rt; count_of(alloc, many(alloc, 9_999)?)?, Some(9_999));
    assert_eq!(rt; count_of(alloc, many(alloc, 10_001)?)?, Some(10_000));
    Ok(())
}
