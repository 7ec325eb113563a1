//! Two records, appended to an empty store, and what each image of it opens as.
ghost use Rattle.std.specs.Prelude.{◌≤◌, length};

use std::alloc::Global;
use std::test::Fail;
use wp_model::Memory;
use wp_store::{Disk, MOST_BODY_BYTES, MemDisk, open};

/// The room of the disks: bytes and calls.
pub const SIZE: u64 = 100_000;

pub const CALLS: u32 = 1_000;

/// The two records of the smallest day.
pub const BODIES: &[&[u8]] = &[
    b"0 1 submit W1 O1 -> submitted\n",
    b"1 1 release W1 -> released\n",
];

/// A disk that holds these bytes.
pub fn disk_of(
    alloc: Global,
    bytes: &[u8],
    fails: &[u64],
    stop: Option<u64>,
) -> Result<MemDisk, Memory>
    requires { length bytes.now ≤ 100000 }
{
    MemDisk::new(
        alloc,
        bytes.to_vec(alloc)?,
        SIZE,
        CALLS,
        fails.to_vec(alloc)?,
        stop,
    )
}

/// Opens a store and appends these records until one isn't stored. How many were acknowledged.
pub fn append_all<D: Disk>(alloc: Global, disk: &mut D, bodies: &[&[u8]]) -> usize {
    let Ok(mut opened) = open(alloc, disk) else {
        return 0;
    };
    for (stored, body) in bodies.iter().enumerate() {
        let fits = 1 <= body.len() && body.len() <= MOST_BODY_BYTES;
        if !fits || opened.store.count() >= 10_000 || opened.store.append(body).is_err() {
            return stored;
        }
    }
    bodies.len()
}

/// How many records an image opens with, where they are the first of these; `None` where they aren't, or it doesn't
/// open.
pub fn opens_with(alloc: Global, image: &[u8], bodies: &[&[u8]]) -> Result<Option<usize>, Memory> {
    if image.len() > 100_000 {
        return Ok(None);
    }
    Ok(records_on(alloc, &mut disk_of(alloc, image, &[], None)?, bodies))
}

/// The same of a disk.
pub fn records_on<D: Disk>(alloc: Global, disk: &mut D, bodies: &[&[u8]]) -> Option<usize> {
    let Ok(opened) = open(alloc, disk) else {
        return None;
    };
    let count = opened.bodies.len();
    if count as usize > bodies.len() {
        return None;
    }
    for i in 0..count {
        if opened.bodies.at(i) != bodies[i as usize] {
            return None;
        }
    }
    Some(count as usize)
}

/// After so many calls, the records in the bytes as they stood after the last sync, and in those that a read gives.
const STOPS: &[(u64, usize, usize)] = &[
    (0, 0, 0),
    (1, 0, 0),
    (2, 0, 0),
    (3, 0, 0),
    (4, 0, 0),
    (5, 0, 0),
    (6, 0, 0),
    (7, 0, 0),
    (8, 0, 0),
    (9, 0, 1),
    (10, 1, 1),
    (11, 1, 1),
    (12, 1, 1),
    (13, 1, 2),
    (14, 2, 2),
    (15, 2, 2),
];

fn stops_as(alloc: Global, stop: u64, old: usize, new: usize) -> Result<bool, Memory> {
    let mut disk = disk_of(alloc, &[], &[], Some(stop))?;
    let _stored = append_all(alloc, &mut disk, BODIES);
    let kept = opens_with(alloc, &disk.image(alloc, false)?, BODIES)?;
    let read = opens_with(alloc, &disk.image(alloc, true)?, BODIES)?;
    Ok(kept == Some(old) && read == Some(new))
}

fn first_other_stop(alloc: Global) -> Result<Option<u64>, Memory> {
    for (stop, old, new) in STOPS {
        if !stops_as(alloc, *stop, *old, *new)? {
            return Ok(Some(*stop));
        }
    }
    Ok(None)
}

#[test]
fn a_disk_that_stops_keeps_what_was_acknowledged(rt: HostRuntime) -> Result<(), Fail> {
    assert_eq!(rt; first_other_stop(rt.alloc())?, None);
    Ok(())
}

#[test]
fn two_records_take_68_bytes(rt: HostRuntime) -> Result<(), Fail> {
    let alloc = rt.alloc();
    let mut disk = disk_of(alloc, &[], &[], None)?;
    assert_eq!(rt; append_all(alloc, &mut disk, BODIES), 2);
    assert_eq!(rt; disk.image(alloc, true)?.len(), 68);
    assert_eq!(rt; disk.image(alloc, false)?.len(), 68);
    Ok(())
}

/// Which call fails, how many records were acknowledged, and how many the file opens with afterwards.
const FAILURES: &[(u64, usize, usize)] = &[
    (1, 0, 0),
    (2, 0, 0),
    (3, 0, 0),
    (4, 0, 0),
    (5, 0, 0),
    (6, 0, 0),
    (7, 0, 0),
    (8, 0, 0),
    (9, 0, 0),
    (10, 0, 1),
    (11, 1, 1),
    (12, 1, 1),
    (13, 1, 1),
    (14, 1, 2),
];

fn fails_as(alloc: Global, call: u64, stored: usize, read: usize) -> Result<bool, Memory> {
    let mut disk = disk_of(alloc, &[], &[call], None)?;
    let acknowledged = append_all(alloc, &mut disk, BODIES);
    let opens = opens_with(alloc, &disk.image(alloc, true)?, BODIES)?;
    Ok(acknowledged == stored && opens == Some(read))
}

fn first_other_failure(alloc: Global) -> Result<Option<u64>, Memory> {
    for (call, stored, read) in FAILURES {
        if !fails_as(alloc, *call, *stored, *read)? {
            return Ok(Some(*call));
        }
    }
    Ok(None)
}

#[test]
fn a_call_that_fails_leaves_the_records_before_it(rt: HostRuntime) -> Result<(), Fail> {
    assert_eq!(rt; first_other_failure(rt.alloc())?, None);
    Ok(())
}
