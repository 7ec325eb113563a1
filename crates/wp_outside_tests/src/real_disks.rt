//! The two records of the smallest day on a disk over a file: in memory, where each call moves few bytes or fails,
//! and of the system.
use crate::days::{BODIES, CALLS, SIZE, append_all, records_on};
use std::alloc::Global;
use std::fs;
use std::test::Fail;
use wp_model::Memory;
use wp_store::{Disk, DiskFault, FileRoom, MemFile, RealDisk, STORE_FILE, SystemFile};

/// A disk over an empty file, of whose calls each moves so many bytes at most.
fn disk_over(alloc: Global, most: usize, fails: &[u64]) -> Result<RealDisk<MemFile>, Memory> {
    let room = FileRoom {
        size: SIZE,
        calls: CALLS,
        most,
    };
    let file = MemFile::new(alloc, Vec::new(alloc), room, fails.to_vec(alloc)?)?;
    Ok(RealDisk::new(file))
}

/// How many bytes a call moves at most; 0 is 1.
const PIECES: &[usize] = &[0, 1, 2, 7, 34, 35, 100];

fn first_other_piece(alloc: Global) -> Result<Option<usize>, Memory> {
    for most in PIECES {
        let mut disk = disk_over(alloc, *most, &[])?;
        if append_all(alloc, &mut disk, BODIES) != 2
            || records_on(alloc, &mut disk, BODIES) != Some(2)
        {
            return Ok(Some(*most));
        }
    }
    Ok(None)
}

#[test]
fn two_records_are_written_and_read_in_pieces(rt: HostRuntime) -> Result<(), Fail> {
    assert_eq!(rt; first_other_piece(rt.alloc())?, None);
    Ok(())
}

/// Which call of the file fails, how many records were acknowledged, and how many the file opens with afterwards.
const FAILURES: &[(u64, usize, usize)] = &[
    (1, 0, 0),
    (2, 0, 0),
    (3, 0, 0),
    (4, 0, 0),
    (5, 0, 0),
    (6, 0, 0),
    (7, 0, 0),
    (8, 0, 0),
    (9, 0, 0),
    (10, 0, 0),
    (11, 0, 0),
    (12, 0, 0),
    (13, 0, 0),
    (14, 0, 1),
    (15, 1, 1),
    (16, 1, 1),
    (17, 1, 1),
    (18, 1, 1),
    (19, 1, 1),
    (20, 1, 2),
    (21, 2, 2),
];

fn first_other_failure(alloc: Global) -> Result<Option<u64>, Memory> {
    for (call, stored, read) in FAILURES {
        let mut disk = disk_over(alloc, 100, &[*call])?;
        let acknowledged = append_all(alloc, &mut disk, BODIES);
        let _tried = disk.sync();
        if acknowledged != *stored || records_on(alloc, &mut disk, BODIES) != Some(*read) {
            return Ok(Some(*call));
        }
    }
    Ok(None)
}

#[test]
fn a_call_of_the_file_that_fails_leaves_the_records_before_it(rt: HostRuntime) -> Result<(), Fail> {
    assert_eq!(rt; first_other_failure(rt.alloc())?, None);
    Ok(())
}

/// What a second disk over the store's file answers while a first has it.
fn read_beside(rt: &HostRuntime) -> Option<DiskFault> {
    let alloc = rt.alloc();
    let mut first = RealDisk::new(SystemFile::of(rt));
    if append_all(alloc, &mut first, BODIES) != 2 {
        return None;
    }
    RealDisk::new(SystemFile::of(rt)).read(alloc).err()
}

#[test]
fn a_store_is_kept_and_one_run_has_it_at_a_time(rt: HostRuntime) -> Result<(), Fail> {
    let alloc = rt.alloc();
    let beside = read_beside(&rt);
    let after = records_on(alloc, &mut RealDisk::new(SystemFile::of(&rt)), BODIES);
    fs::remove_file(&rt, STORE_FILE)?;
    assert_eq!(rt; beside, Some(DiskFault::Failed));
    assert_eq!(rt; after, Some(2));
    Ok(())
}
