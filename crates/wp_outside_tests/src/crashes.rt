//! Drawn crashes: between two syncs each byte that was written may be any byte, and what stands past the old end may be
//! missing.
use crate::days::{BODIES, append_all, disk_of, opens_with};
use std::alloc::Global;
use std::test::Fail;
use wp_model::Memory;

/// How many images are drawn for each stop.
const DRAWS: u64 = 40;

/// A number drawn from the one before it.
fn drawn(seed: u64) -> u64 {
    seed.wrapping_mul(6_364_136_223_846_793_005)
        .wrapping_add(1_442_695_040_888_963_407)
}

/// An image between two: each byte in which they differ, and each past the old end, is the old one, the new one or any.
fn torn(alloc: Global, old: &[u8], new: &[u8], seed: u64) -> Result<Vec<u8>, Memory> {
    let mut image = Vec::new(alloc);
    let mut seed = drawn(seed);
    for (i, byte) in new.iter().enumerate() {
        seed = drawn(seed);
        let choice = seed >> 60;
        let was = old.get(i).copied();
        if was.is_none() && choice == 0 {
            return Ok(image);
        }
        let any = (seed >> 40 & 255) as u8;
        let same = was == Some(*byte);
        let torn = if choice < 8 {
            *byte
        } else {
            was.unwrap_or(any)
        };
        image.push(if same { *byte } else { torn })?;
    }
    Ok(image)
}

/// Whether each drawn image of a day that stops after so many calls opens with a beginning of it that has all that was
/// acknowledged.
fn all_open(alloc: Global, stop: u64) -> Result<bool, Memory> {
    let mut disk = disk_of(alloc, &[], &[], Some(stop))?;
    let acknowledged = append_all(alloc, &mut disk, BODIES);
    let old = disk.image(alloc, false)?;
    let new = disk.image(alloc, true)?;
    for draw in 0..DRAWS {
        let image = torn(alloc, &old, &new, drawn(stop) ^ draw)?;
        match opens_with(alloc, &image, BODIES)? {
            Some(count) if count >= acknowledged => {}
            _ => return Ok(false),
        }
    }
    Ok(true)
}

fn first_broken(alloc: Global) -> Result<Option<u64>, Memory> {
    for stop in 0..16 {
        if !all_open(alloc, stop)? {
            return Ok(Some(stop));
        }
    }
    Ok(None)
}

#[test]
fn drawn_crashes_open_with_all_that_was_acknowledged(rt: HostRuntime) -> Result<(), Fail> {
    assert_eq!(rt; first_broken(rt.alloc())?, None);
    Ok(())
}
