//! The next run of a case, over what a crash may leave of its disk.

use crate::ended::{Ended, run_words};
use crate::fault::CaseFault;
use crate::gates::CaseGate;
use crate::given::bytes_of;
use crate::host::Host;
use crate::lines::{number_in, words_in};
use crate::stores::{disk_over, is_journal};
use std::alloc::Global;
use std::sync::Wait;
use std::thread::Threads;
use wp_model::Memory;
use wp_outside::{Files, Sink, write_text};
use wp_store::MemDisk;

/// What a crash may leave of a disk: the bytes that a read gives, and those as they stood after the last sync.
#[derive(Drop)]
struct Images {
    read: Vec<u8>,
    synced: Vec<u8>,
}

/// How the next run ends over each of them.
#[derive(Drop)]
struct Endings {
    read: Ended,
    synced: Ended,
}

fn images_of(alloc: Global, disk: &MemDisk) -> Result<Images, Memory> {
    let read = disk.image(alloc, true)?;
    let synced = disk.image(alloc, false)?;
    Ok(Images { read, synced })
}

/// A number drawn from the one before it.
fn drawn(seed: u64) -> u64 {
    seed.wrapping_mul(6_364_136_223_846_793_005)
        .wrapping_add(1_442_695_040_888_963_407)
}

/// A byte as a crash may leave it. What was cut off stays or is gone, and what stands past the old end may be missing.
/// Else it is the old one, the new one, 1 or any.
fn torn_byte(old: Option<u8>, new: Option<u8>, seed: u64) -> Option<u8> {
    let choice = seed >> 60;
    match (old, new) {
        (None, None) => None,
        (Some(_), None) | (None, _) if choice == 0 => None,
        (Some(old), None) => Some(old),
        (Some(old), Some(new)) if old == new => Some(new),
        (Some(old), _) if choice < 4 => Some(old),
        (_, Some(new)) if choice < 12 => Some(new),
        _ if choice < 14 => Some(1),
        _ => Some((seed >> 40 & 255) as u8),
    }
}

/// A drawn image between these two.
fn torn(alloc: Global, images: &Images, seed: u64) -> Result<Vec<u8>, Memory> {
    let mut image = Vec::new(alloc);
    let (old, new) = (images.synced.as_slice(), images.read.as_slice());
    let mut seed = drawn(seed);
    for i in 0..old.len().max(new.len()) {
        seed = drawn(seed);
        match torn_byte(old.get(i).copied(), new.get(i).copied(), seed) {
            Some(byte) => image.push(byte)?,
            None => return Ok(image),
        }
    }
    Ok(image)
}

/// Runs words over files and a sound disk that holds an image.
fn run_over<R: Threads + Wait + Sync, F: Files>(
    host: &Host<'_, R>,
    words: &Vec<String>,
    files: &mut F,
    image: &[u8],
) -> Result<Ended, CaseFault> {
    let mut disk = disk_over(host.alloc, bytes_of(host.alloc, image)?)?;
    run_words(host, words, files, &CaseGate::Open, &mut disk)
}

fn run_over_both<R: Threads + Wait + Sync, F: Files>(
    host: &Host<'_, R>,
    words: &Vec<String>,
    files: &mut F,
    images: &Images,
) -> Result<Endings, CaseFault> {
    let read = run_over(host, words, files, images.read.as_slice())?;
    let synced = run_over(host, words, files, images.synced.as_slice())?;
    Ok(Endings { read, synced })
}

fn end_alike(one: &Ended, other: &Ended) -> bool {
    one.status == other.status
        && one.text.as_str() == other.text.as_str()
        && one.store.as_slice() == other.store.as_slice()
}

/// So many drawn images, over which the next run is to end as over one of these two.
#[derive(Drop)]
struct Draws<'a> {
    count: u64,
    images: &'a Images,
    endings: &'a Endings,
}

/// The first end over a drawn image that is neither of the two.
fn other_end<R: Threads + Wait + Sync, F: Files>(
    host: &Host<'_, R>,
    words: &Vec<String>,
    files: &mut F,
    draws: &Draws<'_>,
) -> Result<Option<Ended>, CaseFault> {
    for number in 0..draws.count {
        let image = torn(host.alloc, draws.images, number)?;
        let ended = run_over(host, words, files, image.as_slice())?;
        if !end_alike(&ended, &draws.endings.read) && !end_alike(&ended, &draws.endings.synced) {
            return Ok(Some(ended));
        }
    }
    Ok(None)
}

fn heading_of(alloc: Global, label: &str, ended: &Ended) -> Result<String, Memory> {
    let status = ended.status;
    let text = format!(in alloc; "next run{label}, status {status}\n")?;
    Ok(text)
}

/// Tells how a run ended, and whether its store has just the journal then.
fn tell_end<K: Sink>(
    alloc: Global,
    label: &str,
    ended: &Ended,
    out: &mut K,
) -> Result<(), CaseFault> {
    let heading = heading_of(alloc, label, ended)?;
    write_text(out, heading.as_bytes())?;
    write_text(out, ended.text.as_bytes())?;
    if is_journal(alloc, ended.store.as_slice(), ended.text.as_str())? {
        write_text(out, b"the store has the journal\n")?;
    }
    Ok(())
}

fn tell_ends<K: Sink>(
    alloc: Global,
    images: &Images,
    endings: &Endings,
    out: &mut K,
) -> Result<(), CaseFault> {
    if images.read.as_slice() == images.synced.as_slice() {
        return tell_end(alloc, "", &endings.read, out);
    }
    tell_end(alloc, " over what a read gives", &endings.read, out)?;
    tell_end(alloc, " over what was synced", &endings.synced, out)
}

fn draws_text(alloc: Global, count: u64) -> Result<String, Memory> {
    let text = format!(in alloc; "next runs over drawn images that end so {count}\n")?;
    Ok(text)
}

/// Tells how many runs over drawn images ended as one of the two, or the first that didn't.
fn tell_draws<R: Threads + Wait + Sync, F: Files, K: Sink>(
    host: &Host<'_, R>,
    words: &Vec<String>,
    files: &mut F,
    draws: &Draws<'_>,
    out: &mut K,
) -> Result<(), CaseFault> {
    match other_end(host, words, files, draws)? {
        Some(ended) => tell_end(
            host.alloc,
            " over a drawn image, which ends otherwise",
            &ended,
            out,
        ),
        None => {
            let text = draws_text(host.alloc, draws.count)?;
            write_text(out, text.as_bytes())?;
            Ok(())
        }
    }
}

/// Runs what a line `next` says over each image that the disk may have now, where there is such a line, and tells how
/// that ends. Where a line `drawn` gives a number, so many images between these are drawn too.
pub fn tell_next<R: Threads + Wait + Sync, F: Files, K: Sink>(
    host: &Host<'_, R>,
    lines: &str,
    files: &mut F,
    disk: &MemDisk,
    out: &mut K,
) -> Result<(), CaseFault> {
    let words = words_in(host.alloc, lines, "next ")?;
    if words.is_empty() {
        return Ok(());
    }
    let images = images_of(host.alloc, disk)?;
    let endings = run_over_both(host, &words, files, &images)?;
    tell_ends(host.alloc, &images, &endings, out)?;
    match number_in(lines, "drawn ")? {
        None => Ok(()),
        Some(count) => {
            let draws = Draws {
                count,
                images: &images,
                endings: &endings,
            };
            tell_draws(host, &words, files, &draws, out)
        }
    }
}
