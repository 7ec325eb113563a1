//! How runs end.

use crate::fault::CaseFault;
use crate::gates::CaseGate;
use crate::given::{bytes_of, text_of};
use crate::host::Host;
use std::sync::Wait;
use std::thread::Threads;
use wp_outside::{Files, MemSink};
use wp_store::MemDisk;
use wp_top::run;

/// How a run ended, what it wrote, and what its store had then.
#[derive(Drop)]
pub struct Ended {
    pub status: u8,
    pub text: String,
    pub store: Vec<u8>,
}

/// Runs words over files and a disk.
pub fn run_words<R: Threads + Wait + Sync, F: Files>(
    host: &Host<'_, R>,
    words: &Vec<String>,
    files: &mut F,
    gate: &CaseGate,
    disk: &mut MemDisk,
) -> Result<Ended, CaseFault> {
    let mut out = MemSink::of(host.alloc, Vec::new(host.alloc));
    let status = run(host.rt, host.alloc, words, files, &mut out, gate, disk);
    let text = text_of(bytes_of(host.alloc, out.taken())?)?;
    let store = disk.image(host.alloc, true)?;
    Ok(Ended {
        status,
        text,
        store,
    })
}
