//! Cases whose output may differ from run to run. They are run so many times, and each output is judged.

use crate::ended::{Ended, run_words};
use crate::fault::CaseFault;
use crate::gates::CaseGate;
use crate::host::Host;
use crate::judging::{audit_words, audit_writes, is_among};
use crate::lines::{has_line, line_of, rest_of, words_of};
use crate::print_end;
use crate::sheets::is_certified;
use crate::stores::{disk_of, goes_on, is_journal};
use std::alloc::Global;
use std::sync::Wait;
use std::thread::Threads;
use wp_model::Memory;
use wp_outside::{MemFiles, Sink};

/// One run of a case.
fn run_once<R: Threads + Wait + Sync>(
    host: &Host<'_, R>,
    lines: &str,
    files: &mut MemFiles,
    gate: &CaseGate,
) -> Result<Ended, CaseFault> {
    let words = words_of(host.alloc, lines)?;
    let mut disk = disk_of(host.alloc, lines)?;
    run_words(host, &words, files, gate, &mut disk)
}

/// Whether the audit of an output writes what a line `audit` says, where there is one. It is given the units of the
/// words.
fn is_audited(
    alloc: Global,
    lines: &str,
    files: &mut MemFiles,
    output: &str,
) -> Result<bool, CaseFault> {
    let Some(entries) = rest_of(lines, "audit ") else {
        return Ok(true);
    };
    let words = audit_words(alloc, lines)?;
    let text = line_of(alloc, "audit", entries)?;
    audit_writes(alloc, words.as_str(), files, output, text.as_str())
}

/// Whether the store goes on to the journal of the output, where a line says that it does.
fn is_stored(alloc: Global, lines: &str, ended: &Ended) -> Result<bool, CaseFault> {
    let store = ended.store.as_slice();
    Ok(
        !has_line(lines, "store goes on")
            || is_journal(alloc, store, ended.text.as_str())? && goes_on(alloc, lines, store)?,
    )
}

/// Whether a run ended well, and its output is as the lines of the case say.
fn is_right(
    alloc: Global,
    lines: &str,
    files: &mut MemFiles,
    ended: &Ended,
) -> Result<bool, CaseFault> {
    let output = ended.text.as_str();
    let certificates = has_line(lines, "certificates");
    Ok(
        ended.status == 0
            && is_among(alloc, lines, files, output)?
            && is_audited(alloc, lines, files, output)?
            && is_stored(alloc, lines, ended)?
            && (!certificates || is_certified(alloc, files, output)?),
    )
}

/// The first of so many runs that isn't right.
fn wrong_run<R: Threads + Wait + Sync>(
    host: &Host<'_, R>,
    lines: &str,
    files: &mut MemFiles,
    runs: u32,
    gate: &CaseGate,
) -> Result<Option<Ended>, CaseFault> {
    for _ in 0..runs {
        let ended = run_once(host, lines, files, gate)?;
        if !is_right(host.alloc, lines, files, &ended)? {
            return Ok(Some(ended));
        }
    }
    Ok(None)
}

/// The text that tells of so many right runs, and of what the gate tells.
fn right_text(alloc: Global, runs: u32, gate: &CaseGate) -> Result<String, Memory> {
    let told = gate.told(alloc)?;
    let told = told.as_str();
    let text = format!(in alloc; "right runs {runs}\n{told}")?;
    Ok(text)
}

fn wrong_text(alloc: Global, output: &str) -> Result<String, Memory> {
    let text = format!(in alloc; "wrong run\n{output}")?;
    Ok(text)
}

/// Runs a case so many times, and prints that each run was right, or the first that was not.
fn judge_so_many<R: Threads + Wait + Sync, K: Sink>(
    host: &Host<'_, R>,
    (name, lines): (&str, &str),
    files: &mut MemFiles,
    runs: u32,
    out: &mut K,
) -> Result<(), CaseFault> {
    let gate = CaseGate::of(lines);
    match wrong_run(host, lines, files, runs, &gate)? {
        Some(ended) => print_wrong(host.alloc, name, &ended, out),
        None => print_right(host.alloc, name, runs, &gate, out),
    }
}

fn print_wrong<K: Sink>(
    alloc: Global,
    name: &str,
    ended: &Ended,
    out: &mut K,
) -> Result<(), CaseFault> {
    let text = wrong_text(alloc, ended.text.as_str())?;
    print_end(alloc, name, ended.status, text.as_bytes(), out)
}

fn print_right<K: Sink>(
    alloc: Global,
    name: &str,
    runs: u32,
    gate: &CaseGate,
    out: &mut K,
) -> Result<(), CaseFault> {
    let text = right_text(alloc, runs, gate)?;
    print_end(alloc, name, 0, text.as_bytes(), out)
}

/// Runs a case over its files as many times as its line `runs` says, and prints how its runs are judged.
pub fn judge_runs<R: Threads + Wait + Sync, K: Sink>(
    host: &Host<'_, R>,
    case: (&str, &str),
    files: &mut MemFiles,
    digits: &str,
    out: &mut K,
) -> Result<(), CaseFault> {
    match digits.parse::<u32>() {
        Ok(runs) => judge_so_many(host, case, files, runs, out),
        Err(_) => Err(CaseFault::Line),
    }
}
