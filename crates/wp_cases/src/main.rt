//! `wp_cases` runs the cases of the files that its arguments name, and prints the status and the output of each, or how
//! its runs are judged.
#![tactic(auto)]

mod counting;
mod crashes;
mod ended;
mod fault;
mod gates;
mod given;
mod host;
mod judged;
mod judging;
mod lines;
mod narrow;
mod sheets;
mod stores;

use crate::crashes::tell_next;
use crate::fault::CaseFault;
use crate::gates::CaseGate;
use crate::given::{files_of, text_of};
use crate::host::Host;
use crate::judged::judge_runs;
use crate::judging::own_status;
use crate::lines::{has_line, rest_of, sink_of, test_lines, words_of};
use crate::narrow::NarrowSink;
use crate::stores::{disk_of, tell_store};
use std::alloc::Global;
use std::process::ExitCode;
use std::sync::Wait;
use std::thread::Threads;
use std::{env, io};
use wp_model::Memory;
use wp_outside::{
    Files, MemFiles, RealFiles, Sink, StdSink, SystemFiles, SystemWriter, write_text,
};
use wp_top::run;

/// How many writes of a case may fail in turn.
const MOST_WRITES: u64 = 10_000;

fn heading(alloc: Global, name: &str, status: u8) -> Result<String, Memory> {
    let text = format!(in alloc; "case {name}\nstatus {status}\n")?;
    Ok(text)
}

fn heading_of_write(alloc: Global, name: &str, number: u64) -> Result<String, Memory> {
    let text = format!(in alloc; "{name}, write {number}")?;
    Ok(text)
}

/// Prints how the case of this name has ended, and an empty line.
pub fn print_end<K: Sink>(
    alloc: Global,
    name: &str,
    status: u8,
    taken: &[u8],
    out: &mut K,
) -> Result<(), CaseFault> {
    let heading = heading(alloc, name, status)?;
    write_text(out, heading.as_bytes())?;
    write_text(out, taken)?;
    write_text(out, b"\n")?;
    Ok(())
}

/// The status of a run whose desks and workers pass a gate, over the disk of the case. What the gate tells follows the
/// output, and then whether the store is as the lines say, and how the next run ends.
fn run_at_gate<R: Threads + Wait + Sync, F: Files, K: Sink>(
    host: &Host<'_, R>,
    words: &Vec<String>,
    lines: &str,
    files: &mut F,
    out: &mut K,
) -> Result<u8, CaseFault> {
    let gate = CaseGate::of(lines);
    let mut disk = disk_of(host.alloc, lines)?;
    let status = run(host.rt, host.alloc, words, files, out, &gate, &mut disk);
    let told = gate.told(host.alloc)?;
    write_text(out, told.as_bytes())?;
    tell_store(host.alloc, lines, &disk, out)?;
    tell_next(host, lines, files, &disk, out)?;
    Ok(status)
}

/// The status of the run that the lines of a case ask for.
fn status_of<R: Threads + Wait + Sync, F: Files, K: Sink>(
    host: &Host<'_, R>,
    lines: &str,
    files: &mut F,
    out: &mut K,
) -> Result<u8, CaseFault> {
    let words = words_of(host.alloc, lines)?;
    if has_line(lines, "by itself") {
        own_status(host.alloc, &words, files, out)
    } else {
        run_at_gate(host, &words, lines, files, out)
    }
}

/// Runs a case over its files and into a sink, prints how that ends, and gives the status.
fn run_into<R: Threads + Wait + Sync, K: Sink>(
    host: &Host<'_, R>,
    (name, lines): (&str, &str),
    files: &mut MemFiles,
    mut sink: NarrowSink,
    out: &mut K,
) -> Result<u8, CaseFault> {
    let status = status_of(host, lines, files, &mut sink)?;
    print_end(host.alloc, name, status, sink.taken(), out)?;
    Ok(status)
}

/// Runs a case with its write of this number failing.
fn run_up_to<R: Threads + Wait + Sync, K: Sink>(
    host: &Host<'_, R>,
    (name, lines): (&str, &str),
    files: &mut MemFiles,
    number: u64,
    out: &mut K,
) -> Result<u8, CaseFault> {
    let sink = sink_of(host.alloc, lines, Some(number))?;
    let name = heading_of_write(host.alloc, name, number)?;
    run_into(host, (name.as_str(), lines), files, sink, out)
}

/// Runs a case again and again, with the first write failing, the second, and so on, up to the run in which none fails.
fn run_each<R: Threads + Wait + Sync, K: Sink>(
    host: &Host<'_, R>,
    case: (&str, &str),
    files: &mut MemFiles,
    out: &mut K,
) -> Result<(), CaseFault> {
    for number in 1..MOST_WRITES {
        if run_up_to(host, case, files, number, out)? != 4 {
            return Ok(());
        }
    }
    Err(CaseFault::Line)
}

/// Runs the words of a case over its files, and prints how that ends.
fn run_over<R: Threads + Wait + Sync, K: Sink>(
    host: &Host<'_, R>,
    (name, lines): (&str, &str),
    files: &mut MemFiles,
    out: &mut K,
) -> Result<(), CaseFault> {
    if has_line(lines, "each write fails in turn") {
        run_each(host, (name, lines), files, out)
    } else {
        let sink = sink_of(host.alloc, lines, None)?;
        let _status = run_into(host, (name, lines), files, sink, out)?;
        Ok(())
    }
}

fn run_case<R: Threads + Wait + Sync, F: Files, K: Sink>(
    host: &Host<'_, R>,
    case: &str,
    common: &str,
    source: &mut F,
    out: &mut K,
) -> Result<(), CaseFault> {
    let Some((name, lines)) = case.split_once('\n') else {
        return Err(CaseFault::Line);
    };
    test_lines(lines)?;
    let mut files = files_of(host.alloc, lines, common, source)?;
    match rest_of(lines, "runs ") {
        Some(runs) => judge_runs(host, (name, lines), &mut files, runs, out),
        None => run_over(host, (name, lines), &mut files, out),
    }
}

/// Runs the cases of a text one after the other. What stands before the first holds for every case.
fn run_cases<R: Threads + Wait + Sync, F: Files, K: Sink>(
    host: &Host<'_, R>,
    text: &str,
    source: &mut F,
    out: &mut K,
) -> Result<(), CaseFault> {
    let mut parts = text.split("\ncase ");
    let common = parts.next().unwrap_or("");
    for case in parts {
        run_case(host, case, common, source, out)?;
    }
    Ok(())
}

/// Runs the cases of the file of this name.
fn run_file<R: Threads + Wait + Sync, F: Files, K: Sink>(
    host: &Host<'_, R>,
    name: &str,
    source: &mut F,
    out: &mut K,
) -> Result<(), CaseFault> {
    let text = text_of(source.read(host.alloc, name)?)?;
    run_cases(host, text.as_str(), source, out)
}

/// Runs the cases of each file that the arguments name. The handle for threads and for waiting is that of `main`, which
/// alone has it.
fn run_files<R: Threads + Wait + Sync>(rt: &HostRuntime, threads: &R) -> Result<(), CaseFault> {
    let Ok(mut names) = env::args(rt) else {
        return Err(CaseFault::Memory);
    };
    let _program = names.next();
    let host = Host {
        rt: threads,
        alloc: rt.alloc(),
    };
    let mut source = RealFiles::new(SystemFiles::of(rt));
    let mut out = StdSink::new(SystemWriter::of(io::writer(rt)));
    for name in names {
        run_file(&host, name.as_str(), &mut source, &mut out)?;
    }
    Ok(())
}

fn main(rt: HostRuntime) -> ExitCode {
    match run_files(&rt, &rt) {
        Ok(()) => ExitCode::from(0),
        Err(fault) => {
            let _told = eprintln!(rt; "the cases stop at {fault}");
            ExitCode::from(1)
        }
    }
}
