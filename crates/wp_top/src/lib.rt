//! The whole run: from the words of the command line and the files to the text that goes out.
//!
//! The words ask for a job, and each job has a file of its own: planning a day, checking a certificate, auditing a
//! journal, and planning a day that is made. A job reads its files one after the other, and gives its output or stops;
//! then the text of its ending goes out. A day may go on from a store, which is opened after the files and gets the new
//! entries once all waves are planned. The output of a plan is written part by part after that. The desks of a day run
//! beside each other, so a day's output is that of one legal history of theirs, and another run may give another.
#![tactic(auto)]

mod audit;
mod check;
pub mod complaint;
mod day;
mod ending;
pub mod input;
mod laws;
mod make;
mod plan;
pub mod reading;
mod sections;
pub mod status;
mod store;
mod summary;
mod written;

ghost use Rattle.std.specs.Prelude.{◌≡◌, ◌≤◌, false, Ok};
ghost use Rattle.wp_outside.specs.Outside.{NoneFalls, SameBytes};
ghost use Rattle.wp_top.specs.Ends.{AreNewIn, ReadsWithin, asked_by, audit_job, check_job, most_reads};
ghost use Rattle.wp_top.specs.Promise.{AsksForStore, Keeps, course};
ghost use Rattle.wp_top.specs.Stops.{HasEnded, IsOfInput};
ghost use Rattle.wp_top.specs.Stores.{AreSomeKept, disk_course, no_disk, nothing};

use crate::audit::audit_output;
use crate::check::check_output;
pub use crate::day::Resources;
use crate::ending::{end_job, end_stopped};
pub use crate::laws::plans_print_right_journals;
use crate::make::make_output;
use crate::plan::run_plan;
use crate::status::Status;
use std::alloc::Global;
use std::sync::Wait;
use std::thread::Threads;
use wp_outside::{Files, Gate, Sink};
use wp_store::Disk;
use wp_words::{Job, read_words};
pub use wp_words::{AuditWords, CheckWords};

// Does the job that words ask for, and gives how the run ended.
fn run_job<R: Threads + Wait + Sync, F: Files, K: Sink, G: Gate, D: Disk>(
    resources: &Resources<'_, R, G>,
    words: &Vec<String>,
    files: &mut F,
    out: &mut K,
    disk: &mut D,
) -> Status
    ensures ended { HasEnded (asked_by words.now.items)
        (disk_course (D.told disk.old) (D.told disk.new))
        (F.told files.old) (F.told files.new) (K.told out.old) (K.told out.new) result }
    ensures stored { AsksForStore (asked_by words.now.items)
        → AreSomeKept (disk_course (D.told disk.old) (D.told disk.new))
        (AreNewIn (asked_by words.now.items) (D.told disk.old).holds (F.told files.old) (F.told files.new)) }
    ensures untouched { ¬ AsksForStore (asked_by words.now.items) → disk.new ≡ disk.old }
    ensures unopened { IsOfInput result → disk.new ≡ disk.old }
    ensures same { SameBytes (F.told files.old).holds (F.told files.new).holds }
    ensures counts { NoneFalls (F.told files.old).faults (F.told files.new).faults }
    ensures reads { ReadsWithin (F.told files.old) (F.told files.new)
        (most_reads (asked_by words.now.items)) }
    ensures early { (K.told out.old).stopped ≡ false
        → (K.told out.new).late ≡ (K.told out.old).late }
{
    let alloc = resources.alloc;
    match read_words(alloc, words) {
        Ok(Job::Plan(words)) => run_plan(resources, &words, files, out, disk),
        Ok(Job::Check(words)) => end_job(alloc, check_output(alloc, files, &words), out),
        Ok(Job::Audit(words)) => end_job(alloc, audit_output(alloc, files, &words), out),
        Ok(Job::Make(words)) => end_job(alloc, make_output(resources, &words), out),
        Err(fault) => end_stopped(alloc, fault.into(), out),
    }
}

/// Runs the job that the words ask for, and gives its status: 0 the whole output was taken; 1 the words ask for no job;
/// 2 a file is refused; 3 a file could not be read; 4 the output could not be written; 5 memory ran out; 6 the
/// certificate, the journal or the store isn't right; 7 the disk of the store failed. With 1, 2, 3, 6 and 7 one line
/// was written; with 4 and 5 a beginning of the text, or nothing. The desks of a plan and the workers that price its
/// waves pass the gate, and what is promised doesn't hang on when it lets them. Where the words have no store no call
/// is made on the disk, nor with 1, 2 and 3. Where they have one, each image of it that a crash leaves at some moment
/// of the run is one that there was before, or has the records that there were and a beginning of the new entries, with
/// all that were acknowledged; and where anything of the output was written each image has all of them. The disk is
/// called at most six times, and four times for each new entry.
pub fn run<R: Threads + Wait + Sync, F: Files, K: Sink, G: Gate, D: Disk>(
    rt: &R,
    alloc: Global,
    words: &Vec<String>,
    files: &mut F,
    out: &mut K,
    gate: &G,
    disk: &mut D,
) -> u8
    ensures { Keeps (asked_by words.now.items)
        (course (F.told files.old) (K.told out.old) (F.told files.new) (K.told out.new)
        (disk_course (D.told disk.old) (D.told disk.new))) disk.old disk.new result }
{
    run_job(&Resources { rt, alloc, gate }, words, files, out, disk).number()
}

/// Checks the certificate that the words name, and gives the status as `run` does: each but 1.
pub fn run_check<F: Files, K: Sink>(
    alloc: Global,
    words: &CheckWords,
    files: &mut F,
    out: &mut K,
) -> u8
    ensures { Keeps (Ok (check_job words.now))
        (course (F.told files.old) (K.told out.old) (F.told files.new) (K.told out.new) no_disk)
        nothing nothing result }
{
    end_job(alloc, check_output(alloc, files, words), out).number()
}

/// Audits the journal that the words name, and gives the status as `run` does: each but 1.
pub fn run_audit<F: Files, K: Sink>(
    alloc: Global,
    words: &AuditWords,
    files: &mut F,
    out: &mut K,
) -> u8
    ensures { Keeps (Ok (audit_job words.now))
        (course (F.told files.old) (K.told out.old) (F.told files.new) (K.told out.new) no_disk)
        nothing nothing result }
{
    end_job(alloc, audit_output(alloc, files, words), out).number()
}
