ghost use Rattle.std.specs.Prelude.{◌≡◌, Some};
ghost use Rattle.wp_top.specs.Ends.{complaint_text, finding_text, store_finding_text};
ghost use Rattle.wp_top.specs.Stops.{stop_at_open, stop_at_words};
ghost use Rattle.wp_top.specs.declared.complaint.Complaint.TheVariants as complaint;
ghost use Rattle.wp_top.specs.declared.complaint.Finding.TheVariants as finding;
ghost use Rattle.wp_top.specs.declared.complaint.Stop.TheVariants as stop;

use crate::input::{Input, Refusal};
use std::fmt;
use wp_cert::CertFault;
use wp_journal::AuditFault;
use wp_model::{Memory, Reply};
use wp_store::OpenFault;
use wp_words::WordsFault;

/// Why a run has no output.
#[derive(Clone, Copy)]
pub enum Complaint {
    /// The words ask for no job.
    Words(WordsFault),
    /// A file is refused.
    Refused(Input, Refusal),
    /// A file could not be read.
    Fault(Input),
    /// What is held against the files isn't right.
    Wrong(Finding),
    /// The disk of the store failed.
    Store,
}

/// What isn't right.
#[derive(Clone, Copy)]
pub enum Finding {
    Certificate(CertFault),
    Journal(AuditFault),
    Store(StoreFinding),
}

/// What isn't right in a store.
#[derive(Clone, Copy)]
pub enum StoreFinding {
    /// Its file has too many bytes.
    TooLong,
    /// The record of this number, counted from 0, is the first that isn't the line of an entry of this number.
    Record(u64),
    /// The entry of this number is the first with another reply than the machine's.
    Entry {
        number: u64,
        printed: Reply,
        right: Reply,
    },
    /// With the commands of the desks there are so many entries, more than a journal may have.
    Entries(u64),
}

/// Why a job stops before its output.
#[derive(Clone, Copy)]
pub enum Stop {
    Complaint(Complaint),
    Memory,
}

impl fmt::Display for Finding {
    ghost output = { λ found. Some (finding_text found) };

    fn fmt<W: fmt::Write>(&self, f: &mut fmt::Formatter<W>) -> fmt::Result {
        match self {
            Finding::Certificate(fault) => write!(f, "certificate {fault}"),
            Finding::Journal(fault) => write!(f, "journal {fault}"),
            Finding::Store(found) => write!(f, "store {found}"),
        }
    }
}

impl fmt::Display for StoreFinding {
    ghost output = { λ found. Some (store_finding_text found) };

    fn fmt<W: fmt::Write>(&self, f: &mut fmt::Formatter<W>) -> fmt::Result {
        match self {
            StoreFinding::TooLong => f.write_str("too-long"),
            StoreFinding::Record(number) => write!(f, "record {number}"),
            StoreFinding::Entry {
                number,
                printed,
                right,
            } => write!(f, "entry {number} printed {printed} right {right}"),
            StoreFinding::Entries(number) => write!(f, "entries {number}"),
        }
    }
}

impl fmt::Display for Complaint {
    ghost output = { λ complaint. Some (complaint_text complaint) };

    fn fmt<W: fmt::Write>(&self, f: &mut fmt::Formatter<W>) -> fmt::Result {
        match self {
            Complaint::Words(why) => write!(f, "refused words {why}"),
            Complaint::Refused(file, why) => write!(f, "refused {file} {why}"),
            Complaint::Fault(file) => write!(f, "read fault {file}"),
            Complaint::Wrong(found) => write!(f, "refused {found}"),
            Complaint::Store => f.write_str("store fault"),
        }
    }
}

impl From<Memory> for Stop {
    ghost from_gives = { λ _ why. why ≡ stop.Memory };

    fn from(_error: Memory) -> Stop {
        Stop::Memory
    }
}

impl From<OpenFault> for Stop {
    ghost from_gives = { λ fault why. why ≡ stop_at_open fault };

    fn from(fault: OpenFault) -> Stop {
        match fault {
            OpenFault::Disk => Stop::Complaint(Complaint::Store),
            OpenFault::TooLong => refused_store(StoreFinding::TooLong),
            OpenFault::Memory => Stop::Memory,
        }
    }
}

/// Why a run stops at what isn't right in its store.
pub fn refused_store(found: StoreFinding) -> Stop
    ensures { result ≡ stop.Complaint (complaint.Wrong (finding.Store found)) }
{
    Stop::Complaint(Complaint::Wrong(Finding::Store(found)))
}

impl From<WordsFault> for Stop {
    ghost from_gives = { λ fault why. why ≡ stop_at_words fault };

    fn from(fault: WordsFault) -> Stop {
        match fault {
            WordsFault::Memory => Stop::Memory,
            _ => Stop::Complaint(Complaint::Words(fault)),
        }
    }
}
