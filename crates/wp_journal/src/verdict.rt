ghost use Rattle.std.specs.Prelude.{◌≡◌, Some};
ghost use Rattle.wp_journal.specs.FaultTexts.{audit_fault_text, replay_fault_text};
ghost use Rattle.wp_journal.specs.declared.verdict.AuditFault.TheVariants as fault;
ghost use Rattle.wp_journal.specs.declared.verdict.ReplayFault.TheVariants as replay_fault;

use std::alloc::{AllocError, AllocFailed};
use std::error::Error;
use std::fmt;
use wp_model::{Memory, Reply};

/// What an audit finds right: how many entries stand between the line `journal` and the line `end journal`.
#[derive(Clone, Copy, PartialEq, Eq)]
pub struct Audit {
    pub entries: u64,
}

/// Why a line isn't taken in as the next entry.
#[derive(Clone, Copy, Debug, PartialEq, Eq)]
pub enum ReplayFault {
    /// It is not the line of an entry of the next number.
    NotNext,
    /// It is, and the entry has another reply than the machine's.
    WrongReply {
        number: u64,
        printed: Reply,
        right: Reply,
    },
    /// There was no memory for the replay.
    Memory,
}

impl fmt::Display for ReplayFault {
    ghost output = { λ found. Some (replay_fault_text found) };

    fn fmt<W: fmt::Write>(&self, f: &mut fmt::Formatter<W>) -> fmt::Result {
        match self {
            ReplayFault::NotNext => f.write_str("not-next"),
            ReplayFault::WrongReply {
                number,
                printed,
                right,
            } => write!(f, "entry {number} printed {printed} right {right}"),
            ReplayFault::Memory => f.write_str("memory"),
        }
    }
}

impl Error for ReplayFault {}

impl From<Memory> for ReplayFault {
    ghost from_gives = { λ _ e. e ≡ replay_fault.Memory };

    fn from(_error: Memory) -> ReplayFault {
        ReplayFault::Memory
    }
}

/// The first line of a journal that isn't right.
#[derive(Clone, Copy, Debug, PartialEq, Eq)]
pub enum AuditFault {
    /// The line of this number, counted from 1, is neither the next entry nor a heading in its place, or the text ends
    /// before it.
    BadLine(u64),
    /// The entry of this number has another reply than the machine's.
    WrongReply {
        number: u64,
        printed: Reply,
        right: Reply,
    },
    /// There was no memory for the audit.
    Memory,
}

impl fmt::Display for AuditFault {
    ghost output = { λ found. Some (audit_fault_text found) };

    fn fmt<W: fmt::Write>(&self, f: &mut fmt::Formatter<W>) -> fmt::Result {
        match self {
            AuditFault::BadLine(line) => write!(f, "line {line}"),
            AuditFault::WrongReply {
                number,
                printed,
                right,
            } => write!(f, "entry {number} printed {printed} right {right}"),
            AuditFault::Memory => f.write_str("memory"),
        }
    }
}

impl Error for AuditFault {}

impl From<Memory> for AuditFault {
    ghost from_gives = { λ _ e. e ≡ fault.Memory };

    fn from(_error: Memory) -> AuditFault {
        AuditFault::Memory
    }
}

impl From<AllocError> for AuditFault {
    ghost from_gives = { λ _ e. e ≡ fault.Memory };

    fn from(_error: AllocError) -> AuditFault {
        AuditFault::Memory
    }
}

impl<T: Drop> From<AllocFailed<T>> for AuditFault {
    ghost from_gives = { λ _ e. e ≡ fault.Memory };

    fn from(_error: AllocFailed<T>) -> AuditFault {
        AuditFault::Memory
    }
}
