//! Why a run of `waves` has no output.
ghost use Rattle.std.specs.Prelude.{◌≡◌, Some};
ghost use Rattle.wp_top.specs.Stops.{stop_at_words};
ghost use Rattle.wp_waves_top.specs.Stops.{shared_stop};
ghost use Rattle.wp_waves_top.specs.Texts.{open_refusal_text, waves_complaint_text};
ghost use Rattle.wp_waves_top.specs.declared.complaint.WavesStop.TheVariants as stop;

use std::fmt;
use wp_model::Memory;
use wp_top::complaint::{Complaint, Stop};
use wp_waves::OpenFileFault;
use wp_words::WordsFault;

/// Why an open file is refused.
#[derive(Clone, Copy)]
pub enum OpenRefusal {
    /// It has too many bytes.
    TooLong,
    /// The first record that isn't read, and why.
    Row(OpenFileFault),
}

/// Why a run has no output.
#[derive(Clone, Copy)]
pub enum WavesComplaint {
    /// As other runs say it: of the words, of a table or a journal that is refused or couldn't be read, or of a journal
    /// that isn't right.
    Shared(Complaint),
    /// The open file is refused.
    OpenRefused(OpenRefusal),
    /// The open file could not be read.
    OpenFault,
}

/// Why waves stop before their output.
#[derive(Clone, Copy)]
pub enum WavesStop {
    Complaint(WavesComplaint),
    Memory,
}

impl fmt::Display for OpenRefusal {
    ghost output = { λ refusal. Some (open_refusal_text refusal) };

    fn fmt<W: fmt::Write>(&self, f: &mut fmt::Formatter<W>) -> fmt::Result {
        match self {
            OpenRefusal::TooLong => f.write_str("too-long"),
            OpenRefusal::Row(fault) => write!(f, "{fault}"),
        }
    }
}

impl fmt::Display for WavesComplaint {
    ghost output = { λ complaint. Some (waves_complaint_text complaint) };

    fn fmt<W: fmt::Write>(&self, f: &mut fmt::Formatter<W>) -> fmt::Result {
        match self {
            WavesComplaint::Shared(why) => write!(f, "{why}"),
            WavesComplaint::OpenRefused(why) => write!(f, "refused open {why}"),
            WavesComplaint::OpenFault => f.write_str("read fault open"),
        }
    }
}

impl From<Memory> for WavesStop {
    ghost from_gives = { λ _ why. why ≡ stop.Memory };

    fn from(_error: Memory) -> WavesStop {
        WavesStop::Memory
    }
}

impl From<Stop> for WavesStop {
    ghost from_gives = { λ why shared. shared ≡ shared_stop why };

    fn from(why: Stop) -> WavesStop {
        match why {
            Stop::Complaint(why) => WavesStop::Complaint(WavesComplaint::Shared(why)),
            Stop::Memory => WavesStop::Memory,
        }
    }
}

impl From<WordsFault> for WavesStop {
    ghost from_gives = { λ fault why. why ≡ shared_stop (stop_at_words fault) };

    fn from(fault: WordsFault) -> WavesStop {
        WavesStop::from(Stop::from(fault))
    }
}
