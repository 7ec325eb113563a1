//! Why an open file isn't read.
ghost use Rattle.std.specs.Prelude.{◌≡◌, Some};
ghost use Rattle.wp_tables.specs.declared.fault.Why.TheVariants as table;
ghost use Rattle.wp_waves.specs.Faults.{fault_text, why_text};
ghost use Rattle.wp_waves.specs.declared.fault.OpenWhy.TheVariants as why;

use std::alloc::AllocFailed;
use std::error::Error;
use std::fmt;
use wp_model::Memory;
use wp_tables::{RowFault, Why};

/// Why a record of an open file isn't read.
#[derive(Clone, Copy, Debug, PartialEq, Eq)]
pub enum OpenWhy {
    /// It fails a test that records of other tables have too, or there was no memory.
    Table(Why),
    /// The order file has no order of that name.
    UnknownOrder,
    /// An earlier record names the same order.
    OrderTwice,
}

/// The first record of an open file that isn't read: its number in the file, counted from 1, and the first test that it
/// fails. Where memory was wanting the number says nothing.
#[derive(Clone, Copy, Debug, PartialEq, Eq)]
pub struct OpenFileFault {
    pub row: u64,
    pub why: OpenWhy,
}

impl fmt::Display for OpenWhy {
    ghost output = { λ w. Some (why_text w) };

    fn fmt<W: fmt::Write>(&self, f: &mut fmt::Formatter<W>) -> fmt::Result {
        match self {
            OpenWhy::Table(why) => write!(f, "{why}"),
            OpenWhy::UnknownOrder => f.write_str("unknown-order"),
            OpenWhy::OrderTwice => f.write_str("order-twice"),
        }
    }
}

impl Error for OpenWhy {}

impl fmt::Display for OpenFileFault {
    ghost output = { λ fault. Some (fault_text fault) };

    fn fmt<W: fmt::Write>(&self, f: &mut fmt::Formatter<W>) -> fmt::Result {
        let row = self.row;
        let why = self.why;
        write!(f, "row {row} {why}")
    }
}

impl Error for OpenFileFault {}

impl From<Why> for OpenWhy {
    ghost from_gives = { λ w e. e ≡ why.Table w };

    fn from(why: Why) -> OpenWhy {
        OpenWhy::Table(why)
    }
}

impl From<RowFault> for OpenFileFault {
    ghost from_gives = { λ f e. e ≡ record { row = f.row; why = why.Table f.why } };

    fn from(fault: RowFault) -> OpenFileFault {
        OpenFileFault {
            row: fault.row,
            why: OpenWhy::Table(fault.why),
        }
    }
}

impl From<Memory> for OpenFileFault {
    ghost from_gives = { λ _ e. e.why ≡ why.Table table.Memory };

    fn from(_error: Memory) -> OpenFileFault {
        OpenFileFault {
            row: 0,
            why: OpenWhy::Table(Why::Memory),
        }
    }
}

impl<T: Drop> From<AllocFailed<T>> for OpenFileFault {
    ghost from_gives = { λ _ e. e.why ≡ why.Table table.Memory };

    fn from(_error: AllocFailed<T>) -> OpenFileFault {
        OpenFileFault::from(Memory)
    }
}
