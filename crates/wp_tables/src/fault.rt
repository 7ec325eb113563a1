ghost use Rattle.std.specs.Prelude.{◌≡◌, Some};
ghost use Rattle.wp_tables.specs.Faults.{row_fault_text, why_text};
ghost use Rattle.wp_tables.specs.declared.fault.Why.TheVariants as why;

use std::alloc::{AllocError, AllocFailed};
use std::error::Error;
use std::fmt;
use wp_model::Memory;

/// Why a table's record isn't read.
#[derive(Clone, Copy, Debug, PartialEq, Eq)]
pub enum Why {
    /// It hasn't the fields that it should have, or isn't the heading where that is due.
    Columns,
    /// A field isn't text in UTF-8.
    NotUtf8,
    /// A field that names an article, an order or a wave isn't a name, or one that is to be a location isn't of
    /// that form.
    BadName,
    /// A field that is to be a number isn't 1 to 18 digits.
    BadNumber,
    /// A number is outside its range.
    OutOfRange,
    /// The location isn't in the warehouse.
    UnknownLocation,
    /// An earlier record has the same location.
    LocationTwice,
    /// The stock has no article of that name.
    UnknownArticle,
    /// The word is no command's.
    UnknownCommand,
    /// There is no desk of that number.
    DeskNumber,
    /// There are more records than the table may have.
    TooManyRows,
    /// The article stands in more records than it may.
    TooManyPlaces,
    /// There are more orders than there may be.
    TooManyOrders,
    /// The order has more lines than it may.
    TooManyLines,
    /// More waves are submitted than may be.
    TooManyWaves,
    /// There was no memory for what the table says.
    Memory,
}

/// The first record of a table that isn't read: its number in the file, counted from 1, and the first test that it
/// fails. With `Memory` the number says nothing.
#[derive(Clone, Copy, Debug, PartialEq, Eq)]
pub struct RowFault {
    pub row: u64,
    pub why: Why,
}

impl fmt::Display for Why {
    ghost output = { λ w. Some (why_text w) };

    fn fmt<W: fmt::Write>(&self, f: &mut fmt::Formatter<W>) -> fmt::Result {
        f.write_str(match self {
            Why::Columns => "columns",
            Why::NotUtf8 => "not-utf8",
            Why::BadName => "bad-name",
            Why::BadNumber => "bad-number",
            Why::OutOfRange => "out-of-range",
            Why::UnknownLocation => "unknown-location",
            Why::LocationTwice => "location-twice",
            Why::UnknownArticle => "unknown-article",
            Why::UnknownCommand => "unknown-command",
            Why::DeskNumber => "desk-number",
            Why::TooManyRows => "too-many-rows",
            Why::TooManyPlaces => "too-many-places",
            Why::TooManyOrders => "too-many-orders",
            Why::TooManyLines => "too-many-lines",
            Why::TooManyWaves => "too-many-waves",
            Why::Memory => "memory",
        })
    }
}

impl Error for Why {}

impl From<Memory> for Why {
    ghost from_gives = { λ _ e. e ≡ why.Memory };

    fn from(_error: Memory) -> Why {
        Why::Memory
    }
}

impl From<AllocError> for Why {
    ghost from_gives = { λ _ e. e ≡ why.Memory };

    fn from(_error: AllocError) -> Why {
        Why::Memory
    }
}

impl<T: Drop> From<AllocFailed<T>> for Why {
    ghost from_gives = { λ _ e. e ≡ why.Memory };

    fn from(_error: AllocFailed<T>) -> Why {
        Why::Memory
    }
}

impl fmt::Display for RowFault {
    ghost output = { λ fault. Some (row_fault_text fault) };

    fn fmt<W: fmt::Write>(&self, f: &mut fmt::Formatter<W>) -> fmt::Result {
        let row = self.row;
        let why = self.why;
        write!(f, "row {row} {why}")
    }
}

impl Error for RowFault {}

impl From<Memory> for RowFault {
    ghost from_gives = { λ _ e. e.why ≡ why.Memory };

    fn from(_error: Memory) -> RowFault {
        RowFault {
            row: 0,
            why: Why::Memory,
        }
    }
}

impl From<AllocError> for RowFault {
    ghost from_gives = { λ _ e. e.why ≡ why.Memory };

    fn from(_error: AllocError) -> RowFault {
        RowFault::from(Memory)
    }
}

impl<T: Drop> From<AllocFailed<T>> for RowFault {
    ghost from_gives = { λ _ e. e.why ≡ why.Memory };

    fn from(_error: AllocFailed<T>) -> RowFault {
        RowFault::from(Memory)
    }
}
