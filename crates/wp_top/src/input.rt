ghost use Rattle.std.specs.Prelude.{Some};
ghost use Rattle.wp_top.specs.Texts.{input_text, refusal_text};

use std::fmt;
use wp_layout::LayoutFault;
use wp_tables::RowFault;

/// A file that a job reads.
#[derive(Clone, Copy, PartialEq, Eq)]
pub enum Input {
    Layout,
    Stock,
    Orders,
    Desks,
    Certificate,
    Journal,
}

/// Why a file is refused.
#[derive(Clone, Copy, PartialEq, Eq)]
pub enum Refusal {
    /// It has too many bytes.
    TooLong,
    /// The first test that a layout file fails.
    Layout(LayoutFault),
    /// The first record of a table that isn't read, and why.
    Row(RowFault),
}

impl fmt::Display for Input {
    ghost output = { λ file. Some (input_text file) };

    fn fmt<W: fmt::Write>(&self, f: &mut fmt::Formatter<W>) -> fmt::Result {
        f.write_str(match self {
            Input::Layout => "layout",
            Input::Stock => "stock",
            Input::Orders => "orders",
            Input::Desks => "desks",
            Input::Certificate => "certificate",
            Input::Journal => "journal",
        })
    }
}

impl fmt::Display for Refusal {
    ghost output = { λ refusal. Some (refusal_text refusal) };

    fn fmt<W: fmt::Write>(&self, f: &mut fmt::Formatter<W>) -> fmt::Result {
        match self {
            Refusal::TooLong => write!(f, "too-long"),
            Refusal::Layout(fault) => write!(f, "{fault}"),
            Refusal::Row(fault) => write!(f, "{fault}"),
        }
    }
}
