ghost use Rattle.std.specs.Prelude.{◌≡◌, Some};
ghost use Rattle.wp_layout.specs.Keys.{fault_text};
ghost use Rattle.wp_layout.specs.declared.fault.LayoutFault.TheVariants as fault;

use crate::key::Key;
use std::error::Error;
use std::fmt;

/// The first test that a layout file fails.
#[derive(Clone, Copy, Debug, PartialEq, Eq)]
pub enum LayoutFault {
    /// The bytes aren't text in UTF-8, or the text isn't JSON.
    NotJson,
    /// The value isn't an object.
    NotObject,
    /// The object hasn't this key.
    MissingKey(Key),
    /// The object has a further key.
    UnknownKey,
    /// What stands at this key is no whole number from 0 to 2^64 - 1, written with digits alone, and at the spacings no
    /// list of such numbers.
    NotWhole(Key),
    /// The number at this key is outside its range, or one of the spacings is, or there isn't one of them less than
    /// there are aisles.
    OutOfRange(Key),
    /// What stands at the end is neither `front` nor `back`.
    NotEnd,
    /// There was no memory for what the file says.
    Memory,
}

impl fmt::Display for LayoutFault {
    ghost output = { λ fault. Some (fault_text fault) };

    fn fmt<W: fmt::Write>(&self, f: &mut fmt::Formatter<W>) -> fmt::Result {
        match self {
            LayoutFault::NotJson => f.write_str("not-json"),
            LayoutFault::NotObject => f.write_str("not-object"),
            LayoutFault::MissingKey(key) => write!(f, "missing-key {key}"),
            LayoutFault::UnknownKey => f.write_str("unknown-key"),
            LayoutFault::NotWhole(key) => write!(f, "not-whole {key}"),
            LayoutFault::OutOfRange(key) => write!(f, "out-of-range {key}"),
            LayoutFault::NotEnd => f.write_str("not-end"),
            LayoutFault::Memory => f.write_str("memory"),
        }
    }
}

impl Error for LayoutFault {}
