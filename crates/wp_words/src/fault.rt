ghost use Rattle.std.specs.Prelude.{◌≡◌, Some};
ghost use Rattle.wp_words.specs.Reading.{fault_text};
ghost use Rattle.wp_words.specs.declared.fault.WordsFault.TheVariants as fault;

use std::alloc::AllocError;
use std::error::Error;
use std::fmt;
use wp_model::Memory;

/// Why words ask for no job.
#[derive(Clone, Copy, Debug, PartialEq, Eq)]
pub enum WordsFault {
    /// There is no word.
    NoMode,
    /// The first word is no mode.
    UnknownMode,
    /// The words after the mode aren't its options: one is left out, given twice or unknown, has no value, a number is
    /// none or isn't in its range, or a word belongs to no option.
    BadWords,
    /// The words are a good `make`, but its orders are cut into this many waves, which are more than 500.
    TooManyWaves(u32),
    /// There was no memory to read the words.
    Memory,
}

impl fmt::Display for WordsFault {
    ghost output = { λ w. Some (fault_text w) };

    fn fmt<W: fmt::Write>(&self, f: &mut fmt::Formatter<W>) -> fmt::Result {
        match self {
            WordsFault::NoMode => f.write_str("no-mode"),
            WordsFault::UnknownMode => f.write_str("unknown-mode"),
            WordsFault::BadWords => f.write_str("bad-words"),
            WordsFault::TooManyWaves(waves) => write!(f, "too-many-waves {waves}"),
            WordsFault::Memory => f.write_str("memory"),
        }
    }
}

impl Error for WordsFault {}

impl From<Memory> for WordsFault {
    ghost from_gives = { λ _ e. e ≡ fault.Memory };

    fn from(_error: Memory) -> WordsFault {
        WordsFault::Memory
    }
}

impl From<AllocError> for WordsFault {
    ghost from_gives = { λ _ e. e ≡ fault.Memory };

    fn from(_error: AllocError) -> WordsFault {
        WordsFault::Memory
    }
}
