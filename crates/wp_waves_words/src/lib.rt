//! The words of a command line that asks for waves of open orders.
//!
//! The first word is `waves`, and after it come its options, which the kit's `clap` reads: `--option VALUE` or
//! `--option=VALUE`, in any order, each once. None is left out but the units, the open file and the journal, which then
//! are absent; the most waves, which then are 500; the desk, which then is 1; and the effort, which then is 10.
#![tactic(auto)]

mod options;
mod reading;
mod words;

pub use reading::read_waves_words;
pub use words::WavesWords;
