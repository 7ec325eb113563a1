//! The whole run of `waves`: from the words of the command line and the files to the text that goes out.
//!
//! The files are read one after the other: the layout, the stock file, the order file, the open file and the journal,
//! the last two where the words name them. After the journal the open orders that wait have their turns, the served
//! ones are sent out in waves over the machine, and the text tells the desk file, the waves, and the orders that are
//! left.
#![tactic(auto)]

mod complaint;
mod ending;
mod output;
mod reading;

ghost use Rattle.std.specs.Prelude.{◌≡◌, false};
ghost use Rattle.wp_outside.specs.Outside.{NoneFalls, SameBytes};
ghost use Rattle.wp_top.specs.Ends.{ReadsWithin};
ghost use Rattle.wp_waves_top.specs.Ends.{HasEnded, most_reads};
ghost use Rattle.wp_waves_top.specs.Promise.{Keeps, course};
ghost use Rattle.wp_waves_words.specs.Words.{waves_asked};
ghost use Rattle.wp_words.specs.Reading.{texts_of};

use crate::ending::end_waves;
use crate::output::waves_output;
use std::alloc::Global;
use std::sync::Wait;
use std::thread::Threads;
use wp_outside::{Files, Gate, Sink};
use wp_top::Resources;
use wp_top::status::Status;
use wp_waves_words::read_waves_words;

// Makes the waves that words ask for, and gives how the run ended.
fn run_asked<R: Threads + Wait + Sync, F: Files, K: Sink, G: Gate>(
    resources: &Resources<'_, R, G>,
    words: &Vec<String>,
    files: &mut F,
    out: &mut K,
) -> Status
    ensures ended { HasEnded (waves_asked (texts_of words.now.items)) (F.told files.old)
        (F.told files.new) (K.told out.old) (K.told out.new) result }
    ensures same { SameBytes (F.told files.old).holds (F.told files.new).holds }
    ensures counts { NoneFalls (F.told files.old).faults (F.told files.new).faults }
    ensures reads { ReadsWithin (F.told files.old) (F.told files.new)
        (most_reads (waves_asked (texts_of words.now.items))) }
    ensures early { (K.told out.old).stopped ≡ false
        → (K.told out.new).late ≡ (K.told out.old).late }
{
    let alloc = resources.alloc;
    match read_waves_words(alloc, words) {
        Ok(words) => end_waves(alloc, waves_output(resources, files, &words), out),
        Err(fault) => end_waves(alloc, Err(fault.into()), out),
    }
}

/// Sends open orders out in waves, as the words ask for, and gives the status: 0 the whole output was taken; 1 the
/// words ask for no waves; 2 a file is refused; 3 a file could not be read; 4 the output could not be written; 5 memory ran
/// out; 6 the journal isn't right. With 1, 2, 3 and 6 one line was written; with 4 and 5 a beginning of the text, or
/// nothing.
pub fn run_waves<R: Threads + Wait + Sync, F: Files, K: Sink, G: Gate>(
    resources: &Resources<'_, R, G>,
    words: &Vec<String>,
    files: &mut F,
    out: &mut K,
) -> u8
    ensures { Keeps (waves_asked (texts_of words.now.items))
        (course (F.told files.old) (K.told out.old) (F.told files.new) (K.told out.new)) result }
{
    run_asked(resources, words, files, out).number()
}
