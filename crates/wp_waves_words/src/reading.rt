ghost use Rattle.std.specs.Prelude.{◌≡◌, IfOk, IfErr, Ok};
ghost use Rattle.clap.specs.Words.{found_of, matches_of, rows_of};
ghost use Rattle.wp_waves_words.specs.Options.{waves_command};
ghost use Rattle.wp_waves_words.specs.Reading.{waves_names};
ghost use Rattle.wp_waves_words.specs.Words.{AreWavesValues, HasWavesRanges, waves_asked, waves_said};
ghost use Rattle.wp_words.specs.Reading.{IsFaultOf, texts_of};

use crate::options::{
    matched, number_if_given, number_of, value_if_given, value_of, waves_command,
};
use crate::words::WavesWords;
use clap::ArgMatches;
use std::alloc::Global;
use wp_model::Memory;
use wp_words::WordsFault;

fn waves_words(alloc: Global, matches: &ArgMatches<'_>) -> Result<WavesWords, Memory>
    ensures { IfOk result (λ words. AreWavesValues (rows_of (found_of matches.now))
        (waves_names words)) }
{
    let wave = number_of(matches, "wave")?;
    let capacity = number_of(matches, "capacity")?;
    let units = number_if_given(matches, "units")?;
    let most = number_of(matches, "most")?;
    let desk = number_of(matches, "desk")?;
    let effort = number_of(matches, "effort")?;
    let layout = value_of(alloc, matches, "layout")?;
    let stock = value_of(alloc, matches, "stock")?;
    let orders = value_of(alloc, matches, "orders")?;
    let open_file = value_if_given(alloc, matches, "open")?;
    let journal = value_if_given(alloc, matches, "journal")?;
    Ok(WavesWords {
        layout,
        stock,
        orders,
        wave,
        capacity,
        units,
        open_file,
        journal,
        most,
        desk,
        effort,
    })
}

// The words after `waves`.
fn read_after_mode(alloc: Global, words: &[String]) -> Result<WavesWords, WordsFault>
    ensures said { IfOk result (λ waves. waves_said (texts_of words.now) ≡ Ok (waves_names waves)) }
    ensures stated { IfOk result (λ waves. AreWavesValues
        (matches_of waves_command (texts_of words.now)) (waves_names waves)) }
    ensures fault { IfErr result (IsFaultOf (waves_said (texts_of words.now))) }
    ensures ranges { IfOk result (λ waves. HasWavesRanges (waves_names waves)) }
{
    let command = waves_command(alloc)?;
    let matches = matched(command, words)?;
    let waves = waves_words(alloc, &matches)?;
    Ok(waves)
}

/// Reads the words of a command line that asks for waves, without the program's name: `waves`, and its options. NoMode
/// comes exactly where there is no word, UnknownMode exactly where the first word is another, and BadWords exactly
/// where the words after it aren't accepted for its command. The orders of a wave are 1 to 64, the capacity 1 to 8, the
/// units, where they are given, 1 to 40,000,000, the most waves 1 to 500, the desk 1 to 8, and the effort 0 to 1,000.
#[tactic(auto, unfolding(crate::specs::Words::waves_asked))]
pub fn read_waves_words(alloc: Global, words: &Vec<String>) -> Result<WavesWords, WordsFault>
    ensures said { IfOk result (λ waves. waves_asked (texts_of words.now.items)
        ≡ Ok (waves_names waves)) }
    ensures fault { IfErr result (IsFaultOf (waves_asked (texts_of words.now.items))) }
    ensures ranges { IfOk result (λ waves. HasWavesRanges (waves_names waves)) }
{
    let [mode, words @ ..] = words.as_slice() else {
        return Err(WordsFault::NoMode);
    };
    match mode.as_str() {
        "waves" => Ok(read_after_mode(alloc, words)?),
        _ => Err(WordsFault::UnknownMode),
    }
}
