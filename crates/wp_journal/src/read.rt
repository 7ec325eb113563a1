ghost use Rattle.std.specs.Prelude.{◌≡◌, ◌&&◌, ◌⊎◌, Ok, Err, IfOk};
ghost use Rattle.std.specs.Str.{bytes_eq};
ghost use Rattle.wp_model.specs.Journal.{entry_line};
ghost use Rattle.wp_journal.specs.Grammar.{IsLineOf, IsNoLine, IsOnlyLineOf, is_line_entry};
ghost use Rattle.wp_model.specs.declared.entry.Entry.{Entry};
ghost use Rattle.wp_journal.specs.Reading.{Gives, candidate_of, entry_in};
ghost use Rattle.wp_journal.specs.Splits.{words_now};
ghost use Rattle.wp_journal.specs.declared.fault.EntryFault.TheVariants as fault;

use crate::bounds::is_line_entry;
use crate::command::read_command;
use crate::fault::EntryFault;
use crate::number::{read_small, read_whole};
use crate::print::print_entry;
use crate::reply::read_reply;
use crate::words::{split_at_arrow, words_of};
use std::alloc::Global;
use wp_model::{Entry, Memory};

fn read_words(alloc: Global, words: &[&[u8]]) -> Result<Entry, EntryFault>
    ensures { Gives result (entry_in (words_now words.now)) }
{
    let [number, desk, sentence @ ..] = words else {
        return Err(EntryFault::NotEntry);
    };
    let number = read_whole(number).ok_or(EntryFault::NotEntry)?;
    let desk = read_small(desk).ok_or(EntryFault::NotEntry)?;
    let (asked, answered) = split_at_arrow(sentence);
    let command = read_command(alloc, asked)?;
    let reply = read_reply(answered).ok_or(EntryFault::NotEntry)?;
    Ok(Entry {
        number,
        desk,
        command,
        reply,
    })
}

// The entry that a line may be of: where it is the line of one, of this.
fn candidate(alloc: Global, line: &[u8]) -> Result<Entry, EntryFault>
    ensures { Gives result (candidate_of line.now) }
{
    let Some((_, text)) = line.split_last() else {
        return Err(EntryFault::NotEntry);
    };
    let words = words_of(alloc, text)?;
    read_words(alloc, words.as_slice())
}

/// Whether a line is that of an entry of the journal.
pub fn has_line(alloc: Global, entry: &Entry, line: &[u8]) -> Result<bool, Memory>
    ensures { IfOk result (λ is. is ≡ (is_line_entry entry.now && bytes_eq
        (entry_line entry.now) line.now)) }
{
    Ok(is_line_entry(entry) && print_entry(alloc, entry)?.as_slice() == line)
}

// The entry whose line this is.
fn entry_of_line(alloc: Global, line: &[u8]) -> Result<Entry, EntryFault>
    ensures entry { IfOk result (IsLineOf line.now) }
    ensures only { IfOk result (IsOnlyLineOf line.now) }
    ensures refusal { result ≡ Err fault.NotEntry → IsNoLine line.now }
{
    let entry = candidate(alloc, line)?;
    let is_its_line = has_line(alloc, &entry, line)?;
    if is_its_line {
        Ok(entry)
    } else {
        Err(EntryFault::NotEntry)
    }
}

/// The entry whose line this is, its line feed with it: what `print_entry` writes of an entry whose number is below
/// 10,000, whose desk is 1 to 8, whose command is plain, and whose reply, where it is `NotHeld`, `Refilled` or `Lost`,
/// has a location or a quantity within a plain command's bounds. `NotEntry` comes exactly where it is the line of no
/// such entry. A line is of one entry alone.
pub fn read_entry(alloc: Global, line: &[u8]) -> Result<Entry, EntryFault>
    ensures entry { IfOk result (IsLineOf line.now) }
    ensures exact { (entry : Entry) → IsLineOf line.now entry
        → (result ≡ Ok entry) ⊎ (result ≡ Err fault.Memory) }
    ensures only { IfOk result (IsOnlyLineOf line.now) }
    ensures refusal { result ≡ Err fault.NotEntry → IsNoLine line.now }
{
    entry_of_line(alloc, line)
}
