ghost use Rattle.std.specs.Prelude.{◌≡◌, IfOk};
ghost use Rattle.wp_model.specs.Journal.{entry_line};

use std::alloc::Global;
use wp_model::{Entry, Memory};

/// The line of an entry, with its line feed: the number, the desk, the command, an arrow and the reply, one space
/// between words. `read_entry` gives the entry back where it is one of the journal.
pub fn print_entry(alloc: Global, entry: &Entry) -> Result<Vec<u8>, Memory>
    ensures { IfOk result (λ line. line.items ≡ entry_line entry.now) }
{
    let line = format!(in alloc; "{entry}\n")?;
    Ok(line.into_bytes())
}
