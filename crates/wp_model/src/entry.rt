ghost use Rattle.std.specs.Prelude.{◌≡◌, Some, IfOk};
ghost use Rattle.wp_model.specs.Journal.{entry_text};

use crate::command::Command;
use crate::listing::Listing;
use crate::memory::Memory;
use crate::reply::Reply;
use std::alloc::Global;
use std::fmt;

/// An entry of the journal: its number, counted from 0, the desk, 1 to 8, the command and its reply.
#[derive(Drop)]
pub struct Entry {
    pub number: u64,
    pub desk: u32,
    pub command: Command,
    pub reply: Reply,
}

impl Entry {
    /// An equal entry.
    pub fn copy(&self, alloc: Global) -> Result<Entry, Memory>
        ensures { IfOk result (λ copy. copy ≡ self.now) }
    {
        Ok(Entry {
            number: self.number,
            desk: self.desk,
            command: self.command.copy(alloc)?,
            reply: self.reply,
        })
    }
}

/// A list of entries.
pub type Entries = Listing<Entry>;

impl fmt::Display for Entry {
    ghost output = { λ entry. Some (entry_text entry) };

    fn fmt<W: fmt::Write>(&self, f: &mut fmt::Formatter<W>) -> fmt::Result {
        let number = self.number;
        let desk = self.desk;
        let command = &self.command;
        let reply = self.reply;
        write!(f, "{number} {desk} {command} -> {reply}")
    }
}
