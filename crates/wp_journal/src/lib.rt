//! The journal as text: an entry as its line, a line as its entry, the replay of a line, for which the machine answers
//! its command again, and the audit of a journal, which replays every line.
#![tactic(auto)]

mod bounds;
mod command;
mod fault;
mod laws;
mod number;
mod print;
mod read;
mod replay;
mod reply;
mod verdict;
mod words;

pub use fault::EntryFault;
pub use laws::printed_journals_are_right;
pub use print::print_entry;
pub use read::read_entry;
pub use replay::{audit, replay_journal, replay_line};
pub use verdict::{Audit, AuditFault, ReplayFault};
