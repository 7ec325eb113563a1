//! Replays of journals, and audits, which are replays: the machine answers each entry's command again, and its own
//! entries are compared with the lines.
ghost use Rattle.std.specs.Prelude.{◌≡◌, ◌⊎◌, ◌<◌, ◌&&◌, ◌++◌, ◌∷◌, [], ℕ, List, Result, Err, IfOk, IsTrue, codes};
ghost use Rattle.std.specs.Prelude.{length, Ok};
ghost use Rattle.std.specs.List.{position_or_len};
ghost use Rattle.std.specs.Str.{bytes_eq};
ghost use Rattle.wp_model.specs.History.{History, answered, next_entry};
ghost use Rattle.wp_model.specs.Journal.{entry_line, line};
ghost use Rattle.wp_model.specs.declared.entry.Entry.{Entry as EntryData};
ghost use Rattle.wp_model.specs.Limits.{most_entries};
ghost use Rattle.wp_model.specs.Plain.{is_plain};
ghost use Rattle.wp_journal.specs.Auditing.{Judges, Restores, Tells, after_line, audit_of, first_line, is_head};
ghost use Rattle.wp_journal.specs.Grammar.{IsLineOf, IsOnlyLineOf, is_line_entry};
ghost use Rattle.wp_journal.specs.Journals.{IsJournalOfHistory, Shows, is_end, is_feed, line_number_after, lines_of};
ghost use Rattle.wp_journal.specs.Replays.{MayGoOn, Replays};
ghost use Rattle.wp_journal.specs.declared.verdict.Audit.{Audit};
ghost use Rattle.wp_journal.specs.declared.verdict.AuditFault.{AuditFault};
ghost use Rattle.wp_journal.specs.declared.verdict.AuditFault.TheVariants as fault;

use crate::fault::EntryFault;
use crate::read::{has_line, read_entry};
use crate::verdict::{Audit, AuditFault, ReplayFault};
use std::alloc::Global;
use wp_machine::{Machine, Opening};
use wp_model::{Command, Entry, Memory, Reply};

fn feed_at(text: &[u8]) -> usize
    ensures { result ≡ position_or_len is_feed text.now }
{
    for (at, byte) in text.iter().enumerate() {
        if *byte == b'\n' {
            return at;
        }
    }
    text.len()
}

// The first line of a text, with its line feed where it has one, and the text after it.
fn split_line(text: &[u8]) -> (&[u8], &[u8])
    ensures first { result.0.now ≡ first_line text.now }
    ensures after { result.1.now ≡ after_line text.now }
{
    let at = feed_at(text);
    if at < text.len() {
        (&text[..at + 1], &text[at + 1..])
    } else {
        (text, &[])
    }
}

fn is_head(line: &[u8]) -> bool
    ensures { result ≡ is_head line.now }
{
    line == b"journal\n".as_slice()
}

fn is_end(line: &[u8]) -> bool
    ensures { result ≡ is_end line.now }
{
    line == b"end journal\n".as_slice() || line == b"end journal".as_slice()
}

// The fault of a bad line after all that the machine has answered.
fn bad_line(machine: &Machine<'_>) -> AuditFault
    requires { length machine.now.entries < 4294967295 }
    ensures { result ≡ fault.BadLine (line_number_after machine.now) }
{
    AuditFault::BadLine(machine.count() + 2)
}

// Whether a line is that of the machine's last entry.
fn last_has_line(alloc: Global, machine: &Machine<'_>, line: &[u8]) -> Result<bool, Memory>
    ensures { IfOk result (λ is. (before : List EntryData) (last : EntryData)
        → machine.now.entries ≡ before ++ last ∷ []
        → is ≡ (is_line_entry last && bytes_eq (entry_line last) line.now)) }
{
    match machine.last() {
        Some(entry) => has_line(alloc, entry, line),
        None => Ok(false),
    }
}

// The reply that the machine gives to a desk's command.
fn reply_again(
    alloc: Global,
    machine: &mut Machine<'_>,
    desk: u32,
    command: Command,
) -> Result<Reply, Memory>
    requires few { length machine.old.entries < 4294967295 }
    requires plain { IsTrue (is_plain command) }
    ensures reply { IfOk result (λ reply. reply ≡ (next_entry machine.old desk command).reply) }
    ensures history { IfOk result (λ _. machine.new ≡ answered machine.old desk command) }
{
    let answer = machine.ask(alloc, desk, command)?;
    Ok(answer.reply)
}

// Answers the command of the entry of the next number again, and compares its line with that of the machine's entry.
fn judge(
    alloc: Global,
    machine: &mut Machine<'_>,
    line: &[u8],
    entry: Entry,
) -> Result<(), ReplayFault>
    requires few { length machine.old.entries < 4294967295 }
    requires plain { IsTrue (is_plain entry.command) }
    requires number { entry.number ≡ length machine.old.entries }
    requires is { IsLineOf line.now entry }
    ensures replays { Replays machine.old line.now machine.new result }
    ensures history { IfOk result (λ _. machine.new
        ≡ answered machine.old entry.desk entry.command) }
{
    let Entry {
        number,
        desk,
        command,
        reply,
    } = entry;
    let right = reply_again(alloc, machine, desk, command)?;
    let is_right = last_has_line(alloc, machine, line)?;
    if is_right {
        Ok(())
    } else {
        Err(ReplayFault::WrongReply {
            number,
            printed: reply,
            right,
        })
    }
}

// Takes an entry in, where it has the next number.
fn take_entry(
    alloc: Global,
    machine: &mut Machine<'_>,
    line: &[u8],
    entry: Entry,
) -> Result<(), ReplayFault>
    requires few { length machine.old.entries < 4294967295 }
    requires number { entry.number < most_entries }
    requires is { IsLineOf line.now entry }
    requires only { IsOnlyLineOf line.now entry }
    ensures replays { Replays machine.old line.now machine.new result }
    ensures next { IfOk result (λ _. MayGoOn machine.old machine.new) }
{
    if entry.number == machine.count() {
        judge(alloc, machine, line, entry)
    } else {
        Err(ReplayFault::NotNext)
    }
}

/// Replays one line, its line feed with it, against a machine: what an audit does with each line of a journal, and a
/// run with each record of its store. Where it is the line of an entry of the next number, the machine answers the
/// entry's command again, and its own entry has to have this line. `NotNext` comes exactly where it is the line of no
/// entry of the next number, and then the machine has answered nothing more; `WrongReply` comes exactly where it is,
/// and the entry's reply isn't the machine's.
pub fn replay_line(alloc: Global, machine: &mut Machine<'_>, line: &[u8]) -> Result<(), ReplayFault>
    requires few { length machine.old.entries < 4294967295 }
    ensures replays { Replays machine.old line.now machine.new result }
    ensures next { IfOk result (λ _. MayGoOn machine.old machine.new) }
{
    match read_entry(alloc, line) {
        Ok(entry) => take_entry(alloc, machine, line, entry),
        Err(EntryFault::NotEntry) => Err(ReplayFault::NotNext),
        Err(EntryFault::Memory) => Err(ReplayFault::Memory),
    }
}

// Takes a line of a journal in as the next entry.
fn take_line(alloc: Global, machine: &mut Machine<'_>, line: &[u8]) -> Result<(), AuditFault>
    requires few { length machine.old.entries < 4294967295 }
    ensures judges { Judges machine.old line.now machine.new result }
    ensures next { IfOk result (λ _. MayGoOn machine.old machine.new) }
{
    match replay_line(alloc, machine, line) {
        Ok(()) => Ok(()),
        Err(ReplayFault::NotNext) => Err(bad_line(machine)),
        Err(
            ReplayFault::WrongReply {
                number,
                printed,
                right,
            },
        ) => Err(AuditFault::WrongReply {
            number,
            printed,
            right,
        }),
        Err(ReplayFault::Memory) => Err(AuditFault::Memory),
    }
}

// The machine after the lines that follow the head.
fn replay_entries<'a>(
    alloc: Global,
    opening: &'a Opening,
    text: &[u8],
) -> Result<Machine<'a>, AuditFault>
    ensures { (whole : List ℕ) → lines_of whole ≡ line (codes "journal") ∷ lines_of text.now
        → Restores opening.now whole result }
{
    let mut machine = Machine::open(alloc, opening)?;
    let mut rest = text;
    while !rest.is_empty() {
        let (line, more) = split_line(rest);
        if is_end(line) {
            return Ok(machine);
        }
        take_line(alloc, &mut machine, line)?;
        rest = more;
    }
    Err(bad_line(&machine))
}

// The machine after a text, from the head on.
fn replay_text<'a>(
    alloc: Global,
    opening: &'a Opening,
    text: &[u8],
) -> Result<Machine<'a>, AuditFault>
    ensures { Restores opening.now text.now result }
{
    if text.is_empty() {
        return Err(AuditFault::BadLine(1));
    }
    let (line, rest) = split_line(text);
    if is_head(line) {
        replay_entries(alloc, opening, rest)
    } else {
        Err(AuditFault::BadLine(1))
    }
}

/// The machine after a journal, which it replays line by line: the line `journal`, the entries numbered 0, 1, 2 and so
/// on, and the line `end journal`, whose line feed may be missing; what follows isn't read. The machine answers each
/// entry's command again, after the entries before it. Ok gives the machine that has answered just the journal's
/// entries. The first line that isn't right decides, as in an audit: `BadLine` comes exactly where it is neither the
/// entry with the next number below 10,000 nor a heading in its place, or the text ends before it; `WrongReply` comes
/// exactly where it is the next entry and its reply isn't the machine's.
pub fn replay_journal<'a>(
    alloc: Global,
    opening: &'a Opening,
    text: &Vec<u8>,
) -> Result<Machine<'a>, AuditFault>
    ensures restores { Restores opening.now text.now.items result }
    ensures exact { (found : Result Audit AuditFault) → Shows opening.now text.now.items found
        → (audit_of result ≡ found) ⊎ (result ≡ Err fault.Memory) }
    ensures history { (history : History) → IsJournalOfHistory opening.now text.now.items history
        → (result ≡ Ok history) ⊎ (result ≡ Err fault.Memory) }
{
    replay_text(alloc, opening, text.as_slice())
}

/// Audits a journal, line by line: the line `journal`, the entries numbered 0, 1, 2 and so on, and the line
/// `end journal`, whose line feed may be missing; what follows isn't read. The machine answers each entry's command
/// again, after the entries before it. Ok gives the number of all entries. The first line that isn't right decides:
/// `BadLine` comes exactly where it is neither the entry with the next number below 10,000 nor a heading in its place,
/// or the text ends before it; `WrongReply` comes exactly where it is the next entry and its reply isn't the machine's.
pub fn audit(alloc: Global, opening: &Opening, text: &Vec<u8>) -> Result<Audit, AuditFault>
    ensures tells { Tells opening.now text.now.items result }
    ensures exact { (found : Result Audit AuditFault) → Shows opening.now text.now.items found
        → (result ≡ found) ⊎ (result ≡ Err fault.Memory) }
{
    let machine = replay_journal(alloc, opening, text)?;
    Ok(Audit {
        entries: machine.count(),
    })
}
