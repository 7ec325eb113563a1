ghost use Rattle.std.specs.Prelude.{◌≡◌, ◌<◌, ◌++◌, ◌∷◌, [], List, length, map, slice_get, Some, IsTrue};
ghost use Rattle.std.specs.Prelude.{IfOk, IfErr, IfSome, IfNone};
ghost use Rattle.std.specs.Option.{option_map};
ghost use Rattle.wp_model.specs.History.{IsLegal, answered, opened, state_after};
ghost use Rattle.wp_model.specs.Plain.{is_plain};
ghost use Rattle.wp_model.specs.Sound.{IsSound};
ghost use Rattle.wp_model.specs.Step.{step, taker_of, wave_from};
ghost use Rattle.wp_model.specs.Tables.{IsReadOpening};
ghost use Rattle.wp_model.specs.declared.entry.Entry.{Entry as EntryData};
ghost use Rattle.wp_machine.specs.Outcome.{outcome_of};
ghost use Rattle.wp_machine.specs.Prepared.{IsPreparedFor};

use crate::answers::answer_prepared;
use crate::outcome::Answer;
use crate::prepared::{Prepared, prepared_for};
use std::alloc::Global;
use std::marker::Model;
use wp_floor::{Floor, Opening};
use wp_model::{Cell, Chain, Command, Entries, Entry, Memory, Name, Reply, Row, WaveState};

/// A command with all that its step needs, so that the step takes no memory. Contracts see the opening that it was
/// prepared for, and the command.
#[derive(Drop)]
pub struct Ready<'a> {
    opening: &'a Opening,
    command: Command,
    prepared: Prepared,
    cell: Cell<Entry>,
}

impl<'a> Model for Ready<'a> {
    ghost use Rattle.wp_machine.specs.Machine.{Asked};
    ghost use Rattle.wp_machine.specs.Prepared.{IsPreparedFor};

    ghost Value = { Asked };

    ghost view = { λ r. record { opening = r.opening.now; command = r.command } };

    ghost invariant = { λ r. IsPreparedFor r.opening.now r.command r.prepared };
}

impl Ready<'_> {
    fn into_parts(self) -> (Command, Prepared, Cell<Entry>)
        ensures command { result.0 ≡ self.entry.command }
        ensures prepared { IsPreparedFor self.entry.opening result.0 result.1 }
    {
        let Ready {
            opening: _,
            command,
            prepared,
            cell,
        } = self;
        (command, prepared, cell)
    }
}

// What is prepared for a command, and room for its entry.
fn parts_of(
    alloc: Global,
    opening: &Opening,
    command: &Command,
) -> Result<(Prepared, Cell<Entry>), Memory>
    requires { IsTrue (is_plain command.now) }
    ensures { IfOk result (λ parts. IsPreparedFor opening.now command.now parts.0) }
{
    let prepared = prepared_for(alloc, opening, command)?;
    let cell = Cell::new(alloc)?;
    Ok((prepared, cell))
}

/// Takes the memory that a command's step needs, and looks its names up.
pub fn prepare<'a>(
    alloc: Global,
    opening: &'a Opening,
    command: Command,
) -> Result<Ready<'a>, Memory>
    requires { IsTrue (is_plain command) }
    ensures { IfOk result (λ ready. ready ≡ record { opening = opening.now; command = command }) }
{
    let (prepared, cell) = parts_of(alloc, opening, &command)?;
    Ok(Ready {
        opening,
        command,
        prepared,
        cell,
    })
}

/// The machine: what it has answered, from an opening. Contracts see this history, which is legal; what the
/// machine keeps is the state after it.
#[derive(Drop)]
pub struct Machine<'a> {
    opening: &'a Opening,
    floor: Floor,
    entries: Chain<Entry>,
    count: u64,
}

impl<'a> Model for Machine<'a> {
    ghost use Rattle.std.specs.Prelude.{◌≡◌, length};
    ghost use Rattle.wp_model.specs.History.{History};
    ghost use Rattle.wp_machine.specs.Answering.{IsMachine};

    ghost Value = { History };

    ghost view = { λ m. record { opening = m.opening.now; entries = m.entries } };

    ghost invariant = { λ m. (m.count ≡ length m.entries)
        × IsMachine (record { opening = m.opening.now; entries = m.entries }) m.floor };
}

fn entry_of(number: u64, desk: u32, command: Command, reply: Reply) -> Entry
    ensures { result ≡ record { number = number; desk = desk; command = command; reply = reply } }
{
    Entry {
        number,
        desk,
        command,
        reply,
    }
}

// The entries of a chain, in order.
fn copy_entries(alloc: Global, chain: &Chain<Entry>) -> Result<Vec<Entry>, Memory>
    ensures { IfOk result (λ entries. entries.items ≡ chain.now) }
{
    let mut all = Vec::new(alloc);
    let mut at = chain;
    while let Some((entry, below)) = at.split_last() {
        all.push(entry.copy(alloc)?)?;
        at = below;
    }
    all.reverse();
    Ok(all)
}

// The entries of a chain, in order, by reference.
fn borrow_entries<'b>(alloc: Global, chain: &'b Chain<Entry>) -> Result<Vec<&'b Entry>, Memory>
    ensures { IfOk result (λ entries. map (λ entry. entry.now) entries.items ≡ chain.now) }
{
    let mut journal = Vec::new(alloc);
    let mut at = chain;
    while let Some((entry, below)) = at.split_last() {
        journal.push(entry)?;
        at = below;
    }
    journal.reverse();
    Ok(journal)
}

impl<'a> Machine<'a> {
    /// A machine that has answered nothing.
    pub fn open(alloc: Global, opening: &'a Opening) -> Result<Machine<'a>, Memory>
        ensures { IfOk result (λ machine. machine ≡ opened opening.now) }
    {
        let floor = Floor::open(alloc, opening)?;
        Ok(Machine {
            opening,
            floor,
            entries: Chain::new(),
            count: 0,
        })
    }

    /// How many commands it has answered. Its history is legal, and its state sound.
    pub fn count(&self) -> u64
        ensures count { result ≡ length self.now.entries }
        ensures legal { IsLegal self.now }
        ensures read { IsReadOpening self.now.opening }
        ensures sound { IsSound self.now.opening (state_after self.now) }
    {
        self.count
    }

    /// Answers a desk's command, and adds an entry with the command and its reply. It takes no memory.
    pub fn step(&mut self, desk: u32, ready: Ready<'_>) -> Answer
        requires same { ready.opening ≡ self.old.opening }
        requires few { length self.old.entries < 4294967295 }
        ensures history { self.new ≡ answered self.old desk ready.entry.command }
        ensures number { result.number ≡ length self.old.entries }
        ensures reply { result.reply ≡ (step self.old.opening
            (state_after self.old) ready.entry.command).reply }
        ensures outcome { result.outcome ≡ outcome_of (length self.old.entries)
            (state_after self.old) ready.entry.command
            (step self.old.opening (state_after self.old) ready.entry.command) }
    {
        let (command, prepared, cell) = ready.into_parts();
        let answer = answer_prepared(&mut self.floor, self.opening, self.count, prepared);
        let entry = entry_of(self.count, desk, command, answer.reply);
        self.entries.push(entry, cell);
        self.count += 1;
        answer
    }

    /// Prepares a desk's command and answers it. Where memory runs out nothing was answered.
    pub fn ask(&mut self, alloc: Global, desk: u32, command: Command) -> Result<Answer, Memory>
        requires plain { IsTrue (is_plain command) }
        requires few { length self.old.entries < 4294967295 }
        ensures history { IfOk result (λ _. self.new ≡ answered self.old desk command) }
        ensures same { IfErr result (λ _. self.new ≡ self.old) }
        ensures number { IfOk result (λ answer. answer.number ≡ length self.old.entries) }
        ensures reply { IfOk result (λ answer. answer.reply
            ≡ (step self.old.opening (state_after self.old) command).reply) }
        ensures outcome { IfOk result (λ answer. answer.outcome
            ≡ outcome_of (length self.old.entries) (state_after self.old) command
            (step self.old.opening (state_after self.old) command)) }
    {
        let ready = prepare(alloc, self.opening, command)?;
        Ok(self.step(desk, ready))
    }

    /// The last entry. None comes exactly where nothing was answered.
    pub fn last(&self) -> Option<&Entry>
        ensures some { IfSome result (λ entry. (before : List EntryData)
            × (self.now.entries ≡ before ++ entry.now ∷ [])) }
        ensures none { IfNone result (self.now.entries ≡ []) }
    {
        match self.entries.split_last() {
            Some((entry, _)) => Some(entry),
            None => None,
        }
    }

    /// The entries, in order.
    pub fn entries(&self, alloc: Global) -> Result<Entries, Memory>
        ensures { IfOk result (λ entries. entries ≡ self.now.entries) }
    {
        Ok(Entries::of(copy_entries(alloc, &self.entries)?))
    }

    /// The entries, in order, by reference.
    pub fn journal(&self, alloc: Global) -> Result<Vec<&Entry>, Memory>
        ensures { IfOk result (λ entries. map (λ entry. entry.now) entries.items
            ≡ self.now.entries) }
    {
        borrow_entries(alloc, &self.entries)
    }

    /// How many rows there are.
    pub fn rows(&self) -> u32
        ensures { result ≡ length (state_after self.now).rows }
    {
        self.floor.rows()
    }

    /// A row as it stands.
    pub fn row(&self, row: u32) -> Row
        requires { row < length (state_after self.now).rows }
        ensures { slice_get (state_after self.now).rows row ≡ Some result }
    {
        self.floor.row(row)
    }

    /// How far the wave of a name is. None comes exactly where no submit of that name was done.
    pub fn state(&self, wave: &Name) -> Option<WaveState>
        ensures { result ≡ option_map (λ found. found.1.state)
            (wave_from 0 (state_after self.now).waves wave.now) }
    {
        self.floor.state(wave)
    }

    /// The name of the wave that has an order, of those that aren't cancelled. None comes exactly where none of them
    /// has it, as with an order that the opening hasn't.
    pub fn taker(&self, order: &Name) -> Option<Name>
        ensures { result ≡ taker_of (state_after self.now).waves order.now }
    {
        self.floor.taker(self.opening, order)
    }
}
