//! The sections of a day's output, of which the parts are printed one after the other.
ghost use Rattle.std.specs.Prelude.{◌≡◌, ◌<◌, ◌++◌, ℕ, ⊤, [], ◌∷◌, All, IfOk, List, Some, length, map, slice_get};
ghost use Rattle.wp_machine.specs.Outcome.{is_cancelled_later};
ghost use Rattle.wp_model.specs.History.{state_after};
ghost use Rattle.wp_model.specs.Journal.{entry_line};
ghost use Rattle.wp_model.specs.Warehouse.{Layout as Block};
ghost use Rattle.wp_outside.specs.Sections.{GrowsBy};
ghost use Rattle.wp_sheets.specs.StockLines.{refill_lines, row_line};
ghost use Rattle.wp_planner.specs.Crews.{IsDealtCrew, DayBatch, IsCrewFor, crew_text};
ghost use Rattle.wp_planner.specs.Sent.{ArePlanned, IsPlanned};
ghost use Rattle.wp_top.specs.Planned.{IsSentSheet, IsSheetAt};
ghost use Rattle.wp_top.specs.Sections.{IsTextAt};

use std::alloc::Global;
use std::io::Write;
use wp_desk::Planned;
use wp_machine::{Machine, Opening, Refill, WaveHolds};
use wp_model::{Entry, Memory, WaveState};
use wp_outside::Parts;
use wp_planner::{DayCrew, SentWave, Terms, WavePlan, plan_sent, print_sheet};
use wp_sheets::{append_crew, append_refill, append_row};
use wp_tables::Stock;

/// The lines of a journal's entries.
#[derive(Drop)]
pub struct JournalLines<'a, 'b> {
    pub entries: &'a [&'b Entry],
}

// Adds the line of an entry.
fn print_entry(text: &mut Vec<u8>, entry: &Entry) -> Result<(), Memory>
    ensures { IfOk result (λ _. text.new.items ≡ text.old.items ++ entry_line entry.now) }
{
    writeln!(text, "{entry}").or(Err(Memory))
}

impl Parts for JournalLines<'_, '_> {
    ghost count = { λ lines. length lines.entries.now };

    ghost says = { λ lines. IsTextAt entry_line (map (λ entry. entry.now) lines.entries.now) };

    ghost can_print = { λ lines. ⊤ };

    fn count(&self) -> usize {
        self.entries.len()
    }

    fn print(&self, _alloc: Global, number: usize, text: &mut Vec<u8>) -> Result<(), Memory> {
        print_entry(text, self.entries[number])
    }
}

/// The sheets of the waves that went out on a day, each with a good plan: the opening and the terms of their plans, and
/// the machine at its end.
#[derive(Drop)]
pub struct DaySheets<'a, 'b> {
    pub opening: &'a Opening,
    pub terms: &'a Terms,
    pub machine: &'a Machine<'b>,
    pub plans: &'a [Planned<Option<WavePlan>>],
    pub ghost own: { machine.now.opening ≡ opening.now },
}

// Whether a wave is cancelled in a machine's last state.
fn is_cancelled(machine: &Machine<'_>, released: &WaveHolds) -> bool
    ensures { result ≡ is_cancelled_later machine.now released.now }
{
    match machine.state(&released.wave) {
        Some(WaveState::Cancelled) => true,
        _ => false,
    }
}

// Adds the sheet of a wave that went out.
fn print_one(
    alloc: Global,
    text: &mut Vec<u8>,
    day: &DaySheets<'_, '_>,
    one: &Planned<Option<WavePlan>>,
) -> Result<(), Memory>
    requires { (layout : Block) × IsPlanned layout day.now.opening.now day.now.terms.now one.now }
    ensures { IfOk result (λ _. GrowsBy (IsSentSheet day.now.machine.now day.now.terms.now one.now)
        text.old.items text.new.items) }
{
    let sent = SentWave {
        opening: day.opening,
        released: &one.wave,
        terms: day.terms,
        plan: plan_sent(one),
        cancelled_later: is_cancelled(day.machine, &one.wave),
    };
    print_sheet(alloc, text, &sent)
}

impl Parts for DaySheets<'_, '_> {
    ghost count = { λ day. length day.plans.now };

    ghost says = { λ day. IsSheetAt day.machine.now day.terms.now day.plans.now };

    ghost can_print = { λ day. (layout : Block) × ArePlanned layout day.opening.now day.terms.now day.plans.now };

    fn count(&self) -> usize {
        self.plans.len()
    }

    fn print(&self, alloc: Global, number: usize, text: &mut Vec<u8>) -> Result<(), Memory> {
        print_one(alloc, text, self, &self.plans[number])
    }
}

/// The lines of refills: one for each row from which one took.
#[derive(Drop)]
pub struct RefillLines<'a> {
    pub stock: &'a Stock,
    pub refills: &'a [Refill],
}

impl Parts for RefillLines<'_> {
    ghost count = { λ lines. length lines.refills.now };

    ghost says = { λ lines. IsTextAt (refill_lines lines.stock.now) lines.refills.now };

    ghost can_print = { λ lines. All (λ refill. All (λ hold. hold.row < length lines.stock.now.rows) refill.holds)
        lines.refills.now };

    fn count(&self) -> usize {
        self.refills.len()
    }

    fn print(&self, _alloc: Global, number: usize, text: &mut Vec<u8>) -> Result<(), Memory> {
        append_refill(text, &self.refills[number], self.stock)
    }
}

/// The section of the crew to which all batches of a day are dealt, if there is one, as one part.
#[derive(Drop)]
pub struct CrewLines<'a> {
    pub crew: &'a Option<DayCrew>,
}

// Adds the section of a crew.
fn print_dealt(text: &mut Vec<u8>, dealt: &DayCrew) -> Result<(), Memory>
    requires { (pickers : ℕ) × (batches : List DayBatch) × IsDealtCrew pickers batches dealt.now }
    ensures { IfOk result (λ _. text.new.items ≡ text.old.items ++ crew_text (Some dealt.now)) }
{
    let batches = &dealt.batches;
    append_crew(text, &dealt.crew, &batches.waves, &batches.numbers)
}

// Adds the section of a crew, if there is one.
fn print_if_dealt(text: &mut Vec<u8>, crew: &Option<DayCrew>) -> Result<(), Memory>
    requires { (pickers : ℕ) × (batches : List DayBatch) × IsCrewFor pickers batches crew.now }
    ensures { IfOk result (λ _. text.new.items ≡ text.old.items ++ crew_text crew.now) }
{
    match crew {
        Some(dealt) => print_dealt(text, dealt),
        None => Ok(()),
    }
}

impl Parts for CrewLines<'_> {
    ghost count = { λ lines. 1 };

    ghost says = { λ lines. IsTextAt crew_text (lines.crew.now ∷ []) };

    ghost can_print = { λ lines. (pickers : ℕ) × (batches : List DayBatch) × IsCrewFor pickers batches lines.crew.now };

    fn count(&self) -> usize {
        1
    }

    fn print(&self, _alloc: Global, _number: usize, text: &mut Vec<u8>) -> Result<(), Memory> {
        print_if_dealt(text, self.crew)
    }
}

/// The lines of the rows of the stock as a machine has them.
#[derive(Drop)]
pub struct StockRows<'a, 'b> {
    pub stock: &'a Stock,
    pub machine: &'a Machine<'b>,
}

impl Parts for StockRows<'_, '_> {
    ghost count = { λ rows. length (state_after rows.machine.now).rows };

    ghost says = { λ rows. IsTextAt (row_line rows.stock.now) (state_after rows.machine.now).rows };

    ghost can_print = { λ rows. All (λ row. row.article < length rows.stock.now.articles)
        (state_after rows.machine.now).rows };

    fn count(&self) -> usize {
        self.machine.rows() as usize
    }

    fn print(&self, _alloc: Global, number: usize, text: &mut Vec<u8>) -> Result<(), Memory> {
        let rows = self.machine.rows();
        let within = number < rows as usize;
        prove!(within);
        append_row(text, &self.machine.row(number as u32), self.stock)
    }
}
