//! The output of a day, written section by section.
ghost use Rattle.std.specs.Prelude.{◌≡◌, ◌++◌, [], List, ℕ, IfErr, OnOk, map};
ghost use Rattle.wp_model.specs.History.{History};
ghost use Rattle.wp_model.specs.Journal.{journal};
ghost use Rattle.wp_model.specs.Warehouse.{Layout as Block};
ghost use Rattle.wp_outside.specs.Writing.{Fails, Writes};
ghost use Rattle.wp_planner.specs.Crews.{crew_text};
ghost use Rattle.wp_planner.specs.Sent.{plans_of, sent_waves};
ghost use Rattle.wp_top.specs.Planned.{HasCrew, IsToldOf, day_told};
ghost use Rattle.wp_top.specs.Sections.{crew_and_end, refills_and_end, stock_and_end};
ghost use Rattle.wp_top.specs.Sheets.{AreSheets};
ghost use Rattle.wp_top.specs.Runs.{IsTextOf};

use crate::sections::{CrewLines, DaySheets, JournalLines, RefillLines, StockRows};
use std::alloc::Global;
use wp_desk::DayRun;
use wp_machine::Opening;
use wp_model::Entry;
use wp_outside::{Section, Sink, SinkFault, room, write_rest, write_section};
use wp_planner::{DayCrew, Terms, WavePlan};

/// A day that is over: the opening from which it went on, the terms of its plans, what the desks give, and the crew to
/// which all batches are dealt, where the terms have pickers.
#[derive(Drop)]
pub struct PlannedDay<'a, 'b> {
    pub opening: &'a Opening,
    pub terms: &'a Terms,
    pub run: &'a DayRun<'b, Option<WavePlan>>,
    pub crew: &'a Option<DayCrew>,
    pub ghost own: { run.now.machine.opening ≡ opening.now },
}

// Writes the stock, behind what waits, and the last line, after which nothing waits.
fn write_stock<K: Sink>(
    alloc: Global,
    out: &mut K,
    waiting: &mut Vec<u8>,
    day: &PlannedDay<'_, '_>,
) -> Result<(), SinkFault>
    ensures writes { OnOk result (Writes (K.told out.old) (K.told out.new) waiting.old.items []
        (stock_and_end day.now.run.now.machine)) }
    ensures fails { IfErr result (λ fault. Fails fault (K.told out.old) (K.told out.new)
        (waiting.old.items ++ stock_and_end day.now.run.now.machine)) }
{
    let rows = StockRows {
        stock: day.opening.stock(),
        machine: &day.run.machine,
    };
    let section = Section {
        heading: b"stock\n",
        parts: &rows,
        ending: b"end stock\n",
    };
    write_section(alloc, out, waiting, &section)?;
    write_rest(out, waiting, b"end\n")
}

// Writes the section of the crew, if there is one, and then the stock and the last line.
fn write_crew<K: Sink>(
    alloc: Global,
    out: &mut K,
    waiting: &mut Vec<u8>,
    day: &PlannedDay<'_, '_>,
) -> Result<(), SinkFault>
    requires dealt { HasCrew day.now.terms.now day.now.run.now day.now.crew.now }
    ensures writes { OnOk result (Writes (K.told out.old) (K.told out.new) waiting.old.items []
        (crew_and_end day.now.run.now.machine (crew_text day.now.crew.now))) }
    ensures fails { IfErr result (λ fault. Fails fault (K.told out.old) (K.told out.new)
        (waiting.old.items ++ crew_and_end day.now.run.now.machine (crew_text day.now.crew.now))) }
{
    let lines = CrewLines { crew: day.crew };
    let section = Section {
        heading: b"",
        parts: &lines,
        ending: b"",
    };
    write_section(alloc, out, waiting, &section)?;
    write_stock(alloc, out, waiting, day)
}

// Writes the refills, and then all that comes after them.
fn write_refills<K: Sink>(
    alloc: Global,
    out: &mut K,
    waiting: &mut Vec<u8>,
    day: &PlannedDay<'_, '_>,
) -> Result<(), SinkFault>
    requires told { (layout : Block) × (start : History)
        × IsToldOf layout day.now.terms.now start day.now.run.now }
    requires dealt { HasCrew day.now.terms.now day.now.run.now day.now.crew.now }
    ensures writes { OnOk result (Writes (K.told out.old) (K.told out.new) waiting.old.items []
        (refills_and_end day.now.run.now.machine day.now.run.now.refills.items (crew_text day.now.crew.now))) }
    ensures fails { IfErr result (λ fault. Fails fault (K.told out.old) (K.told out.new)
        (waiting.old.items ++ refills_and_end day.now.run.now.machine day.now.run.now.refills.items
        (crew_text day.now.crew.now))) }
{
    let lines = RefillLines {
        stock: day.opening.stock(),
        refills: day.run.refills.as_slice(),
    };
    let section = Section {
        heading: b"refills\n",
        parts: &lines,
        ending: b"end refills\n",
    };
    write_section(alloc, out, waiting, &section)?;
    write_crew(alloc, out, waiting, day)
}

// Writes the sheets, and then all that comes after them.
fn write_sheets<K: Sink>(
    alloc: Global,
    out: &mut K,
    waiting: &mut Vec<u8>,
    day: &PlannedDay<'_, '_>,
) -> Result<(), SinkFault>
    requires told { (layout : Block) × (start : History)
        × IsToldOf layout day.now.terms.now start day.now.run.now }
    requires dealt { HasCrew day.now.terms.now day.now.run.now day.now.crew.now }
    ensures writes { OnOk result ((sheets : List ℕ)
        × AreSheets day.now.run.now.machine day.now.terms.now (sent_waves day.now.run.now.plans.items)
        (plans_of day.now.run.now.plans.items) sheets
        × Writes (K.told out.old) (K.told out.new) waiting.old.items []
        (sheets ++ refills_and_end day.now.run.now.machine day.now.run.now.refills.items
        (crew_text day.now.crew.now))) }
    ensures fails { IfErr result (λ fault. (sheets : List ℕ)
        × AreSheets day.now.run.now.machine day.now.terms.now
        (sent_waves day.now.run.now.plans.items) (plans_of day.now.run.now.plans.items) sheets
        × Fails fault (K.told out.old) (K.told out.new)
        (waiting.old.items ++ (sheets ++ refills_and_end day.now.run.now.machine day.now.run.now.refills.items
        (crew_text day.now.crew.now)))) }
{
    let sheets = DaySheets {
        opening: day.opening,
        terms: day.terms,
        machine: &day.run.machine,
        plans: day.run.plans.as_slice(),
    };
    let section = Section {
        heading: b"",
        parts: &sheets,
        ending: b"",
    };
    write_section(alloc, out, waiting, &section)?;
    write_refills(alloc, out, waiting, day)
}

// Writes the journal of these entries, and then all that comes after it. Nothing waits before.
fn write_entries<K: Sink>(
    alloc: Global,
    out: &mut K,
    waiting: &mut Vec<u8>,
    day: &PlannedDay<'_, '_>,
    entries: &[&Entry],
) -> Result<(), SinkFault>
    requires none { waiting.old.items ≡ [] }
    requires told { (layout : Block) × (start : History)
        × IsToldOf layout day.now.terms.now start day.now.run.now }
    requires all { map (λ entry. entry.now) entries.now ≡ day.now.run.now.machine.entries }
    requires dealt { HasCrew day.now.terms.now day.now.run.now day.now.crew.now }
    ensures writes { (layout : Block) (start : History)
        → IsToldOf layout day.now.terms.now start day.now.run.now → OnOk result ((text : List ℕ)
        × IsTextOf day.now.terms.now (day_told start day.now.run.now) text
        × Writes (K.told out.old) (K.told out.new) [] [] text) }
    ensures fails { (layout : Block) (start : History)
        → IsToldOf layout day.now.terms.now start day.now.run.now
        → IfErr result (λ fault. (text : List ℕ)
        × IsTextOf day.now.terms.now (day_told start day.now.run.now) text
        × Fails fault (K.told out.old) (K.told out.new) text) }
{
    let lines = JournalLines { entries };
    let section = Section {
        heading: b"journal\n",
        parts: &lines,
        ending: b"end journal\n",
    };
    write_section(alloc, out, waiting, &section)?;
    write_sheets(alloc, out, waiting, day)
}

/// Writes the output of a day: the journal of all that was ever asked, in the order in which it was answered, a sheet
/// for each wave that went out on this day, its refills, the crew where there is one, and the stock as it stands at the
/// end. The room in which parts wait is taken before the first is written. After an `Err` the sink took a beginning of
/// such an output: `Failed` comes from the sink, and `Memory` from it or from a want of memory.
pub fn write_day<K: Sink>(
    alloc: Global,
    out: &mut K,
    day: &PlannedDay<'_, '_>,
) -> Result<(), SinkFault>
    requires told { (layout : Block) × (start : History)
        × IsToldOf layout day.now.terms.now start day.now.run.now }
    requires dealt { HasCrew day.now.terms.now day.now.run.now day.now.crew.now }
    ensures writes { (layout : Block) (start : History)
        → IsToldOf layout day.now.terms.now start day.now.run.now → OnOk result ((text : List ℕ)
        × IsTextOf day.now.terms.now (day_told start day.now.run.now) text
        × Writes (K.told out.old) (K.told out.new) [] [] text) }
    ensures fails { (layout : Block) (start : History)
        → IsToldOf layout day.now.terms.now start day.now.run.now
        → IfErr result (λ fault. (text : List ℕ)
        × IsTextOf day.now.terms.now (day_told start day.now.run.now) text
        × Fails fault (K.told out.old) (K.told out.new) text) }
{
    let mut waiting = room(alloc)?;
    let entries = day.run.machine.journal(alloc)?;
    write_entries(alloc, out, &mut waiting, day, entries.as_slice())
}
