//! The mode `plan`.
ghost use Rattle.std.specs.Prelude.{◌≡◌, ◌≢◌, ◌+◌, [], List, ℕ, None, Ok, IfOk, IfErr, OnOk, false};
ghost use Rattle.wp_model.specs.History.{History, opened};
ghost use Rattle.wp_model.specs.Tables.{AreReadScripts};
ghost use Rattle.wp_model.specs.Warehouse.{Layout as Block};
ghost use Rattle.wp_outside.specs.Outside.{FilesTold, NoneFalls, SameBytes};
ghost use Rattle.wp_outside.specs.Writing.{Fails, Writes};
ghost use Rattle.wp_top.specs.Ends.{AreNewIn, ReadsWithin, among, plan_job};
ghost use Rattle.wp_top.specs.Planned.{HasCrew, IsDayOver, IsToldOf, day_told};
ghost use Rattle.wp_top.specs.Runs.{AreNewOf, IsHistoryOf, IsTextOf, command_count};
ghost use Rattle.wp_top.specs.Sheets.{terms_of};
ghost use Rattle.wp_top.specs.Stops.{HasEnded, IsOfInput, IsReadDay, StopsFor, day_said, of_store};
ghost use Rattle.wp_top.specs.Stores.{AreSomeKept, disk_course};
ghost use Rattle.wp_top.specs.Texts.{HaveSaid, IsHeld, files_of, opening_with};
ghost use Rattle.wp_top.specs.declared.complaint.Stop.TheVariants as stop;
ghost use Rattle.wp_words.specs.Reading.{plan_names};
ghost use Rattle.wp_words.specs.Words.{HasRanges, plan};

use crate::complaint::Stop;
use crate::day::{DayFiles, DayPlans, Resources, plan_day};
use crate::ending::end_stopped;
use crate::reading::{WarehouseNames, read_warehouse, scripts_from};
use crate::status::{Status, status_of};
use crate::store::stored_day;
use crate::written::{PlannedDay, write_day};
use std::alloc::Global;
use std::sync::Wait;
use std::thread::Threads;
use wp_machine::Machine;
use wp_model::Memory;
use wp_outside::{Files, Gate, Sink, SinkFault};
use wp_planner::Terms;
use wp_store::Disk;
use wp_words::PlanWords;

// What the words say of how waves are planned, and of what is told of their plans besides.
fn terms_of(words: &PlanWords) -> Terms
    requires { HasRanges (plan_names words.now) }
    ensures { result ≡ terms_of (plan_names words.now) }
{
    Terms::of(words.capacity, words.budget, words.workers)
        .working_for(words.nodes)
        .telling(words.rules == 1, words.pickers, words.root == 1)
}

// Reads the four files of a plan, one after the other. The first that isn't read stops it.
fn read_day<F: Files>(alloc: Global, files: &mut F, words: &PlanWords) -> Result<DayFiles, Stop>
    requires { HasRanges (plan_names words.now) }
    ensures said { IfOk result (λ day. HaveSaid (IsHeld (F.told files.old).holds)
        (files_of (plan (plan_names words.now)))
        (day_said day.warehouse.layout (opening_with day.warehouse.opening None) day.scripts)) }
    ensures units { IfOk result (λ day. day.warehouse.opening.units
        ≡ (plan_names words.now).units) }
    ensures read { IfOk result (λ day. AreReadScripts day.scripts) }
    ensures stops { IfErr result (StopsFor (among (F.told files.old) (F.told files.new)
        (files_of (plan (plan_names words.now))))) }
    ensures same { SameBytes (F.told files.old).holds (F.told files.new).holds }
    ensures counts { NoneFalls (F.told files.old).faults (F.told files.new).faults }
    ensures all { OnOk result ((F.told files.new).reads ≡ (F.told files.old).reads + 4) }
    ensures reads { ReadsWithin (F.told files.old) (F.told files.new) 4 }
{
    let names = WarehouseNames {
        layout: words.layout.as_str(),
        stock: words.stock.as_str(),
        orders: words.orders.as_str(),
        units: words.units,
    };
    let warehouse = read_warehouse(alloc, files, &names)?;
    let scripts = scripts_from(alloc, files, words.desks.as_str())?;
    Ok(DayFiles { warehouse, scripts })
}

// The day of these files that begins with a machine which has answered nothing.
fn fresh_day<'a, R: Threads + Wait + Sync, G: Gate>(
    resources: &Resources<'_, R, G>,
    files: &'a DayFiles,
    terms: &Terms,
) -> Result<DayPlans<'a>, Memory>
    requires { AreReadScripts files.now.scripts }
    ensures history { IfOk result (λ day. IsHistoryOf files.now.warehouse.opening files.now.scripts
        (opened files.now.warehouse.opening) day.run.machine) }
    ensures told { IfOk result (λ day. IsToldOf files.now.warehouse.layout terms.now
        (opened files.now.warehouse.opening) day.run) }
    ensures dealt { IfOk result (λ day. HasCrew terms.now day.run day.crew) }
{
    let machine = Machine::open(resources.alloc, &files.warehouse.opening)?;
    plan_day(resources, files, machine, terms)
}

// The day of these files, after what the store has where the words have one; then its entries are added to the store,
// and all of them are there before the day is handed out.
fn day_of<'a, R: Threads + Wait + Sync, G: Gate, D: Disk>(
    resources: &Resources<'_, R, G>,
    words: &PlanWords,
    files: &'a DayFiles,
    terms: &Terms,
    disk: &mut D,
) -> Result<DayPlans<'a>, Stop>
    requires { AreReadScripts files.now.scripts }
    ensures day { IfOk result (IsDayOver (disk_course (D.told disk.old) (D.told disk.new))
        words.now.store
        files.now.warehouse.layout files.now.warehouse.opening terms.now files.now.scripts) }
    ensures stops { words.now.store ≡ 1 → IfErr result (StopsFor (of_store
        (disk_course (D.told disk.old) (D.told disk.new)) files.now.warehouse.opening
        (command_count files.now.scripts))) }
    ensures memory { words.now.store ≢ 1 → IfErr result (λ why. why ≡ stop.Memory) }
    ensures kept { words.now.store ≡ 1 → AreSomeKept
        (disk_course (D.told disk.old) (D.told disk.new))
        (AreNewOf (D.told disk.old).holds files.now.warehouse.opening files.now.scripts) }
    ensures untouched { words.now.store ≢ 1 → disk.new ≡ disk.old }
{
    if words.store == 1 {
        return stored_day(resources, files, terms, disk);
    }
    let day = fresh_day(resources, files, terms)?;
    Ok(day)
}

// Writes the output of a day.
fn write_plans<K: Sink>(
    alloc: Global,
    files: &DayFiles,
    terms: &Terms,
    day: &DayPlans<'_>,
    out: &mut K,
) -> Result<(), SinkFault>
    requires own { day.now.run.machine.opening ≡ files.now.warehouse.opening }
    requires told { (layout : Block) × (start : History)
        × IsToldOf layout terms.now start day.now.run }
    requires dealt { HasCrew terms.now day.now.run day.now.crew }
    ensures writes { (layout : Block) (start : History)
        → IsToldOf layout terms.now start day.now.run → OnOk result ((text : List ℕ)
        × IsTextOf terms.now (day_told start day.now.run) text × Writes (K.told out.old) (K.told out.new) [] [] text) }
    ensures fails { (layout : Block) (start : History) → IsToldOf layout terms.now start day.now.run
        → IfErr result (λ fault. (text : List ℕ)
        × IsTextOf terms.now (day_told start day.now.run) text × Fails fault (K.told out.old) (K.told out.new) text) }
{
    let planned = PlannedDay {
        opening: &files.warehouse.opening,
        terms,
        run: &day.run,
        crew: &day.crew,
    };
    write_day(alloc, out, &planned)
}

// Plans the day of these files, and writes its output or why there is none.
fn end_day<R: Threads + Wait + Sync, K: Sink, G: Gate, D: Disk>(
    resources: &Resources<'_, R, G>,
    words: &PlanWords,
    files: &DayFiles,
    out: &mut K,
    disk: &mut D,
) -> Status
    requires ranges { HasRanges (plan_names words.now) }
    requires read { AreReadScripts files.now.scripts }
    ensures ended { (old new : FilesTold) → IsReadDay
        (plan_names words.now) files.now.warehouse.layout files.now.warehouse.opening
        files.now.scripts old new
        → HasEnded (Ok (plan_job words.now)) (disk_course (D.told disk.old) (D.told disk.new)) old new
        (K.told out.old) (K.told out.new) result }
    ensures kept { words.now.store ≡ 1 → AreSomeKept
        (disk_course (D.told disk.old) (D.told disk.new))
        (AreNewOf (D.told disk.old).holds files.now.warehouse.opening files.now.scripts) }
    ensures untouched { words.now.store ≢ 1 → disk.new ≡ disk.old }
    ensures read_all { ¬ IsOfInput result }
    ensures early { (K.told out.old).stopped ≡ false
        → (K.told out.new).late ≡ (K.told out.old).late }
{
    let terms = terms_of(words);
    match day_of(resources, words, files, &terms, disk) {
        Ok(day) => status_of(write_plans(resources.alloc, files, &terms, &day, out)),
        Err(why) => end_stopped(resources.alloc, why, out),
    }
}

/// Plans the day that the words name, and writes its output or why there is none. Where the words have no store, no
/// call is made on the disk; nor where a file isn't read.
pub fn run_plan<R: Threads + Wait + Sync, F: Files, K: Sink, G: Gate, D: Disk>(
    resources: &Resources<'_, R, G>,
    words: &PlanWords,
    files: &mut F,
    out: &mut K,
    disk: &mut D,
) -> Status
    requires { HasRanges (plan_names words.now) }
    ensures ended { HasEnded (Ok (plan_job words.now))
        (disk_course (D.told disk.old) (D.told disk.new))
        (F.told files.old) (F.told files.new) (K.told out.old) (K.told out.new) result }
    ensures kept { words.now.store ≡ 1 → AreSomeKept
        (disk_course (D.told disk.old) (D.told disk.new))
        (AreNewIn (Ok (plan_job words.now)) (D.told disk.old).holds (F.told files.old) (F.told files.new)) }
    ensures untouched { words.now.store ≢ 1 → disk.new ≡ disk.old }
    ensures unopened { IsOfInput result → disk.new ≡ disk.old }
    ensures same { SameBytes (F.told files.old).holds (F.told files.new).holds }
    ensures counts { NoneFalls (F.told files.old).faults (F.told files.new).faults }
    ensures reads { ReadsWithin (F.told files.old) (F.told files.new) 4 }
    ensures early { (K.told out.old).stopped ≡ false
        → (K.told out.new).late ≡ (K.told out.old).late }
{
    match read_day(resources.alloc, files, words) {
        Ok(day) => end_day(resources, words, &day, out, disk),
        Err(why) => end_stopped(resources.alloc, why, out),
    }
}
