//! The store of a day: the history with which the day begins, and its entries afterwards.
//!
//! The store is opened, and a machine is stepped through what it has. Then the desks run and their waves are planned,
//! and only when all that is done are the new entries added, in their order, each acknowledged before the next. Nothing
//! of the text is written before.
ghost use Rattle.std.specs.Prelude.{◌≡◌, ◌+◌, ◌*◌, ◌<◌, ◌≤◌, ℕ, List, [], ◌∷◌, drop, false, length, map, IsTrue, IfOk};
ghost use Rattle.std.specs.Prelude.{IfErr, IsErrOf, OnOk};
ghost use Rattle.std.specs.List.{All};
ghost use Rattle.wp_journal.specs.Grammar.{is_line_entry};
ghost use Rattle.wp_journal.specs.Replays.{LinesBegin, MayGoOn};
ghost use Rattle.wp_model.specs.Limits.{most_entries};
ghost use Rattle.wp_model.specs.Tables.{AreReadScripts};
ghost use Rattle.wp_store.specs.Disk.{GoesOn, WhereTold};
ghost use Rattle.wp_store.specs.Records.{most_records, records_of};
ghost use Rattle.wp_store.specs.Store.{HasRecords, IsSettledAt};
ghost use Rattle.wp_top.specs.Planned.{IsDayOver};
ghost use Rattle.wp_top.specs.Runs.{AreNewOf, command_count};
ghost use Rattle.wp_top.specs.Stops.{StopsFor, of_appends, of_records, of_store, store_stop};
ghost use Rattle.wp_top.specs.Stores.{Appends, AreImagesOfRecords, AreSomeKept, HasAdded, DiskStands, disk_course};
ghost use Rattle.wp_top.specs.Stores.{entry_calls, entry_syncs};

use crate::complaint::{Complaint, Stop, StoreFinding, refused_store};
use crate::day::{DayFiles, DayPlans, Resources, plan_day};
use std::alloc::Global;
use std::sync::Wait;
use std::thread::Threads;
use wp_journal::{ReplayFault, print_entry, replay_line};
use wp_machine::{Machine, Opening};
use wp_model::{Entry, MOST_ENTRIES};
use wp_outside::Gate;
use wp_planner::Terms;
use wp_store::{Bodies, Disk, Recovered, Store, recover};
use wp_tables::Scripts;

// Steps a machine through the record of the next number.
fn replay_record(alloc: Global, machine: &mut Machine<'_>, body: &[u8]) -> Result<(), Stop>
    requires few { length machine.old.entries < 4294967295 }
    ensures leads { (lines others : List (List ℕ))
        → LinesBegin machine.old.opening lines machine.old (body.now ∷ others)
        → OnOk result (LinesBegin machine.old.opening lines machine.new others) }
    ensures next { IfOk result (λ _. MayGoOn machine.old machine.new) }
    ensures stops { (lines others : List (List ℕ)) (commands : ℕ)
        → LinesBegin machine.old.opening lines machine.old (body.now ∷ others)
        → IfErr result (StopsFor (of_records machine.old.opening lines commands)) }
{
    let place = machine.count();
    match replay_line(alloc, machine, body) {
        Ok(()) => Ok(()),
        Err(ReplayFault::NotNext) => Err(refused_store(StoreFinding::Record(place))),
        Err(
            ReplayFault::WrongReply {
                number,
                printed,
                right,
            },
        ) => Err(refused_store(StoreFinding::Entry {
            number,
            printed,
            right,
        })),
        Err(ReplayFault::Memory) => Err(Stop::Memory),
    }
}

// A machine that has answered what records say, from an opening on. The first that isn't right stops it.
fn replay_records<'a>(
    alloc: Global,
    opening: &'a Opening,
    records: &Bodies,
) -> Result<Machine<'a>, Stop>
    ensures replayed { IfOk result (λ machine. LinesBegin opening.now records.now machine []) }
    ensures stops { (commands : ℕ) → IfErr result
        (StopsFor (of_records opening.now records.now commands)) }
{
    let mut machine = Machine::open(alloc, opening)?;
    for number in 0..records.len() {
        replay_record(alloc, &mut machine, records.at(number))?;
    }
    Ok(machine)
}

// How many commands scripts have together.
fn count_of(scripts: &Scripts) -> u64
    ensures count { result ≡ command_count scripts.now }
    ensures few { result ≤ 10000 }
{
    let mut commands = 0;
    for desk in 0..scripts.desks() {
        commands += scripts.script(desk + 1).len() as u64;
    }
    commands
}

// The machine with which a day begins: it has answered what records say, and may answer the scripts' commands besides.
fn machine_from<'a>(
    alloc: Global,
    files: &'a DayFiles,
    records: &Bodies,
) -> Result<Machine<'a>, Stop>
    ensures replayed { IfOk result (λ machine.
        LinesBegin files.now.warehouse.opening records.now machine []) }
    ensures few { OnOk result (length records.now + command_count files.now.scripts
        ≤ most_entries) }
    ensures stops { IfErr result (StopsFor (of_records files.now.warehouse.opening records.now
        (command_count files.now.scripts))) }
{
    let machine = replay_records(alloc, &files.warehouse.opening, records)?;
    let entries = u64::from(records.len()) + count_of(&files.scripts);
    if entries > MOST_ENTRIES {
        return Err(refused_store(StoreFinding::Entries(entries)));
    }
    Ok(machine)
}

// Adds the lines of entries to a store, one after the other, each acknowledged before the next. What is there before is
// on the disk.
fn append_each<D: Disk>(
    alloc: Global,
    store: &mut Store<'_, D>,
    entries: &[&Entry],
) -> Result<(), Stop>
    requires sound { store.old.is_broken ≡ false }
    requires room { store.old.count + length entries.now ≤ most_records }
    requires within { All (λ entry. IsTrue (is_line_entry entry.now)) entries.now }
    requires durable { AreImagesOfRecords (D.told store.old.disk.now) }
    ensures same_reference { store.new.disk.ghost_name ≡ store.old.disk.ghost_name }
    ensures some { WhereTold (D.told store.old.disk.now).holds
        (λ told. (n : ℕ) × Appends (D.told store.old.disk.now) (D.told store.new.disk.now)
        (records_of told) (map (λ entry. entry.now) entries.now) n) }
    ensures all { OnOk result (HasAdded (D.told store.old.disk.now) (D.told store.new.disk.now)
        (map (λ entry. entry.now) entries.now)) }
    ensures course { GoesOn (entry_calls * length entries.now) (entry_syncs * length entries.now)
        (D.told store.old.disk.now) (D.told store.new.disk.now) }
    ensures stops { IfErr result (StopsFor (of_appends
        (disk_course (D.told store.old.disk.now) (D.told store.new.disk.now)))) }
    ensures sound { (IsErrOf result store_stop → ⊥)
        → DiskStands (disk_course (D.told store.old.disk.now) (D.told store.new.disk.now)) }
{
    for entry in entries {
        let line = print_entry(alloc, entry)?;
        if store.append(line.as_slice()).is_err() {
            return Err(Stop::Complaint(Complaint::Store));
        }
    }
    Ok(())
}

// Opens a store over the disk that was recovered, and adds the lines of entries.
fn append_all<D: Disk>(
    alloc: Global,
    recovered: Recovered,
    disk: &mut D,
    entries: &[&Entry],
) -> Result<(), Stop>
    requires settled { IsSettledAt (D.told disk.old) recovered.place }
    requires same { HasRecords (D.told disk.old) recovered.bodies }
    requires room { length recovered.bodies + length entries.now ≤ most_records }
    requires within { All (λ entry. IsTrue (is_line_entry entry.now)) entries.now }
    ensures some { WhereTold (D.told disk.old).holds
        (λ told. (n : ℕ) × Appends (D.told disk.old) (D.told disk.new)
        (records_of told) (map (λ entry. entry.now) entries.now) n) }
    ensures all { OnOk result (HasAdded (D.told disk.old) (D.told disk.new)
        (map (λ entry. entry.now) entries.now)) }
    ensures course { GoesOn (entry_calls * length entries.now) (entry_syncs * length entries.now)
        (D.told disk.old) (D.told disk.new) }
    ensures stops { IfErr result (StopsFor (of_appends
        (disk_course (D.told disk.old) (D.told disk.new)))) }
    ensures sound { (IsErrOf result store_stop → ⊥)
        → DiskStands (disk_course (D.told disk.old) (D.told disk.new)) }
{
    let mut store = recovered.into_store(disk);
    let added = append_each(alloc, &mut store, entries);
    let _disk = store.into_disk();
    added
}

// The entries after so many.
fn entries_after<'b, 'c>(entries: &'b [&'c Entry], count: usize) -> &'b [&'c Entry]
    requires { count ≤ length entries.now }
    ensures { map (λ entry. entry.now) result.now
        ≡ drop count (map (λ entry. entry.now) entries.now) }
{
    &entries[count..]
}

// Adds to the store the entries that a machine has after those that were recovered.
fn add_new<D: Disk>(
    alloc: Global,
    recovered: Recovered,
    disk: &mut D,
    machine: &Machine<'_>,
) -> Result<(), Stop>
    requires settled { IsSettledAt (D.told disk.old) recovered.place }
    requires same { HasRecords (D.told disk.old) recovered.bodies }
    requires there { length recovered.bodies ≤ length machine.now.entries }
    requires few { length machine.now.entries ≤ most_records }
    requires within { All (λ entry. IsTrue (is_line_entry entry)) machine.now.entries }
    ensures some { WhereTold (D.told disk.old).holds
        (λ told. (n : ℕ) × Appends (D.told disk.old) (D.told disk.new)
        (records_of told) (drop (length recovered.bodies) machine.now.entries) n) }
    ensures all { OnOk result (HasAdded (D.told disk.old) (D.told disk.new)
        (drop (length recovered.bodies) machine.now.entries)) }
    ensures course { GoesOn (entry_calls * length
        (drop (length recovered.bodies) machine.now.entries))
        (entry_syncs * length (drop (length recovered.bodies) machine.now.entries)) (D.told disk.old)
        (D.told disk.new) }
    ensures stops { IfErr result (StopsFor (of_appends
        (disk_course (D.told disk.old) (D.told disk.new)))) }
    ensures sound { (IsErrOf result store_stop → ⊥)
        → DiskStands (disk_course (D.told disk.old) (D.told disk.new)) }
{
    let entries = machine.journal(alloc)?;
    let old = recovered.bodies().len() as usize;
    append_all(
        alloc,
        recovered,
        disk,
        entries_after(entries.as_slice(), old),
    )
}

/// Opens the store, runs a day after what it has, plans the waves that go out and deals their batches; then adds the
/// new entries to the store. With `Ok` all of them are there, whatever a crash leaves. It stops where the disk fails,
/// where what the store has is refused, and where memory runs out; then the store has what it had, and a beginning of
/// the new entries.
pub fn stored_day<'a, R: Threads + Wait + Sync, G: Gate, D: Disk>(
    resources: &Resources<'_, R, G>,
    files: &'a DayFiles,
    terms: &Terms,
    disk: &mut D,
) -> Result<DayPlans<'a>, Stop>
    requires { AreReadScripts files.now.scripts }
    ensures day { (store : ℕ) → store ≡ 1 → IfOk result (IsDayOver
        (disk_course (D.told disk.old) (D.told disk.new)) store files.now.warehouse.layout files.now.warehouse.opening
        terms.now files.now.scripts) }
    ensures stops { IfErr result (StopsFor (of_store
        (disk_course (D.told disk.old) (D.told disk.new))
        files.now.warehouse.opening (command_count files.now.scripts))) }
    ensures kept { AreSomeKept (disk_course (D.told disk.old) (D.told disk.new))
        (AreNewOf (D.told disk.old).holds files.now.warehouse.opening files.now.scripts) }
    ensures sound { (IsErrOf result store_stop → ⊥)
        → DiskStands (disk_course (D.told disk.old) (D.told disk.new)) }
{
    let recovered = recover(resources.alloc, disk)?;
    let machine = machine_from(resources.alloc, files, recovered.bodies())?;
    let day = plan_day(resources, files, machine, terms)?;
    add_new(resources.alloc, recovered, disk, &day.run.machine)?;
    Ok(day)
}
