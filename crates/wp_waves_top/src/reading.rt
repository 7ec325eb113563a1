//! The open file and the journal of `waves`.
ghost use Rattle.std.specs.Prelude.{◌≡◌, ◌+◌, IfOk, IfErr, IfSome, OnOk, option_map};
ghost use Rattle.wp_journal.specs.Journals.{IsJournalOfHistory};
ghost use Rattle.wp_outside.specs.Outside.{NoneFalls, SameBytes};
ghost use Rattle.wp_top.specs.Ends.{ReadsWithin};
ghost use Rattle.wp_top.specs.Stops.{HasRightText, StopsAt, StopsFor, of_journal};
ghost use Rattle.wp_waves.specs.OpenOrders.{AreNamedApart, AreOpenOrders};
ghost use Rattle.wp_waves_top.specs.Runs.{reads_if};
ghost use Rattle.wp_waves_top.specs.Stops.{IfNamed, StopsAtJournal, StopsAtOpen, open_stop, row_stop};
ghost use Rattle.wp_waves_top.specs.Texts.{IsDayBefore, IsListed, IsOpenFile};
ghost use Rattle.wp_waves_words.specs.Reading.{text_if_given};

use crate::complaint::{OpenRefusal, WavesComplaint, WavesStop};
use std::alloc::Global;
use wp_journal::{AuditFault, replay_journal};
use wp_machine::{Machine, Opening};
use wp_outside::Files;
use wp_tables::{Orders, Why};
use wp_top::complaint::{Complaint, Finding, Stop};
use wp_top::input::Input;
use wp_top::reading::read_text;
use wp_waves::{OpenFileFault, OpenOrder, OpenWhy, read_open};

// Why waves stop at an open file whose text isn't there.
fn open_stop(why: Stop) -> WavesStop
    ensures { result ≡ open_stop why }
{
    match why {
        Stop::Complaint(Complaint::Fault(_)) => WavesStop::Complaint(WavesComplaint::OpenFault),
        Stop::Complaint(_) => {
            WavesStop::Complaint(WavesComplaint::OpenRefused(OpenRefusal::TooLong))
        }
        Stop::Memory => WavesStop::Memory,
    }
}

// Why waves stop at a record of an open file.
fn row_stop(fault: OpenFileFault) -> WavesStop
    ensures { result ≡ row_stop fault }
{
    match fault.why {
        OpenWhy::Table(Why::Memory) => WavesStop::Memory,
        _ => WavesStop::Complaint(WavesComplaint::OpenRefused(OpenRefusal::Row(fault))),
    }
}

// The open orders that the open file of a name says, for these orders. It is read once.
fn open_file_from<F: Files>(
    alloc: Global,
    files: &mut F,
    name: &str,
    orders: &Orders,
) -> Result<Vec<OpenOrder>, WavesStop>
    requires { AreNamedApart orders.now }
    ensures said { IfOk result (λ listed. IsListed (F.told files.old).holds orders.now name.now listed.items) }
    ensures read { IfOk result (λ listed. AreOpenOrders orders.now listed.items) }
    ensures stops { IfErr result (StopsAtOpen orders.now (F.told files.old) (F.told files.new) name.now) }
    ensures same { SameBytes (F.told files.old).holds (F.told files.new).holds }
    ensures counts { NoneFalls (F.told files.old).faults (F.told files.new).faults }
    ensures once { OnOk result ((F.told files.new).reads ≡ (F.told files.old).reads + 1) }
    ensures reads { ReadsWithin (F.told files.old) (F.told files.new) 1 }
{
    let text = match read_text(alloc, files, name, Input::Orders) {
        Ok(text) => text,
        Err(why) => return Err(open_stop(why)),
    };
    match read_open(alloc, &text, orders) {
        Ok(listed) => Ok(listed),
        Err(fault) => Err(row_stop(fault)),
    }
}

/// The open orders of the open file, where it has a name. It is read once then, and else no file is.
pub fn open_if_named<F: Files>(
    alloc: Global,
    files: &mut F,
    name: &Option<String>,
    orders: &Orders,
) -> Result<Option<Vec<OpenOrder>>, WavesStop>
    requires { AreNamedApart orders.now }
    ensures said { IfOk result (λ listed. IsOpenFile (F.told files.old).holds orders.now
        (text_if_given name.now) (option_map (λ file. file.items) listed)) }
    ensures read { IfOk result (λ listed. IfSome listed (λ file. AreOpenOrders orders.now file.items)) }
    ensures stops { IfErr result (IfNamed (text_if_given name.now)
        (StopsAtOpen orders.now (F.told files.old) (F.told files.new))) }
    ensures same { SameBytes (F.told files.old).holds (F.told files.new).holds }
    ensures counts { NoneFalls (F.told files.old).faults (F.told files.new).faults }
    ensures once { OnOk result ((F.told files.new).reads
        ≡ (F.told files.old).reads + reads_if (text_if_given name.now)) }
    ensures reads { ReadsWithin (F.told files.old) (F.told files.new)
        (reads_if (text_if_given name.now)) }
{
    match name {
        Some(name) => Ok(Some(open_file_from(alloc, files, name.as_str(), orders)?)),
        None => Ok(None),
    }
}

// The machine after a journal.
fn replayed<'a>(alloc: Global, opening: &'a Opening, text: &Vec<u8>) -> Result<Machine<'a>, Stop>
    ensures history { IfOk result (IsJournalOfHistory opening.now text.now.items) }
    ensures stops { IfErr result (StopsFor (of_journal opening.now text.now.items)) }
{
    match replay_journal(alloc, opening, text) {
        Ok(machine) => Ok(machine),
        Err(AuditFault::Memory) => Err(Stop::Memory),
        Err(fault) => Err(Stop::Complaint(Complaint::Wrong(Finding::Journal(fault)))),
    }
}

// The machine after the journal of a name. It is read once.
fn machine_from<'a, F: Files>(
    alloc: Global,
    files: &mut F,
    name: &str,
    opening: &'a Opening,
) -> Result<Machine<'a>, Stop>
    ensures history { IfOk result (λ machine. HasRightText (F.told files.old).holds name.now
        (λ text. IsJournalOfHistory opening.now text machine)) }
    ensures stops { IfErr result (StopsAt (of_journal opening.now) (F.told files.old)
        (F.told files.new) name.now Input.Journal) }
    ensures same { SameBytes (F.told files.old).holds (F.told files.new).holds }
    ensures counts { NoneFalls (F.told files.old).faults (F.told files.new).faults }
    ensures once { OnOk result ((F.told files.new).reads ≡ (F.told files.old).reads + 1) }
    ensures reads { ReadsWithin (F.told files.old) (F.told files.new) 1 }
{
    let journal = read_text(alloc, files, name, Input::Journal)?;
    replayed(alloc, opening, &journal)
}

/// The machine after the journal, where it has a name, and else one that has answered nothing. The journal is read once
/// then, and else no file is.
pub fn machine_after<'a, F: Files>(
    alloc: Global,
    files: &mut F,
    name: &Option<String>,
    opening: &'a Opening,
) -> Result<Machine<'a>, WavesStop>
    ensures before { IfOk result (IsDayBefore (F.told files.old).holds opening.now
        (text_if_given name.now)) }
    ensures stops { IfErr result (IfNamed (text_if_given name.now)
        (StopsAtJournal opening.now (F.told files.old) (F.told files.new))) }
    ensures same { SameBytes (F.told files.old).holds (F.told files.new).holds }
    ensures counts { NoneFalls (F.told files.old).faults (F.told files.new).faults }
    ensures once { OnOk result ((F.told files.new).reads
        ≡ (F.told files.old).reads + reads_if (text_if_given name.now)) }
    ensures reads { ReadsWithin (F.told files.old) (F.told files.new)
        (reads_if (text_if_given name.now)) }
{
    match name {
        Some(name) => Ok(machine_from(alloc, files, name.as_str(), opening)?),
        None => Ok(Machine::open(alloc, opening)?),
    }
}
