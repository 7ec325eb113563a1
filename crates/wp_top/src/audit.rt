//! The mode `audit`.
ghost use Rattle.std.specs.Prelude.{◌≡◌, ◌+◌, Ok, IfOk, IfErr, OnOk, string_bytes};
ghost use Rattle.wp_journal.specs.Journals.{IsJournalOf};
ghost use Rattle.wp_outside.specs.Outside.{NoneFalls, SameBytes};
ghost use Rattle.wp_top.specs.Ends.{IsOutput, ReadsWithin, audit_job, of_run};
ghost use Rattle.wp_top.specs.Stops.{HasRightText, StopsAt, StopsFor, of_journal};
ghost use Rattle.wp_top.specs.Runs.{audit_line};
ghost use Rattle.wp_top.specs.Stores.{no_disk};

use crate::complaint::{Complaint, Finding, Stop};
use crate::input::Input;
use crate::reading::{WarehouseNames, read_text, read_warehouse};
use std::alloc::Global;
use std::fmt::Write;
use wp_journal::{Audit, AuditFault, audit};
use wp_machine::Opening;
use wp_model::Memory;
use wp_outside::Files;
use wp_words::AuditWords;

fn audit_text(alloc: Global, opening: &Opening, text: &Vec<u8>) -> Result<Audit, Stop>
    ensures right { IfOk result (λ found. IsJournalOf opening.now text.now.items found.entries) }
    ensures wrong { IfErr result (StopsFor (of_journal opening.now text.now.items)) }
{
    match audit(alloc, opening, text) {
        Ok(found) => Ok(found),
        Err(AuditFault::Memory) => Err(Stop::Memory),
        Err(fault) => Err(Stop::Complaint(Complaint::Wrong(Finding::Journal(fault)))),
    }
}

fn line_of(alloc: Global, found: Audit) -> Result<String, Memory>
    ensures { IfOk result (λ text. string_bytes text ≡ audit_line found.entries) }
{
    let entries = found.entries;
    let mut text = String::new(alloc);
    writeln!(text, "audit {entries} entries")?;
    Ok(text)
}

// What the audit of the journal of this name finds.
fn found_in<F: Files>(
    alloc: Global,
    files: &mut F,
    opening: &Opening,
    name: &str,
) -> Result<Audit, Stop>
    ensures found { IfOk result (λ found. HasRightText (F.told files.old).holds name.now
        (λ text. IsJournalOf opening.now text found.entries)) }
    ensures stops { IfErr result (StopsAt (of_journal opening.now) (F.told files.old)
        (F.told files.new) name.now Input.Journal) }
    ensures same { SameBytes (F.told files.old).holds (F.told files.new).holds }
    ensures counts { NoneFalls (F.told files.old).faults (F.told files.new).faults }
    ensures once { OnOk result ((F.told files.new).reads ≡ (F.told files.old).reads + 1) }
    ensures reads { ReadsWithin (F.told files.old) (F.told files.new) 1 }
{
    let journal = read_text(alloc, files, name, Input::Journal)?;
    audit_text(alloc, opening, &journal)
}

/// The output of an audit.
pub fn audit_output<F: Files>(
    alloc: Global,
    files: &mut F,
    words: &AuditWords,
) -> Result<Vec<u8>, Stop>
    ensures output { IfOk result (λ text. IsOutput (Ok (audit_job words.now)) no_disk
        (F.told files.old) (F.told files.new) text.items) }
    ensures stops { IfErr result (StopsFor (of_run (Ok (audit_job words.now)) no_disk
        (F.told files.old) (F.told files.new))) }
    ensures same { SameBytes (F.told files.old).holds (F.told files.new).holds }
    ensures counts { NoneFalls (F.told files.old).faults (F.told files.new).faults }
    ensures reads { ReadsWithin (F.told files.old) (F.told files.new) 4 }
{
    let names = WarehouseNames {
        layout: words.layout.as_str(),
        stock: words.stock.as_str(),
        orders: words.orders.as_str(),
        units: words.units,
    };
    let warehouse = read_warehouse(alloc, files, &names)?;
    let found = found_in(alloc, files, &warehouse.opening, words.journal.as_str())?;
    let line = line_of(alloc, found)?;
    Ok(line.into_bytes())
}
