//! The output of `waves`.
ghost use Rattle.std.specs.Prelude.{◌≡◌, ◌+◌, ◌≤◌, Ok, IfOk, IfErr, IfSome, length, option_map};
ghost use Rattle.wp_model.specs.Limits.{most_entries};
ghost use Rattle.wp_outside.specs.Outside.{NoneFalls, SameBytes};
ghost use Rattle.wp_top.specs.Ends.{ReadsWithin};
ghost use Rattle.wp_waves.specs.OpenOrders.{AreOpenOrders};
ghost use Rattle.wp_waves_out.specs.SentOut.{AreSentOut};
ghost use Rattle.wp_waves_top.specs.Ends.{IsOutput};
ghost use Rattle.wp_waves_top.specs.Runs.{all_reads, reads_if, wave_terms};
ghost use Rattle.wp_waves_top.specs.Stops.{IsOutputAfter, StopsAfter, StopsFor};
ghost use Rattle.wp_waves_top.specs.Texts.{open_orders};
ghost use Rattle.wp_waves_words.specs.Reading.{waves_names};
ghost use Rattle.wp_waves_words.specs.Words.{HasWavesRanges};

use crate::complaint::WavesStop;
use crate::reading::{machine_after, open_if_named};
use std::alloc::Global;
use std::sync::Wait;
use std::thread::Threads;
use wp_machine::{Machine, Opening};
use wp_model::Memory;
use wp_outside::{Files, Gate};
use wp_planner::{Planning, Terms};
use wp_sending::untaken_orders;
use wp_top::Resources;
use wp_top::reading::{Warehouse, WarehouseNames, read_warehouse};
use wp_waves::OpenOrder;
use wp_waves_out::{WaveTerms, outgoing_text};
use wp_waves_words::WavesWords;

// The open orders of the open file, or where there is none, those that no wave has.
fn listed_for(
    alloc: Global,
    opening: &Opening,
    machine: &Machine<'_>,
    from_file: Option<Vec<OpenOrder>>,
) -> Result<Vec<OpenOrder>, Memory>
    requires same { machine.now.opening ≡ opening.now }
    requires read { IfSome from_file (λ listed. AreOpenOrders opening.now.orders listed.items) }
    ensures listed { IfOk result (λ listed. listed.items
        ≡ open_orders machine.now (option_map (λ file. file.items) from_file)) }
    ensures read { IfOk result (λ listed. AreOpenOrders opening.now.orders listed.items) }
{
    match from_file {
        Some(listed) => Ok(listed),
        None => untaken_orders(alloc, opening, machine),
    }
}

// The text of waves that are sent out.
fn sent_text<R: Threads + Wait + Sync, G: Gate>(
    resources: &Resources<'_, R, G>,
    warehouse: &Warehouse,
    machine: &mut Machine<'_>,
    listed: &[OpenOrder],
    words: &WavesWords,
) -> Result<Vec<u8>, Memory>
    requires ranges { HasWavesRanges (waves_names words.now) }
    requires same { machine.old.opening ≡ warehouse.now.opening }
    requires few { length machine.old.entries ≤ most_entries }
    requires listed { AreOpenOrders warehouse.now.opening.orders listed.now }
    ensures { IfOk result (λ text. AreSentOut warehouse.now.layout words.now.capacity machine.old
        (wave_terms (waves_names words.now)) listed.now text.items) }
{
    let terms = Terms::of(words.capacity, 0, 1);
    let planning = Planning {
        rt: resources.rt,
        layout: &warehouse.layout,
        opening: &warehouse.opening,
        terms: &terms,
        gate: resources.gate,
    };
    let asked = WaveTerms {
        wave: words.wave,
        most: words.most,
        desk: words.desk,
        effort: words.effort,
    };
    outgoing_text(&planning, resources.alloc, machine, listed, &asked)
}

// The output after the tables were read.
fn output_of<R: Threads + Wait + Sync, F: Files, G: Gate>(
    resources: &Resources<'_, R, G>,
    files: &mut F,
    words: &WavesWords,
    warehouse: &Warehouse,
) -> Result<Vec<u8>, WavesStop>
    requires { HasWavesRanges (waves_names words.now) }
    ensures output { IfOk result (λ text. IsOutputAfter (waves_names words.now)
        warehouse.now.layout warehouse.now.opening (F.told files.old) (F.told files.new) text.items) }
    ensures stops { IfErr result (StopsAfter (waves_names words.now) warehouse.now.opening
        (F.told files.old) (F.told files.new)) }
    ensures same { SameBytes (F.told files.old).holds (F.told files.new).holds }
    ensures counts { NoneFalls (F.told files.old).faults (F.told files.new).faults }
    ensures reads { ReadsWithin (F.told files.old) (F.told files.new)
        (reads_if (waves_names words.now).open_file + reads_if (waves_names words.now).journal) }
{
    let alloc = resources.alloc;
    let opening = &warehouse.opening;
    let from_file = open_if_named(alloc, files, &words.open_file, opening.orders())?;
    let mut machine = machine_after(alloc, files, &words.journal, opening)?;
    let listed = listed_for(alloc, opening, &machine, from_file)?;
    Ok(sent_text(resources, warehouse, &mut machine, listed.as_slice(), words)?)
}

/// The output of the waves that words ask for, or why there is none. The files are read in the order layout, stock,
/// orders, open file, journal, each once.
pub fn waves_output<R: Threads + Wait + Sync, F: Files, G: Gate>(
    resources: &Resources<'_, R, G>,
    files: &mut F,
    words: &WavesWords,
) -> Result<Vec<u8>, WavesStop>
    requires { HasWavesRanges (waves_names words.now) }
    ensures output { IfOk result (λ text. IsOutput (Ok (waves_names words.now)) (F.told files.old)
        (F.told files.new) text.items) }
    ensures stops { IfErr result (StopsFor (Ok (waves_names words.now)) (F.told files.old)
        (F.told files.new)) }
    ensures same { SameBytes (F.told files.old).holds (F.told files.new).holds }
    ensures counts { NoneFalls (F.told files.old).faults (F.told files.new).faults }
    ensures reads { ReadsWithin (F.told files.old) (F.told files.new)
        (all_reads (waves_names words.now)) }
{
    let names = WarehouseNames {
        layout: words.layout.as_str(),
        stock: words.stock.as_str(),
        orders: words.orders.as_str(),
        units: words.units,
    };
    let warehouse = read_warehouse(resources.alloc, files, &names)?;
    output_of(resources, files, words, &warehouse)
}
