//! The mode `make`.
ghost use Rattle.std.specs.Prelude.{◌≡◌, ◌+◌, ◌∷◌, ◌++◌, [], Some, IfOk, IfErr, codes, map, string_bytes, vec_len};
ghost use Rattle.wp_make.specs.Texts.{texts_of};
ghost use Rattle.wp_outside.specs.InMemory.{bytes_or_empty};
ghost use Rattle.wp_top.specs.Ends.{among};
ghost use Rattle.wp_top.specs.Runs.{IsSummary};
ghost use Rattle.wp_top.specs.Stops.{HoldMadeDay, IsMadeDay, StopsFor, beside_names, day_files, day_said};
ghost use Rattle.wp_top.specs.Summaries.{made_files, made_terms, size_of};
ghost use Rattle.wp_top.specs.declared.complaint.Stop.TheVariants as stop;
ghost use Rattle.wp_words.specs.Reading.{make_numbers};
ghost use Rattle.wp_words.specs.Words.{IsMakeable};

use crate::complaint::Stop;
use crate::day::{Resources, run_day};
use crate::reading::{Warehouse, WarehouseNames, read_warehouse, scripts_from};
use crate::summary::summary_text;
use std::alloc::Global;
use std::sync::Wait;
use std::thread::Threads;
use wp_machine::Machine;
use wp_make::{Input, Size, make};
use wp_model::Memory;
use wp_outside::{Files, Gate, NeverFails};
use wp_planner::Terms;
use wp_tables::Scripts;
use wp_words::MakeWords;

/// How large a day the words ask for.
pub fn size_of(words: &MakeWords) -> Size
    ensures { result ≡ size_of (make_numbers words.now) }
{
    Size {
        aisles: words.aisles,
        orders: words.orders,
        desks: words.desks,
        wave: words.wave,
    }
}

// What the words say of how waves are planned.
fn terms_of(words: &MakeWords) -> Terms
    requires { IsMakeable (make_numbers words.now) }
    ensures { result ≡ made_terms (make_numbers words.now) }
{
    Terms::of(words.capacity, words.budget, words.workers).working_for(words.nodes)
}

fn add_name(alloc: Global, names: &mut Vec<String>, name: &str) -> Result<(), Memory>
    ensures bytes { IfOk result (λ _. map string_bytes names.new.items
        ≡ map string_bytes names.old.items ++ name.now ∷ []) }
    ensures count { IfOk result (λ _. vec_len names.new ≡ vec_len names.old + 1) }
{
    names.push(String::from_str(alloc, name)?)?;
    Ok(())
}

// The names by which the files of a made day are read.
fn file_names(alloc: Global) -> Result<Vec<String>, Memory>
    ensures bytes { IfOk result (λ names. map string_bytes names.items ≡ codes "layout"
        ∷ codes "stock" ∷ codes "orders" ∷ codes "desks" ∷ []) }
    ensures count { IfOk result (λ names. vec_len names ≡ 4) }
{
    let mut names = Vec::new(alloc);
    add_name(alloc, &mut names, "layout")?;
    add_name(alloc, &mut names, "stock")?;
    add_name(alloc, &mut names, "orders")?;
    add_name(alloc, &mut names, "desks")?;
    Ok(names)
}

// The texts of an input, in the order of those names.
fn file_texts(alloc: Global, input: Input) -> Result<Vec<Vec<u8>>, Memory>
    ensures { IfOk result (λ texts. texts.items
        ≡ input.layout ∷ input.stock ∷ input.orders ∷ input.desks ∷ []) }
{
    let Input {
        layout,
        stock,
        orders,
        desks,
    } = input;
    let texts = Vec::from_array(alloc, [layout, stock, orders, desks])?;
    Ok(texts)
}

// The files of an input, in memory.
fn files_with(alloc: Global, input: Input) -> Result<NeverFails, Memory>
    ensures { IfOk result (λ files. files.files ≡ beside_names (made_files (texts_of input))) }
{
    let names = file_names(alloc)?;
    let texts = file_texts(alloc, input)?;
    Ok(NeverFails::of(alloc, names, texts))
}

// The files of the day that the words ask for, in memory.
fn files_of_day(alloc: Global, words: &MakeWords) -> Result<NeverFails, Memory>
    requires { IsMakeable (make_numbers words.now) }
    ensures { IfOk result (λ files. HoldMadeDay (λ name. Some (bytes_or_empty files.files name))
        (make_numbers words.now)) }
{
    let input = make(alloc, words.number, size_of(words))?;
    files_with(alloc, input)
}

// The summary of the day of these scripts in a warehouse.
fn summary_of_day<R: Threads + Wait + Sync, G: Gate>(
    resources: &Resources<'_, R, G>,
    words: &MakeWords,
    warehouse: &Warehouse,
    scripts: &Scripts,
) -> Result<Vec<u8>, Memory>
    requires words { IsMakeable (make_numbers words.now) }
    requires made { IsMadeDay (make_numbers words.now)
        (day_said warehouse.now.layout warehouse.now.opening scripts.now) }
    ensures { IfOk result (λ text. IsSummary (make_numbers words.now) text.items) }
{
    let machine = Machine::open(resources.alloc, &warehouse.opening)?;
    let day = run_day(resources, warehouse, machine, &terms_of(words), scripts)?;
    summary_text(resources.alloc, words, &day)
}

// The summary of the day that files hold.
fn summary_of_files<R: Threads + Wait + Sync, F: Files, G: Gate>(
    resources: &Resources<'_, R, G>,
    files: &mut F,
    words: &MakeWords,
) -> Result<Vec<u8>, Stop>
    requires words { IsMakeable (make_numbers words.now) }
    requires held { HoldMadeDay (F.told files.old).holds (make_numbers words.now) }
    ensures summary { IfOk result (λ text. IsSummary (make_numbers words.now) text.items) }
    ensures stops { IfErr result (StopsFor (among (F.told files.old)
        (F.told files.new) day_files)) }
{
    let alloc = resources.alloc;
    let names = WarehouseNames {
        layout: "layout",
        stock: "stock",
        orders: "orders",
        units: None,
    };
    let warehouse = read_warehouse(alloc, files, &names)?;
    let scripts = scripts_from(alloc, files, "desks")?;
    let text = summary_of_day(resources, words, &warehouse, &scripts)?;
    Ok(text)
}

/// The output of a make: the summary of the day that is made and planned. What is read of it lies in memory, so no file
/// of the run is read, and it stops for want of memory alone.
pub fn make_output<R: Threads + Wait + Sync, G: Gate>(
    resources: &Resources<'_, R, G>,
    words: &MakeWords,
) -> Result<Vec<u8>, Stop>
    requires { IsMakeable (make_numbers words.now) }
    ensures summary { IfOk result (λ text. IsSummary (make_numbers words.now) text.items) }
    ensures stops { IfErr result (λ why. why ≡ stop.Memory) }
{
    let mut files = files_of_day(resources.alloc, words)?;
    summary_of_files(resources, &mut files, words)
}
