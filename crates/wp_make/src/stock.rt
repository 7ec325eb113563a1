//! The made stock.
ghost use Rattle.std.specs.Prelude.{◌≡◌, ◌≤◌, ◌++◌, IfOk, string_bytes};
ghost use Rattle.std.specs.List.{flat_map};
ghost use Rattle.wp_make.specs.Records.{aisle_records, stock_record, stock_records};
ghost use Rattle.wp_make.specs.Texts.{record_line, table_text};
ghost use Rattle.wp_tables.specs.StockFile.{stock_heading};

use crate::generator::SLOTS;
use std::alloc::Global;
use std::fmt::Write;
use wp_model::{Location, Memory, Side};

/// How many units lie in each row.
const ON_HAND: u32 = 1_000_000;

fn print_row(text: &mut String, aisle: u32, slot: u32) -> Result<(), Memory>
    ensures { IfOk result (λ _. string_bytes text.new
        ≡ string_bytes text.old ++ record_line (stock_record aisle slot)) }
{
    let location = Location {
        aisle,
        slot,
        side: Side::L,
    };
    writeln!(text, "{location},A{aisle}-{slot},{ON_HAND}")?;
    Ok(())
}

fn print_aisle(text: &mut String, aisle: u32) -> Result<(), Memory>
    ensures { IfOk result (λ _. string_bytes text.new
        ≡ string_bytes text.old ++ flat_map record_line (aisle_records aisle)) }
{
    for slot in 1..SLOTS + 1 {
        print_row(text, aisle, slot)?;
    }
    Ok(())
}

/// The text of the stock of so many aisles: a row for each slot, with an article of its own.
pub(crate) fn made_stock_text(alloc: Global, aisles: u32) -> Result<Vec<u8>, Memory>
    requires { aisles ≤ 64 }
    ensures { IfOk result (λ text. text.items ≡ table_text stock_heading (stock_records aisles)) }
{
    let mut text = String::from_str(alloc, "location,article,on_hand\n")?;
    for aisle in 1..aisles + 1 {
        print_aisle(&mut text, aisle)?;
    }
    Ok(text.into_bytes())
}
