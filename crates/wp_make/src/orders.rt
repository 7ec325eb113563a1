//! The made orders.
ghost use Rattle.std.specs.Prelude.{◌≡◌, ◌<◌, ◌^◌, ◌++◌, IfOk, OnOk, map, string_bytes};
ghost use Rattle.std.specs.List.{flat_map};
ghost use Rattle.wp_make.specs.Lines.{after_orders, order_lines};
ghost use Rattle.wp_make.specs.Records.{line_record, orders_records};
ghost use Rattle.wp_make.specs.Texts.{record_line, table_text};
ghost use Rattle.wp_tables.specs.OrderFile.{orders_heading};

use crate::generator::{Generator, MadeLine};
use std::alloc::Global;
use std::fmt::Write;
use wp_model::Memory;

fn print_line(text: &mut String, order: u32, line: MadeLine) -> Result<(), Memory>
    ensures { IfOk result (λ _. string_bytes text.new
        ≡ string_bytes text.old ++ record_line (line_record order line)) }
{
    let MadeLine {
        aisle,
        slot,
        quantity,
    } = line;
    writeln!(text, "O{order},A{aisle}-{slot},{quantity}")?;
    Ok(())
}

fn print_order(
    text: &mut String,
    generator: &mut Generator,
    aisles: u32,
    order: u32,
) -> Result<(), Memory>
    requires { 0 < aisles }
    ensures state { OnOk result (generator.new ≡ after_orders 1 generator.old) }
    ensures lines { IfOk result (λ _. string_bytes text.new ≡ string_bytes text.old
        ++ flat_map record_line (map (line_record order) (order_lines aisles generator.old))) }
{
    for _ in 0..generator.draw_line_count() {
        print_line(text, order, generator.draw_line(aisles))?;
    }
    Ok(())
}

/// The text of so many orders, which are drawn from a number in a warehouse of so many aisles.
pub(crate) fn made_orders_text(
    alloc: Global,
    number: u64,
    aisles: u32,
    orders: u32,
) -> Result<Vec<u8>, Memory>
    requires some { 0 < aisles }
    requires orders { orders < 2 ^ 32 }
    ensures { IfOk result (λ text. text.items
        ≡ table_text orders_heading (orders_records aisles number orders)) }
{
    let mut text = String::from_str(alloc, "order,article,quantity\n")?;
    let mut generator = Generator::new(number);
    for order in 0..orders {
        print_order(&mut text, &mut generator, aisles, order + 1)?;
    }
    Ok(text.into_bytes())
}
