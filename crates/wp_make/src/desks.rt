//! The commands of the made waves.
ghost use Rattle.std.specs.Prelude.{◌≡◌, ◌<◌, ◌≤◌, ◌+◌, ◌*◌, ◌^◌, ◌++◌, IfOk, map, string_bytes};
ghost use Rattle.std.specs.List.{flat_map, range_with_len};
ghost use Rattle.wp_make.specs.Records.{desks_records, order_name, wave_records};
ghost use Rattle.wp_make.specs.Sizes.{IsSize, wave_count};
ghost use Rattle.wp_make.specs.Texts.{after_comma, record_line, table_text};
ghost use Rattle.wp_tables.specs.DeskFile.{desks_heading};

use crate::input::Size;
use std::alloc::Global;
use std::fmt::Write;
use wp_model::Memory;

fn print_orders(text: &mut String, first: u32, count: u32) -> Result<(), Memory>
    requires { first + count < 2 ^ 32 }
    ensures { IfOk result (λ _. string_bytes text.new
        ≡ string_bytes text.old ++ flat_map after_comma
        (map order_name (range_with_len first count))) }
{
    for order in first..first + count {
        write!(text, ",O{order}")?;
    }
    Ok(())
}

/// The two commands of the wave after so many.
fn print_wave(text: &mut String, size: Size, waves: u32) -> Result<(), Memory>
    requires size { IsSize size }
    requires left { waves < wave_count size }
    ensures { IfOk result (λ _. string_bytes text.new
        ≡ string_bytes text.old ++ flat_map record_line (wave_records size waves)) }
{
    let wave = waves + 1;
    let desk = 1 + waves % size.desks;
    let taken = waves * size.wave;
    let count = size.wave.min(size.orders - taken);
    write!(text, "{desk},submit,W{wave}")?;
    print_orders(text, taken + 1, count)?;
    writeln!(text, "\n{desk},release,W{wave}")?;
    Ok(())
}

/// The text of the desks' commands: each wave is submitted and released by its desk.
pub(crate) fn made_desks_text(alloc: Global, size: Size) -> Result<Vec<u8>, Memory>
    requires { IsSize size }
    ensures { IfOk result (λ text. text.items ≡ table_text desks_heading (desks_records size)) }
{
    let mut text = String::from_str(alloc, "desk,command,arguments\n")?;
    for waves in 0..size.orders.div_ceil(size.wave) {
        print_wave(&mut text, size, waves)?;
    }
    Ok(text.into_bytes())
}
