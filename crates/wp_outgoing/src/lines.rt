//! What goes out as text: a section that is a desk file, one of the waves, and one of the orders that are left.
ghost use Rattle.std.specs.Prelude.{◌≡◌, ◌++◌, IfOk};
ghost use Rattle.std.specs.List.{flat_map};
ghost use Rattle.wp_outgoing.specs.Lines.{desks_section, first_rank, greatest_rank, least_rank, left_line};
ghost use Rattle.wp_outgoing.specs.Lines.{left_section};
ghost use Rattle.wp_outgoing.specs.Lines.{order_after_comma, outgoing_text, release_end, sending_lines, submit_start};
ghost use Rattle.wp_outgoing.specs.Lines.{wave_line, waves_section};

use crate::left::LeftOrder;
use std::alloc::Global;
use std::io::Write;
use wp_model::{Memory, Name};
use wp_waves::OpenOrder;

/// A wave that goes out: its name, its orders in the order in which they were served, and what the planner's start
/// costs for it.
#[derive(Drop)]
pub struct WaveOut {
    pub name: Name,
    pub orders: Vec<OpenOrder>,
    pub start: u64,
}

// Adds an order after a comma.
fn append_order(text: &mut Vec<u8>, one: &OpenOrder) -> Result<(), Memory>
    ensures { IfOk result (λ _. text.new.items ≡ text.old.items ++ order_after_comma one.now) }
{
    let order = one.order;
    write!(text, ",{order}").or(Err(Memory))
}

// Adds orders, each after a comma.
fn append_orders(text: &mut Vec<u8>, orders: &[OpenOrder]) -> Result<(), Memory>
    ensures { IfOk result (λ _. text.new.items
        ≡ text.old.items ++ flat_map order_after_comma orders.now) }
{
    for one in orders {
        append_order(text, one)?;
    }
    Ok(())
}

// Adds the beginning of a line in which a desk submits a wave.
fn append_submit(text: &mut Vec<u8>, desk: u32, wave: &WaveOut) -> Result<(), Memory>
    ensures { IfOk result (λ _. text.new.items
        ≡ text.old.items ++ submit_start desk wave.now.name) }
{
    let name = wave.name;
    write!(text, "{desk},submit,{name}").or(Err(Memory))
}

// Adds the end of that line, and the line in which the desk releases the wave.
fn append_release(text: &mut Vec<u8>, desk: u32, wave: &WaveOut) -> Result<(), Memory>
    ensures { IfOk result (λ _. text.new.items
        ≡ text.old.items ++ release_end desk wave.now.name) }
{
    let name = wave.name;
    writeln!(text, "\n{desk},release,{name}").or(Err(Memory))
}

// Adds the lines in which a desk submits and releases a wave.
fn append_sending(text: &mut Vec<u8>, desk: u32, wave: &WaveOut) -> Result<(), Memory>
    ensures { IfOk result (λ _. text.new.items ≡ text.old.items ++ sending_lines desk wave.now) }
{
    append_submit(text, desk, wave)?;
    append_orders(text, wave.orders.as_slice())?;
    append_release(text, desk, wave)?;
    Ok(())
}

// The rank of the first order.
fn first_rank(orders: &[OpenOrder]) -> u32
    ensures { result ≡ first_rank orders.now }
{
    match orders.first() {
        Some(one) => one.rank,
        None => 0,
    }
}

// The least rank of orders.
fn least_rank(orders: &[OpenOrder]) -> u32
    ensures { result ≡ least_rank orders.now }
{
    let mut least = first_rank(orders);
    for one in orders {
        least = least.min(one.rank);
    }
    least
}

// The greatest rank of orders.
fn greatest_rank(orders: &[OpenOrder]) -> u32
    ensures { result ≡ greatest_rank orders.now }
{
    let mut greatest = first_rank(orders);
    for one in orders {
        greatest = greatest.max(one.rank);
    }
    greatest
}

// Adds the line of a wave.
fn append_wave(text: &mut Vec<u8>, wave: &WaveOut) -> Result<(), Memory>
    ensures { IfOk result (λ _. text.new.items ≡ text.old.items ++ wave_line wave.now) }
{
    let name = wave.name;
    let orders = wave.orders.as_slice();
    let count = orders.len();
    let least = least_rank(orders);
    let greatest = greatest_rank(orders);
    let start = wave.start;
    writeln!(
        text,
        "wave {name} orders {count} ranks {least} {greatest} start {start}"
    )
    .or(Err(Memory))
}

// Adds the lines of all waves in a desk file.
fn append_sendings(text: &mut Vec<u8>, desk: u32, waves: &[WaveOut]) -> Result<(), Memory>
    ensures { IfOk result (λ _. text.new.items
        ≡ text.old.items ++ flat_map (sending_lines desk) waves.now) }
{
    for wave in waves {
        append_sending(text, desk, wave)?;
    }
    Ok(())
}

// Adds the lines of all waves.
fn append_waves(text: &mut Vec<u8>, waves: &[WaveOut]) -> Result<(), Memory>
    ensures { IfOk result (λ _. text.new.items ≡ text.old.items ++ flat_map wave_line waves.now) }
{
    for wave in waves {
        append_wave(text, wave)?;
    }
    Ok(())
}

// Adds the line of an order that is left.
fn append_left_order(text: &mut Vec<u8>, left: &LeftOrder) -> Result<(), Memory>
    ensures { IfOk result (λ _. text.new.items ≡ text.old.items ++ left_line left.now) }
{
    writeln!(text, "{left}").or(Err(Memory))
}

// Adds the lines of all orders that are left.
fn append_left(text: &mut Vec<u8>, left: &[LeftOrder]) -> Result<(), Memory>
    ensures { IfOk result (λ _. text.new.items ≡ text.old.items ++ flat_map left_line left.now) }
{
    for one in left {
        append_left_order(text, one)?;
    }
    Ok(())
}

// Adds the section that is a desk file.
fn append_desks_section(text: &mut Vec<u8>, desk: u32, waves: &[WaveOut]) -> Result<(), Memory>
    ensures { IfOk result (λ _. text.new.items ≡ text.old.items ++ desks_section desk waves.now) }
{
    text.extend_from_slice(b"desks\ndesk,command,arguments\n")?;
    append_sendings(text, desk, waves)?;
    Ok(text.extend_from_slice(b"end desks\n")?)
}

// Adds the section of the waves.
fn append_waves_section(text: &mut Vec<u8>, waves: &[WaveOut]) -> Result<(), Memory>
    ensures { IfOk result (λ _. text.new.items ≡ text.old.items ++ waves_section waves.now) }
{
    text.extend_from_slice(b"waves\n")?;
    append_waves(text, waves)?;
    Ok(text.extend_from_slice(b"end waves\n")?)
}

// Adds the section of the orders that are left.
fn append_left_section(text: &mut Vec<u8>, left: &[LeftOrder]) -> Result<(), Memory>
    ensures { IfOk result (λ _. text.new.items ≡ text.old.items ++ left_section left.now) }
{
    text.extend_from_slice(b"left\n")?;
    append_left(text, left)?;
    Ok(text.extend_from_slice(b"end left\n")?)
}

/// All that is told of waves that go out: the section that is a desk file, in which a desk submits and releases them
/// one after the other; the waves, each with its name, how many orders it has, its least rank and its greatest, and
/// what its start costs; the orders that are left, each with why; and a last line. `Memory` comes from a want of
/// memory alone.
pub fn print_outgoing(
    alloc: Global,
    desk: u32,
    waves: &[WaveOut],
    left: &[LeftOrder],
) -> Result<Vec<u8>, Memory>
    ensures { IfOk result (λ text. text.items ≡ outgoing_text desk waves.now left.now) }
{
    let mut text = Vec::new(alloc);
    append_desks_section(&mut text, desk, waves)?;
    append_waves_section(&mut text, waves)?;
    append_left_section(&mut text, left)?;
    text.extend_from_slice(b"end\n")?;
    Ok(text)
}
