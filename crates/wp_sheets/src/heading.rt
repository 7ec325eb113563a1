//! The first line of a wave's sheet.
ghost use Rattle.std.specs.Prelude.{◌≡◌, ◌++◌, IfOk};
ghost use Rattle.wp_sheets.specs.Sheets.{heading_line, later_text, search_words, state_text, units_words, wave_words};

use std::alloc::Global;
use std::io::Write;
use wp_machine::WaveHolds;
use wp_model::Memory;

fn state_word(state_open: bool) -> &'static str
    ensures { result.now ≡ state_text state_open }
{
    if state_open { "open" } else { "proven" }
}

fn later_words(cancelled_later: bool) -> &'static str
    ensures { result.now ≡ later_text cancelled_later }
{
    if cancelled_later {
        " cancelled later"
    } else {
        ""
    }
}

fn print_wave(text: &mut Vec<u8>, wave: &WaveHolds, capacity: u32) -> Result<(), Memory>
    ensures { IfOk result (λ _. text.new.items ≡ text.old.items ++ wave_words wave.now capacity) }
{
    let name = wave.wave;
    let number = wave.number;
    let orders = wave.orders.len();
    write!(
        text,
        "wave {name} entry {number} orders {orders} capacity {capacity}"
    )
    .or(Err(Memory))
}

fn print_units(text: &mut Vec<u8>, units: Option<u32>) -> Result<(), Memory>
    ensures { IfOk result (λ _. text.new.items ≡ text.old.items ++ units_words units) }
{
    if let Some(units) = units {
        write!(text, " units {units}").or(Err(Memory))?;
    }
    Ok(())
}

fn print_search(text: &mut Vec<u8>, cost: u64, bound: u64, state_open: bool) -> Result<(), Memory>
    ensures { IfOk result (λ _. text.new.items
        ≡ text.old.items ++ search_words cost bound state_open) }
{
    let state = state_word(state_open);
    write!(text, " cost {cost} bound {bound} {state}").or(Err(Memory))
}

/// What the first line of a wave's sheet tells: the wave, how many of its orders a batch may have, the units that a
/// cart holds where it holds a number of them, the cost of the wave's batching and the bound that no batching costs
/// less than, whether that batching isn't known to be cheapest, and whether a later entry cancels the wave.
#[derive(Clone, Copy)]
pub struct Heading<'a> {
    pub wave: &'a WaveHolds,
    pub capacity: u32,
    pub units: Option<u32>,
    pub cost: u64,
    pub bound: u64,
    pub state_open: bool,
    pub cancelled_later: bool,
}

/// Adds the first line of a wave's sheet, with its line feed: the wave, the number of its release's entry, how many
/// orders it has, the capacity, the units where there are some, the cost, the bound, `open` or `proven`, and `cancelled
/// later` where a later entry cancels the wave. An `Err` comes from a want of memory alone.
pub fn append_heading(text: &mut Vec<u8>, told: &Heading<'_>) -> Result<(), Memory>
    ensures { IfOk result (λ _. text.new.items ≡ text.old.items
        ++ heading_line told.now.wave.now told.now.capacity told.now.units told.now.cost told.now.bound
        told.now.state_open told.now.cancelled_later) }
{
    print_wave(text, told.wave, told.capacity)?;
    print_units(text, told.units)?;
    print_search(text, told.cost, told.bound, told.state_open)?;
    text.extend_from_slice(later_words(told.cancelled_later).as_bytes())?;
    Ok(text.push(b'\n')?)
}

/// The first line of a wave's sheet, as `append_heading` adds it.
pub fn print_heading(
    alloc: Global,
    wave: &WaveHolds,
    capacity: u32,
    units: Option<u32>,
    cost: u64,
    bound: u64,
    state_open: bool,
    cancelled_later: bool,
) -> Result<Vec<u8>, Memory>
    ensures { IfOk result (λ line. line.items
        ≡ heading_line wave.now capacity units cost bound state_open cancelled_later) }
{
    let told = Heading {
        wave,
        capacity,
        units,
        cost,
        bound,
        state_open,
        cancelled_later,
    };
    let mut line = Vec::new(alloc);
    append_heading(&mut line, &told)?;
    Ok(line)
}
