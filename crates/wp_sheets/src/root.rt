//! The line of a bracket of a wave's linear bound.
ghost use Rattle.std.specs.Prelude.{◌≡◌, ◌++◌, IfOk};
ghost use Rattle.wp_sheets.specs.Roots.{over_words, root_line, sides_words, width_text};

use std::alloc::Global;
use std::io::Write;
use wp_model::Memory;

/// A bracket of a wave's linear bound as a sheet tells it: its low and its high side over one denominator, and whether
/// they are less than a sixtieth of a unit for each order apart.
#[derive(Clone, Copy)]
pub struct RootLine {
    pub low: i128,
    pub high: i128,
    pub denominator: i128,
    pub narrow: bool,
}

fn width_word(narrow: bool) -> &'static str
    ensures { result.now ≡ width_text narrow }
{
    if narrow { "narrow" } else { "open" }
}

fn print_sides(text: &mut Vec<u8>, root: &RootLine) -> Result<(), Memory>
    ensures { IfOk result (λ _. text.new.items ≡ text.old.items ++ sides_words root.now) }
{
    let low = root.low;
    let high = root.high;
    write!(text, "root {low} {high}").or(Err(Memory))
}

fn print_over(text: &mut Vec<u8>, root: &RootLine) -> Result<(), Memory>
    ensures { IfOk result (λ _. text.new.items ≡ text.old.items ++ over_words root.now) }
{
    let denominator = root.denominator;
    let width = width_word(root.narrow);
    write!(text, " over {denominator} {width}").or(Err(Memory))
}

/// Adds the line of a bracket, with its line feed: its low and its high side, the denominator of both, and `narrow` or
/// `open`. An `Err` comes from a want of memory alone.
pub fn append_root(text: &mut Vec<u8>, root: &RootLine) -> Result<(), Memory>
    ensures { IfOk result (λ _. text.new.items ≡ text.old.items ++ root_line root.now) }
{
    print_sides(text, root)?;
    print_over(text, root)?;
    Ok(text.push(b'\n')?)
}

/// The line of a bracket, as `append_root` adds it.
pub fn print_root(alloc: Global, root: &RootLine) -> Result<Vec<u8>, Memory>
    ensures { IfOk result (λ line. line.items ≡ root_line root.now) }
{
    let mut line = Vec::new(alloc);
    append_root(&mut line, root)?;
    Ok(line)
}
