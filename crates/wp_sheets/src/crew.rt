//! The section of a crew: a line for each picker, with the batches that are given to it.
ghost use Rattle.std.specs.Prelude.{◌≡◌, ◌<◌, ◌++◌, length, IfOk};
ghost use Rattle.std.specs.List.{All, flat_map, range_with_len};
ghost use Rattle.wp_sheets.specs.Crews.{crew_section, given_to, longest_line, picker_line};

use std::alloc::Global;
use std::io::Write;
use wp_crew::Crew;
use wp_model::{Memory, Name};

fn print_given(
    text: &mut Vec<u8>,
    picker: usize,
    picker_of: &[u32],
    names: &[Name],
    numbers: &[u32],
) -> Result<(), Memory>
    requires names { length names.now ≡ length picker_of.now }
    requires numbers { length numbers.now ≡ length picker_of.now }
    ensures { IfOk result (λ _. text.new.items
        ≡ text.old.items ++ given_to picker picker_of.now names.now numbers.now) }
{
    for place in 0..picker_of.len() {
        let owner = picker_of[place] as usize;
        if owner == picker {
            let name = names[place];
            let number = numbers[place];
            write!(text, " {name}/{number}").or(Err(Memory))?;
        }
    }
    Ok(())
}

fn print_picker(
    text: &mut Vec<u8>,
    crew: &Crew,
    names: &[Name],
    numbers: &[u32],
    picker: usize,
) -> Result<(), Memory>
    requires picker { picker < length crew.now.loads.items }
    requires names { length names.now ≡ length crew.now.picker_of.items }
    requires numbers { length numbers.now ≡ length crew.now.picker_of.items }
    ensures { IfOk result (λ _. text.new.items
        ≡ text.old.items ++ picker_line crew.now names.now numbers.now picker) }
{
    let number = picker + 1;
    let load = crew.loads[picker];
    write!(text, "picker {number} load {load} batches").or(Err(Memory))?;
    print_given(text, picker, &crew.picker_of, names, numbers)?;
    Ok(text.push(b'\n')?)
}

fn print_pickers(
    text: &mut Vec<u8>,
    crew: &Crew,
    names: &[Name],
    numbers: &[u32],
) -> Result<(), Memory>
    requires names { length names.now ≡ length crew.now.picker_of.items }
    requires numbers { length numbers.now ≡ length crew.now.picker_of.items }
    ensures { IfOk result (λ _. text.new.items
        ≡ text.old.items ++ flat_map (picker_line crew.now names.now numbers.now)
        (range_with_len 0 (length crew.now.loads.items))) }
{
    for picker in 0..crew.loads.len() {
        print_picker(text, crew, names, numbers, picker)?;
    }
    Ok(())
}

fn print_longest(text: &mut Vec<u8>, crew: &Crew) -> Result<(), Memory>
    ensures { IfOk result (λ _. text.new.items ≡ text.old.items ++ longest_line crew.now) }
{
    let longest = crew.longest;
    let least = crew.least;
    writeln!(text, "crew longest {longest} least {least}").or(Err(Memory))
}

/// Adds the section of a crew, each line with its line feed: the longest load and what no crew's longest load is below;
/// for each picker, from 1 on, its load and the batches that are given to it, each by the name of its wave and its
/// number on the wave's sheet; and a last line. Of each batch there are its picker, the name of its wave and its
/// number. An `Err` comes from a want of memory alone.
pub fn append_crew(
    text: &mut Vec<u8>,
    crew: &Crew,
    names: &[Name],
    numbers: &[u32],
) -> Result<(), Memory>
    requires names { length names.now ≡ length crew.now.picker_of.items }
    requires numbers { length numbers.now ≡ length crew.now.picker_of.items }
    requires pickers { All (λ picker. picker < length crew.now.loads.items)
        crew.now.picker_of.items }
    ensures { IfOk result (λ _. text.new.items
        ≡ text.old.items ++ crew_section crew.now names.now numbers.now) }
{
    print_longest(text, crew)?;
    print_pickers(text, crew, names, numbers)?;
    Ok(text.extend_from_slice(b"end crew\n")?)
}

/// The section of a crew, as `append_crew` adds it.
pub fn print_crew(
    alloc: Global,
    crew: &Crew,
    names: &[Name],
    numbers: &[u32],
) -> Result<Vec<u8>, Memory>
    requires names { length names.now ≡ length crew.now.picker_of.items }
    requires numbers { length numbers.now ≡ length crew.now.picker_of.items }
    requires pickers { All (λ picker. picker < length crew.now.loads.items)
        crew.now.picker_of.items }
    ensures { IfOk result (λ text. text.items ≡ crew_section crew.now names.now numbers.now) }
{
    let mut text = Vec::new(alloc);
    append_crew(&mut text, crew, names, numbers)?;
    Ok(text)
}
