//! Numbers for pickers, by the place of their first length.
ghost use Rattle.std.specs.Prelude.{◌≡◌, ◌<◌, ◌≤◌, All, IfOk, OnOk, length, map, slice_index};
ghost use Rattle.std.specs.List.{range_with_len};
ghost use Rattle.wp_crew.specs.Crews.{AreNumberedByFirst};
ghost use Rattle.wp_crew.specs.Numbers.{AreNumbers, IsRenumbered};

use std::alloc::Global;
use wp_outside::Memory;

// The numbers from 0 on, as many as there are pickers.
fn numbers_from_0(alloc: Global, pickers: u32) -> Result<Vec<u32>, Memory>
    ensures { IfOk result (λ numbers. numbers.items ≡ range_with_len 0 pickers) }
{
    let mut numbers = Vec::new(alloc);
    for number in 0..pickers {
        numbers.push(number)?;
    }
    Ok(numbers)
}

// Numbers pickers by the place of their first length, and tells the picker with each number. Those without a length
// have the last.
fn number_by_first(picker_of: &[u32], number_of: &mut [u32], picker_with: &mut [u32])
    requires most { length number_of.old ≤ 100 }
    requires own { AreNumbers (length number_of.old) number_of.old picker_with.old }
    requires below { All (λ picker. picker < length number_of.old) picker_of.now }
    ensures numbers { AreNumbers (length number_of.old) number_of.new picker_with.new }
    ensures numbered { AreNumberedByFirst (map (slice_index number_of.new) picker_of.now) }
{
    let mut given: u32 = 0;
    for picker in picker_of {
        let number = number_of[*picker as usize];
        if given <= number {
            let other = picker_with[given as usize];
            number_of.swap(*picker as usize, other as usize);
            picker_with.swap(given as usize, number as usize);
            given += 1;
        }
    }
}

// Puts the number of each picker in its place.
fn renumber(picker_of: &mut [u32], number_of: &[u32])
    requires { All (λ picker. picker < length number_of.now) picker_of.old }
    ensures { picker_of.new ≡ map (slice_index number_of.now) picker_of.old }
{
    for picker in picker_of.iter_mut() {
        *picker = number_of[*picker as usize];
    }
}

// Numbers pickers by the place of their first length, given a number for each and the picker with each.
fn number_from(picker_of: &mut [u32], number_of: &mut [u32], picker_with: &mut [u32])
    requires most { length number_of.old ≤ 100 }
    requires own { AreNumbers (length number_of.old) number_of.old picker_with.old }
    requires below { All (λ picker. picker < length number_of.old) picker_of.old }
    ensures renumbered { IsRenumbered (length number_of.old) picker_of.old picker_of.new }
    ensures numbered { AreNumberedByFirst picker_of.new }
{
    number_by_first(picker_of, number_of, picker_with);
    renumber(picker_of, number_of);
}

/// Numbers the pickers of an assignment by the place of their first length, those without one last.
pub fn number_pickers(alloc: Global, picker_of: &mut [u32], pickers: u32) -> Result<(), Memory>
    requires most { pickers ≤ 100 }
    requires below { All (λ picker. picker < pickers) picker_of.old }
    ensures renumbered { OnOk result (IsRenumbered pickers picker_of.old picker_of.new) }
    ensures numbered { OnOk result (AreNumberedByFirst picker_of.new) }
{
    let mut number_of = numbers_from_0(alloc, pickers)?;
    let mut picker_with = numbers_from_0(alloc, pickers)?;
    number_from(picker_of, &mut number_of, &mut picker_with);
    Ok(())
}
