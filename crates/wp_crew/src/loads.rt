//! The loads of pickers, the longest of them, and what it is at least.
ghost use Rattle.std.specs.Prelude.{◌≡◌, ◌<◌, ◌≤◌, ◌^◌, IfOk, sum};
ghost use Rattle.wp_crew.specs.Crews.{AreLoads, IsAssignment, greatest, least_longest};
ghost use Rattle.wp_crew.specs.Turns.{AreFew};

use std::alloc::Global;
use wp_outside::Memory;

/// The load of each picker.
pub fn loads_of(
    alloc: Global,
    lengths: &[u64],
    picker_of: &[u32],
    pickers: u32,
) -> Result<Vec<u64>, Memory>
    requires few { AreFew lengths.now }
    requires assigned { IsAssignment lengths.now pickers picker_of.now }
    ensures { IfOk result (λ loads. AreLoads lengths.now pickers picker_of.now loads.items) }
{
    let mut loads = vec![in alloc; 0; pickers as usize]?;
    for place in 0..lengths.len() {
        loads[picker_of[place] as usize] += lengths[place];
    }
    Ok(loads)
}

/// The greatest of some numbers, 0 where there are none.
pub fn greatest(numbers: &[u64]) -> u64
    ensures { result ≡ greatest numbers.now }
{
    let mut most = 0;
    for number in numbers {
        most = most.max(*number);
    }
    most
}

// The sum of all lengths.
fn total(lengths: &[u64]) -> u64
    requires { AreFew lengths.now }
    ensures value { result ≡ sum lengths.now }
    ensures small { result < 2 ^ 60 }
{
    let mut total = 0;
    for length in lengths {
        total += *length;
    }
    total
}

/// What the longest load is at least, in any assignment: the greatest length, and the mean load, rounded up.
pub fn least_longest(lengths: &[u64], pickers: u32) -> u64
    requires few { AreFew lengths.now }
    requires some { 1 ≤ pickers }
    ensures { result ≡ least_longest lengths.now pickers }
{
    let more = u64::from(pickers - 1);
    greatest(lengths).max((total(lengths) + more) / u64::from(pickers))
}
