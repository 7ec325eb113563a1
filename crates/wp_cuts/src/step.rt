ghost use Rattle.std.specs.Prelude.{◌≡◌, ◌≤◌, ◌<◌, ◌*◌, ℕ};
ghost use Rattle.std.specs.Int.{IsGcd};
ghost use Rattle.wp_cuts.specs.Steps.{IsLayoutStep, IsRoundedUp, layout_step};

use wp_graph::Layout;
use wp_lengths::SIXTIETHS;

// The greatest common divisor of two numbers.
fn greatest_divisor(left: u32, right: u32) -> u32
    ensures { IsGcd left right result }
{
    let mut divisor = left;
    let mut rest = right;
    while rest != 0 {
        let next = divisor % rest;
        divisor = rest;
        rest = next;
    }
    divisor
}

// The greatest common divisor of the lengths of moves within an aisle.
fn divisor_within(layout: &Layout) -> u32
    ensures alone { layout.now.slots < 2 → result ≡ layout.now.clearance }
    ensures both { 2 ≤ layout.now.slots → IsGcd layout.now.pitch layout.now.clearance result }
{
    if layout.slots() < 2 {
        layout.clearance()
    } else {
        greatest_divisor(layout.pitch(), layout.clearance())
    }
}

/// The step of a layout: twice the greatest common divisor of the clearance, the spacings and, unless each aisle has
/// one slot, the pitch. The length of each closed walk is a multiple of it.
pub fn step_of(layout: &Layout) -> u32
    ensures is { IsLayoutStep layout.now result }
    ensures computed { result ≡ layout_step layout.now }
    ensures some { 2 ≤ result }
{
    let mut half = divisor_within(layout);
    for aisle in 1..layout.aisles() {
        half = greatest_divisor(half, layout.spacing_after(aisle));
    }
    2 * half
}

// How many times so many sixtieths are enough for others.
fn times_for(parts: u128, sixtieths: u128) -> u128
    requires { 1 ≤ parts }
    ensures enough { sixtieths ≤ parts * result }
    ensures least { (fewer : ℕ) → fewer < result → parts * fewer < sixtieths }
{
    match sixtieths.checked_sub(1) {
        None => 0,
        Some(before) => before / parts + 1,
    }
}

/// So many sixtieths of a unit of length in whole units, rounded up to a multiple of a step.
pub fn rounded_up(step: u32, sixtieths: u128) -> u128
    requires { 1 ≤ step }
    ensures { IsRoundedUp step sixtieths result }
{
    let times = times_for(u128::from(SIXTIETHS) * u128::from(step), sixtieths);
    times * u128::from(step)
}
