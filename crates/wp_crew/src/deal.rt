//! Dealing by Graham's rule: the lengths in falling order, each to a picker with the least load (Graham, SIAM Journal
//! on Applied Mathematics 17, 1969).
ghost use Rattle.std.specs.Prelude.{◌≡◌, ◌<◌, ◌≤◌, IfOk, length, nat_lt, replicate};
ghost use Rattle.std.specs.List.{IsFirstBest};
ghost use Rattle.wp_crew.specs.Turns.{AreFallingTurns, AreFew, IsBalanced};

use crate::turns::{PlacedLength, falling_turns};
use std::alloc::Global;
use wp_outside::Memory;

// The picker with the least load, of equal ones the first.
fn least_loaded(loads: &[u64]) -> usize
    requires { 0 < length loads.now }
    ensures { IsFirstBest nat_lt loads.now (length loads.now) result }
{
    let mut best = 0;
    for picker in 1..loads.len() {
        if loads[picker] < loads[best] {
            best = picker;
        }
    }
    best
}

// Deals each length to a picker. Nobody has one before: the loads are 0, and the number after the last picker's stands
// in each place.
fn deal_turns(lengths: &[u64], turns: &[PlacedLength], loads: &mut [u64], picker_of: &mut [u32])
    requires few { AreFew lengths.now }
    requires turns { AreFallingTurns lengths.now turns.now }
    requires some { 0 < length loads.old }
    requires most { length loads.old ≤ 100 }
    requires empty { loads.old ≡ replicate (length loads.old) 0 }
    requires nobody { picker_of.old ≡ replicate (length lengths.now) (length loads.old) }
    ensures { IsBalanced lengths.now (length loads.old) picker_of.new }
{
    for turn in turns {
        let picker = least_loaded(loads);
        loads[picker] += turn.length;
        picker_of[turn.place] = picker as u32;
    }
}

/// The picker of each length, after they were dealt in falling order, each to the picker with the least load.
pub fn deal(alloc: Global, lengths: &[u64], pickers: u32) -> Result<Vec<u32>, Memory>
    requires few { AreFew lengths.now }
    requires some { 1 ≤ pickers }
    requires most { pickers ≤ 100 }
    ensures { IfOk result (λ picker_of. IsBalanced lengths.now pickers picker_of.items) }
{
    let turns = falling_turns(alloc, lengths)?;
    let mut picker_of = vec![in alloc; pickers; lengths.len()]?;
    let mut loads = vec![in alloc; 0; pickers as usize]?;
    deal_turns(lengths, &turns, &mut loads, &mut picker_of);
    Ok(picker_of)
}
