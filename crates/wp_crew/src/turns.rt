//! The order in which lengths are dealt.
ghost use Rattle.std.specs.Prelude.{IfOk};
ghost use Rattle.std.specs.List.Sorted.{IsPermutation};
ghost use Rattle.wp_crew.specs.Turns.{AreFalling, AreFallingTurns, AreTurns};

use std::alloc::Global;
use wp_outside::Memory;

/// A length that is to be dealt, and its place in the list.
#[derive(Clone, Copy)]
pub struct PlacedLength {
    pub length: u64,
    pub place: usize,
}

// A turn for each length, in the order of the list.
fn turns_in_order(alloc: Global, lengths: &[u64]) -> Result<Vec<PlacedLength>, Memory>
    ensures { IfOk result (λ turns. AreTurns lengths.now turns.items) }
{
    let mut turns = Vec::new(alloc);
    for place in 0..lengths.len() {
        turns.push(PlacedLength {
            length: lengths[place],
            place,
        })?;
    }
    Ok(turns)
}

// Puts turns into the order in which none is longer than one before it.
fn sort_falling(turns: &mut [PlacedLength])
    ensures same { IsPermutation turns.old turns.new }
    ensures falling { AreFalling turns.new }
{
    turns.sort_unstable_by_key(|turn| turn.length);
    turns.reverse();
}

/// A turn for each length, the longest first.
pub fn falling_turns(alloc: Global, lengths: &[u64]) -> Result<Vec<PlacedLength>, Memory>
    ensures { IfOk result (λ turns. AreFallingTurns lengths.now turns.items) }
{
    let mut turns = turns_in_order(alloc, lengths)?;
    sort_falling(&mut turns);
    Ok(turns)
}
