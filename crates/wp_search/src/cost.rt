ghost use Rattle.std.specs.Prelude.{length};
ghost use Rattle.wp_lengths.specs.Batchings.{IsBatching, IsCost};

use wp_lengths::{Batching, Wave};

/// What a batching of a wave within a capacity costs: the sum of the lengths of its batches, below 2 ^ 60 units.
pub fn cost_of(wave: &Wave, capacity: u32, batching: &Batching) -> u64
    requires { IsBatching wave.now capacity batching.now }
    ensures { IsCost wave.now batching.now result }
{
    let mut cost: u64 = 0;
    for place in 0..batching.len() {
        cost += wave.batch_length(*batching.at(place));
    }
    cost
}
