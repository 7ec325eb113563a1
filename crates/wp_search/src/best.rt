ghost use Rattle.std.specs.Prelude.{◌≡◌, ◌≤◌, ◌⊎◌, ℕ, IfSome, Some, length};
ghost use Rattle.wp_lengths.specs.Batchings.{IsCost};
ghost use Rattle.wp_search.specs.Searches.{IsBest, KeepsBest};
ghost use Rattle.wp_search.specs.Turns.{IsRestFound, IsProper};

use crate::cost::cost_of;
use wp_lengths::{Batching, Wave};

/// A batching of a wave, and what it costs in units of length.
#[derive(Drop)]
pub struct BestBatching {
    pub batching: Batching,
    pub cost: u64,
}

/// A batching with its cost.
pub fn best_of(wave: &Wave, capacity: u32, batching: Batching) -> BestBatching
    requires { IsProper wave.now capacity batching }
    ensures best { IsBest wave.now capacity result }
    ensures same { result.batching ≡ batching }
{
    let cost = cost_of(wave, capacity, &batching);
    BestBatching { batching, cost }
}

/// The cheaper of the best batching and one that was found, if one was. Of two that cost the same it is the one that
/// was the best before.
pub fn cheaper_of(
    wave: &Wave,
    capacity: u32,
    best: BestBatching,
    found: Option<Batching>,
) -> BestBatching
    requires best { IsBest wave.now capacity best }
    requires found { IsRestFound wave.now capacity found }
    ensures best { IsBest wave.now capacity result }
    ensures either { (result ≡ best) ⊎ (found ≡ Some result.batching) }
    ensures kept { KeepsBest best result }
    ensures no_dearer { IfSome found (λ batching. (cost : ℕ) → IsCost wave.now batching cost
        → result.cost ≤ cost) }
{
    let Some(batching) = found else {
        return best;
    };
    let next = best_of(wave, capacity, batching);
    if next.cost < best.cost { next } else { best }
}
