ghost use Rattle.std.specs.Prelude.{◌<◌, ℕ, All, IfOk, length};
ghost use Rattle.wp_model.specs.Tours.{IsTour};
ghost use Rattle.wp_lengths.specs.Lengths.{IsLengthOf, batch_picks};

use std::alloc::Global;
use wp_classes::tour_choice;
use wp_graph::Point;
use wp_lengths::Wave;
use wp_model::Memory;
use wp_pairs::Batch;
use wp_walk::walk_of;

// A shortest tour past all that the orders of a batch pick.
pub(crate) fn tour_of(alloc: Global, wave: &Wave, batch: Batch) -> Result<Vec<Point>, Memory>
    requires { All (λ order. order < length wave.now.orders) batch }
    ensures { (total : ℕ) → IsLengthOf wave.now batch total
        → IfOk result (λ walk. IsTour wave.now.layout (batch_picks wave.now batch) walk.items total) }
{
    let layout = wave.layout();
    let picks = wave.union_of(batch);
    let choice = tour_choice(&layout, &picks);
    walk_of(alloc, &layout, &picks, &choice)
}
