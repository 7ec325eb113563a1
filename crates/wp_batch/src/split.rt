ghost use Rattle.std.specs.Prelude.{◌≡◌, ◌<◌, IfSome, length, set};
ghost use Rattle.wp_lengths.specs.Batchings.{IsBatching};
ghost use Rattle.wp_batch.specs.Splits.{CanReplace, IsSplit};

use crate::instance::Instance;
use wp_pairs::Batch;

/// Two batches, and the sum of their lengths.
#[derive(Clone, Copy)]
pub struct Split {
    pub left: Batch,
    pub right: Batch,
    pub total: u64,
}

/// Two batches as a division of the orders of both, if these are the orders of a third, none is in both, and they fit.
pub fn split_of(instance: &Instance<'_>, union: Batch, left: Batch, right: Batch) -> Option<Split>
    ensures { IfSome result (IsSplit instance.now.wave.now instance.now.capacity union) }
{
    if left.meets(right) || !left.union(right).is(union) {
        return None;
    }
    if !instance.is_fit(left) || !instance.is_fit(right) {
        return None;
    }
    Some(Split {
        left,
        right,
        total: 0,
    })
}

/// Puts two batches in place of two others.
pub fn replace(
    instance: &Instance<'_>,
    batches: &mut Vec<Batch>,
    left: usize,
    right: usize,
    split: Split,
)
    requires batching { IsBatching instance.now.wave.now instance.now.capacity batches.old.items }
    requires split { CanReplace instance.now.wave.now instance.now.capacity batches.old.items left
        right split }
    ensures batching { IsBatching instance.now.wave.now instance.now.capacity batches.new.items }
    ensures count { length batches.new.items ≡ length batches.old.items }
    ensures items { batches.new.items ≡ set (set batches.old.items left split.left) right
        split.right }
{
    batches[left] = split.left;
    batches[right] = split.right;
}
