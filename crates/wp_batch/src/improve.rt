ghost use Rattle.std.specs.Prelude.{◌≡◌, ◌<◌, ◌∷◌, [], All, Contains, IfSome, IsTrue, List, ℕ, length, set};
ghost use Rattle.wp_lengths.specs.Batchings.{IsBatching, IsCost};
ghost use Rattle.wp_batch.specs.Joins.{CostNoMore};
ghost use Rattle.wp_batch.specs.Splits.{CanReplace, DividesInto, IsDivided, IsFit, IsSplit};

use crate::changes::Changes;
use crate::instance::Instance;
use crate::moves::{BatchPair, best_move};
use crate::seen::SeenLengths;
use crate::split::{Split, replace, split_of};
use wp_pairs::Batch;

/// How many orders two batches have at most that are divided anew.
const MOST_IN_TWO: u32 = 10;

/// How often all pairs of batches are gone through at most.
const MOST_ROUNDS: u32 = 16;

/// What batches are improved with: the lengths that were seen, and which batches have changed.
#[derive(Drop)]
struct Improver<'a> {
    seen: SeenLengths<'a>,
    changes: Changes,
}

/// Two batches, and what is still to go into one of them.
#[derive(Clone, Copy)]
struct Halves {
    left: Batch,
    right: Batch,
    rest: Batch,
}

// The least order of the rest goes to one side.
fn moved(halves: Halves, to_left: bool) -> Halves
    ensures { (union : List ℕ) → DividesInto union halves.left halves.right halves.rest
        → DividesInto union result.left result.right result.rest }
{
    match halves.rest.least() {
        Some(order) if order < 64 => placed(halves, order, to_left),
        _ => halves,
    }
}

// An order of the rest goes to one side.
fn placed(halves: Halves, order: u32, to_left: bool) -> Halves
    requires known { order < 64 }
    requires rest { Contains halves.rest order }
    ensures { (union : List ℕ) → DividesInto union halves.left halves.right halves.rest
        → DividesInto union result.left result.right result.rest }
{
    let rest = halves.rest.without(order);
    if to_left {
        return Halves {
            left: halves.left.with(order),
            right: halves.right,
            rest,
        };
    }
    Halves {
        left: halves.left,
        right: halves.right.with(order),
        rest,
    }
}

// Divides a batch of at most ten orders: those whose bits the choice has go to the left.
fn divide(union: Batch, choice: u32) -> Option<Split>
    ensures { IfSome result (IsDivided union) }
{
    let mut halves = Halves {
        left: Batch::empty(),
        right: Batch::empty(),
        rest: union,
    };
    for at in 0..MOST_IN_TWO {
        halves = moved(halves, (choice >> at) & 1 == 1);
    }
    if halves.rest.len() > 0 {
        return None;
    }
    Some(Split {
        left: halves.left,
        right: halves.right,
        total: 0,
    })
}

// A batch divided by a choice, if both parts fit.
fn fitting_split(instance: &Instance<'_>, union: Batch, choice: u32) -> Option<Split>
    ensures { IfSome result (IsSplit instance.now.wave.now instance.now.capacity union) }
{
    let split = divide(union, choice)?;
    if !instance.is_fit(split.left) {
        return None;
    }
    if !instance.is_fit(split.right) {
        return None;
    }
    Some(split)
}

// A division with what it costs, if that is less than this.
fn costing_less(instance: &Instance<'_>, union: Batch, split: Split, least: u64) -> Option<Split>
    requires known { All (λ order. order < length instance.now.wave.now.orders) union }
    requires split { IsSplit instance.now.wave.now instance.now.capacity union split }
    ensures split { IfSome result (IsSplit instance.now.wave.now instance.now.capacity union) }
    ensures total { IfSome result (λ split. IsCost instance.now.wave.now
        (split.left ∷ split.right ∷ []) split.total) }
    ensures less { IfSome result (λ split. split.total < least) }
{
    let total = instance
        .wave
        .batch_length(split.left)
        .saturating_add(instance.wave.batch_length(split.right));
    if total >= least {
        return None;
    }
    Some(Split {
        left: split.left,
        right: split.right,
        total,
    })
}

// A batch divided by a choice, if both parts fit and cost less than this.
fn lesser_split(instance: &Instance<'_>, union: Batch, choice: u32, least: u64) -> Option<Split>
    requires { All (λ order. order < length instance.now.wave.now.orders) union }
    ensures split { IfSome result (IsSplit instance.now.wave.now instance.now.capacity union) }
    ensures total { IfSome result (λ split. IsCost instance.now.wave.now
        (split.left ∷ split.right ∷ []) split.total) }
    ensures less { IfSome result (λ split. split.total < least) }
{
    let split = fitting_split(instance, union, choice)?;
    costing_less(instance, union, split, least)
}

// How many ways there are to divide so many orders, the last one being on the right.
fn count_choices(orders: u32) -> u32 {
    if orders < 1 || MOST_IN_TWO < orders {
        return 0;
    }
    1 << (orders - 1)
}

// The cheapest way to divide the orders of two batches anew, if one costs less than this.
fn best_split(instance: &Instance<'_>, union: Batch, most: u64) -> Option<Split>
    requires { All (λ order. order < length instance.now.wave.now.orders) union }
    ensures split { IfSome result (IsSplit instance.now.wave.now instance.now.capacity union) }
    ensures total { IfSome result (λ split. IsCost instance.now.wave.now
        (split.left ∷ split.right ∷ []) split.total) }
    ensures less { IfSome result (λ split. split.total < most) }
{
    let mut least = most;
    let mut best = None;
    for choice in 0..count_choices(union.len()) {
        if let Some(split) = lesser_split(instance, union, choice, least) {
            least = split.total;
            best = Some(split);
        }
    }
    best
}

// The orders of two batches put into two anew, if that costs less than this: the cheapest division of all where they
// have at most ten orders together, or else that to which the cheapest move leads.
fn cheaper_split(improver: &mut Improver<'_>, pair: &BatchPair<'_>, most: u64) -> Option<Split>
    requires { All (λ order. order < length pair.now.instance.wave.now.orders) pair.now.union }
    ensures split { IfSome result (IsSplit pair.now.instance.wave.now pair.now.instance.capacity
        pair.now.union) }
    ensures total { IfSome result (λ split. IsCost pair.now.instance.wave.now
        (split.left ∷ split.right ∷ []) split.total) }
    ensures less { IfSome result (λ split. split.total < most) }
{
    if pair.union.len() <= MOST_IN_TWO {
        return best_split(&pair.instance, pair.union, most);
    }
    let split = split_of(&pair.instance, pair.union, pair.left, pair.right)?;
    let at_most = Split {
        left: split.left,
        right: split.right,
        total: most,
    };
    let found = best_move(&mut improver.seen, pair, at_most);
    costing_less(&pair.instance, pair.union, found, most)
}

// Puts the orders of two batches into two anew, where that costs less.
fn improve_pair(
    improver: &mut Improver<'_>,
    instance: &Instance<'_>,
    batches: &mut Vec<Batch>,
    left: usize,
    right: usize,
) -> bool
    requires batching { IsBatching instance.now.wave.now instance.now.capacity batches.old.items }
    requires order { left < right }
    requires within { right < length batches.old.items }
    ensures batching { IsBatching instance.now.wave.now instance.now.capacity batches.new.items }
    ensures count { length batches.new.items ≡ length batches.old.items }
    ensures no_dearer { CostNoMore instance.now.wave.now batches.old.items batches.new.items }
{
    let one = batches[left];
    let other = batches[right];
    let most = instance
        .wave
        .batch_length(one)
        .saturating_add(instance.wave.batch_length(other));
    let pair = BatchPair {
        instance: *instance,
        union: one.union(other),
        left: one,
        right: other,
    };
    match cheaper_split(improver, &pair, most) {
        Some(split) => {
            replace(instance, batches, left, right, split);
            true
        }
        None => false,
    }
}

// Improves a batch with each one before it, but for pairs of which none has changed since they were looked at.
fn improve_with(
    improver: &mut Improver<'_>,
    instance: &Instance<'_>,
    batches: &mut Vec<Batch>,
    right: usize,
)
    requires batching { IsBatching instance.now.wave.now instance.now.capacity batches.old.items }
    requires within { right < length batches.old.items }
    ensures batching { IsBatching instance.now.wave.now instance.now.capacity batches.new.items }
    ensures count { length batches.new.items ≡ length batches.old.items }
    ensures no_dearer { CostNoMore instance.now.wave.now batches.old.items batches.new.items }
{
    for left in 0..right {
        if improver.changes.is_fresh(left, right)
            && improve_pair(improver, instance, batches, left, right)
        {
            improver.changes.change(left, right);
        }
    }
}

// Improves all pairs of batches once, but for those of which none has changed since they were looked at.
fn improve_once(improver: &mut Improver<'_>, instance: &Instance<'_>, batches: &mut Vec<Batch>)
    requires batching { IsBatching instance.now.wave.now instance.now.capacity batches.old.items }
    ensures batching { IsBatching instance.now.wave.now instance.now.capacity batches.new.items }
    ensures count { length batches.new.items ≡ length batches.old.items }
    ensures no_dearer { CostNoMore instance.now.wave.now batches.old.items batches.new.items }
{
    for right in 0..batches.len() {
        improve_with(improver, instance, batches, right);
    }
}

/// Puts the orders of two batches into two anew as long as that costs less, for all pairs, 16 times at most. Where two
/// have at most ten orders together, all divisions of these are tried; or else one order goes to the other batch, two
/// change places, or two of one batch and one of the other do.
pub fn improve(seen: SeenLengths<'_>, instance: &Instance<'_>, batches: &mut Vec<Batch>)
    requires batching { IsBatching instance.now.wave.now instance.now.capacity batches.old.items }
    ensures batching { IsBatching instance.now.wave.now instance.now.capacity batches.new.items }
    ensures count { length batches.new.items ≡ length batches.old.items }
    ensures no_dearer { CostNoMore instance.now.wave.now batches.old.items batches.new.items }
{
    let mut improver = Improver {
        seen,
        changes: Changes::none(),
    };
    for _ in 0..MOST_ROUNDS {
        if !improver.changes.begin_round() {
            return;
        }
        improve_once(&mut improver, instance, batches);
    }
}
