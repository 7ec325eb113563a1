ghost use Rattle.std.specs.Prelude.{◌≡◌, ◌<◌, IfOk, IfSome, length};
ghost use Rattle.wp_lengths.specs.Batchings.{IsBatching};
ghost use Rattle.wp_batch.specs.Walks.{IsWalk};

use crate::instance::Instance;
use crate::last_places::LastPlaces;
use crate::moves::least_and_rest;
use crate::near::Nearness;
use crate::seen::SeenLengths;
use crate::split::{replace, split_of};
use std::alloc::Global;
use wp_draws::Draws;
use wp_model::Memory;
use wp_pairs::Batch;

/// How much of what single orders tell a move is held to add, in parts of 100.
const HELD_TO_ADD: u64 = 85;

/// By how much a move may cost more: one of these, drawn, in thousandths of the heat. They are the middles of 64 equal
/// parts of an exponential distribution, -ln((k + 1/2) / 64).
const ALLOWANCES: [u64; 64] = [
    4852, 3753, 3243, 2906, 2655, 2454, 2287, 2144, 2019, 1908, 1808, 1717, 1633, 1556, 1485, 1418,
    1356, 1297, 1241, 1188, 1138, 1091, 1045, 1002, 960, 920, 882, 845, 809, 774, 741, 709, 678,
    647, 618, 589, 562, 535, 508, 483, 458, 433, 409, 386, 363, 341, 319, 298, 277, 257, 237, 217,
    198, 179, 161, 143, 125, 107, 90, 73, 56, 40, 24, 8,
];

/// A walk from batching to batching by moves: the batching where it is, and the cheapest that it came past, each with
/// what it costs by the lengths that were seen.
#[derive(Drop)]
pub struct Walk {
    pub batches: Vec<Batch>,
    pub best: Vec<Batch>,
    pub cost: u64,
    pub least: u64,
}

/// What moves are drawn and weighed with: lengths, what orders have to do with each other, draws, and where orders were
/// found last.
#[derive(Drop)]
pub struct Mover<'a> {
    pub seen: SeenLengths<'a>,
    pub nearness: Nearness,
    pub draws: Draws,
    pub found: LastPlaces,
}

/// A move between the batches at two places: an order of the first goes to the second, and one of the second goes back,
/// or none.
#[derive(Clone, Copy)]
struct Move {
    first: usize,
    second: usize,
    order: u32,
    back: Option<u32>,
    // the two batches without what leaves them
    fewer: Batch,
    kept: Batch,
    // the two batches after the move
    left: Batch,
    right: Batch,
}

// The order of a batch that so many others come before.
fn order_at(batch: Batch, number: u32) -> Option<u32>
    ensures { IfSome result (λ order. order < 64) }
{
    let mut rest = batch;
    for _ in 0..number {
        rest = least_and_rest(rest)?.1;
    }
    Some(least_and_rest(rest)?.0)
}

// The batches after a move between two, as the batches stand at the places.
fn move_of(from: Batch, to: Batch, order: u32, back: Option<u32>) -> Move
    requires order { order < 64 }
    requires back { IfSome back (λ other. other < 64) }
{
    let fewer = from.without(order);
    let (left, kept) = match back {
        Some(other) => (fewer.with(other), to.without(other)),
        None => (fewer, to),
    };
    Move {
        first: 0,
        second: 0,
        order,
        back,
        fewer,
        kept,
        left,
        right: kept.with(order),
    }
}

// Makes a move, where it leaves two batches that fit, and tells whether it does.
fn make_move(instance: &Instance<'_>, batches: &mut Vec<Batch>, drawn: &Move) -> bool
    requires { IsBatching instance.now.wave.now instance.now.capacity batches.old.items }
    ensures batching { IsBatching instance.now.wave.now instance.now.capacity batches.new.items }
    ensures count { length batches.new.items ≡ length batches.old.items }
{
    let first = drawn.first.min(drawn.second);
    let second = drawn.first.max(drawn.second);
    if first >= second || second >= batches.len() {
        return false;
    }
    let union = batches[first].union(batches[second]);
    let Some(split) = split_of(instance, union, drawn.left, drawn.right) else {
        return false;
    };
    replace(instance, batches, first, second, split);
    true
}

impl Walk {
    /// The walk that begins at a batching.
    pub fn from(
        alloc: Global,
        instance: &Instance<'_>,
        seen: &mut SeenLengths<'_>,
        batches: Vec<Batch>,
    ) -> Result<Walk, Memory>
        requires { IsBatching instance.now.wave.now instance.now.capacity batches.items }
        ensures { IfOk result (IsWalk instance.now.wave.now instance.now.capacity) }
    {
        let best = Vec::from_slice(alloc, batches.as_slice())?;
        let cost = seen.sum_of(batches.as_slice());
        Ok(Walk {
            batches,
            best,
            cost,
            least: cost,
        })
    }

    // Keeps the batching where the walk is, if it is cheaper than all before.
    fn keep_best(&mut self, instance: &Instance<'_>)
        requires { IsWalk instance.now.wave.now instance.now.capacity self.old }
        ensures { IsWalk instance.now.wave.now instance.now.capacity self.new }
    {
        if self.cost < self.least {
            self.least = self.cost;
            self.best
                .as_mut_slice()
                .copy_from_slice(self.batches.as_slice());
        }
    }
}

impl Mover<'_> {
    // A drawn order of a batch.
    fn draw_order(&mut self, batch: Batch) -> Option<u32>
        ensures { IfSome result (λ order. order < 64) }
    {
        let count = batch.len();
        if count == 0 {
            return None;
        }
        order_at(batch, self.draws.below(u64::from(count)) as u32)
    }

    // Which order goes back from a batch: none where there is room and this is drawn.
    fn draw_back(&mut self, capacity: u32, to: Batch) -> Option<u32>
        ensures { IfSome result (λ order. order < 64) }
    {
        let orders = to.len();
        if orders < capacity && self.draws.below(u64::from(orders) + 1) == 0 {
            return None;
        }
        self.draw_order(to)
    }

    // A drawn move: an order goes to the batch of one that lies near it.
    fn draw_move(&mut self, instance: &Instance<'_>, batches: &[Batch]) -> Option<Move> {
        let order = self.draws.below(u64::from(instance.wave.orders())) as u32;
        let choice = self.draws.below(u64::from(self.nearness.count().max(1))) as u32;
        let beside = self.nearness.near(order, choice)?;
        let first = self.found.place_with(batches, order)?;
        let second = self.found.place_with(batches, beside)?;
        if first == second {
            return None;
        }
        let back = self.draw_back(instance.capacity, batches[second]);
        Some(Move {
            first,
            second,
            ..move_of(batches[first], batches[second], order, back)
        })
    }

    // What the two batches of a move cost after it, if that is no more than a limit. Where single orders tell that it
    // would be more, no length is asked for.
    fn cost_within(&mut self, drawn: &Move, limit: u64) -> Option<u64> {
        let kept = self.seen.length_of(drawn.kept);
        let least = self.seen.length_of(drawn.fewer).saturating_add(kept);
        let mut added = self.nearness.added(drawn.kept, drawn.order);
        if let Some(order) = drawn.back {
            added = added.saturating_add(self.nearness.added(drawn.fewer, order));
        }
        if least.saturating_add(added.saturating_mul(HELD_TO_ADD) / 100) > limit {
            return None;
        }
        let left = self.seen.length_of(drawn.left);
        if left.saturating_add(kept) > limit {
            return None;
        }
        let total = left.saturating_add(self.seen.length_of(drawn.right));
        (total <= limit).then_some(total)
    }

    // How much more than before a move may cost, where the heat is told in thousandths of a unit of length.
    fn draw_allowance(&mut self, heat: u64) -> u64 {
        let drawn = ALLOWANCES[self.draws.below(64) as usize];
        heat.saturating_mul(drawn) / 1_000_000
    }

    // One move, if it costs at most as much more as is drawn.
    fn step(&mut self, instance: &Instance<'_>, walk: &mut Walk, heat: u64)
        requires { IsWalk instance.now.wave.now instance.now.capacity walk.old }
        ensures { IsWalk instance.now.wave.now instance.now.capacity walk.new }
    {
        let Some(drawn) = self.draw_move(instance, walk.batches.as_slice()) else {
            return;
        };
        let before = self.cost_before(walk.batches.as_slice(), &drawn);
        let limit = before.saturating_add(self.draw_allowance(heat));
        let Some(total) = self.cost_within(&drawn, limit) else {
            return;
        };
        if make_move(instance, &mut walk.batches, &drawn) {
            walk.cost = walk.cost.saturating_add(total).saturating_sub(before);
            walk.keep_best(instance);
        }
    }

    // What the two batches of a move cost before it.
    fn cost_before(&mut self, batches: &[Batch], drawn: &Move) -> u64 {
        let mut sum: u64 = 0;
        if let Some(first) = batches.get(drawn.first) {
            sum = self.seen.length_of(*first);
        }
        if let Some(second) = batches.get(drawn.second) {
            sum = sum.saturating_add(self.seen.length_of(*second));
        }
        sum
    }

    /// Goes on by so many drawn moves. One that costs more is made the less often the more it costs against the heat.
    pub fn walk_on(&mut self, instance: &Instance<'_>, walk: &mut Walk, heat: u64, moves: u32)
        requires { IsWalk instance.now.wave.now instance.now.capacity walk.old }
        ensures { IsWalk instance.now.wave.now instance.now.capacity walk.new }
    {
        for _ in 0..moves {
            self.step(instance, walk, heat);
        }
    }
}
