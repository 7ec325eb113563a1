ghost use Rattle.std.specs.Prelude.{◌≡◌, ◌<◌, ◌≤◌, ℕ, ◌++◌, ◌∷◌, [], ◌↔◌, IfOk, IsTrue, OnOk, Some, length, sum};
ghost use Rattle.wp_cert.specs.Paths.{IsPath, pairing_of};
ghost use Rattle.wp_cert.specs.Trees.{lower_of, with_pair};
ghost use Rattle.wp_lengths.specs.Duals.{units_of};
ghost use Rattle.wp_pairs.specs.Permitted.{AreUndecided};
ghost use Rattle.wp_search.specs.Branches.{HasBound, IsBranch, IsCut, IsFreshSplit, IsLeaf, IsWorked};
ghost use Rattle.wp_search.specs.Branches.{bound_of as least_of, own_bound};
ghost use Rattle.wp_node.specs.Raises.{AreFeasibleDuals};
ghost use Rattle.wp_search.specs.Turns.{IsTurned};
ghost use Rattle.wp_search.specs.declared.branch.Branch.TheVariants as branches;

use crate::branch::{Branch, Cut, lower_bound};
use crate::whole::better_batching;
use std::alloc::Global;
use std::thread::Threads;
use wp_cert::pairs_of;
use wp_lengths::{Batching, DualWave, OrderDuals, PairedWave, Wave};
use wp_model::Memory;
use wp_node::{Worked, choose_pair, class_batching, work_node};
use wp_outside::Gate;
use wp_pairs::{Batch, Capacity, OrderPair};
use wp_price::Workers;

/// What stays the same in a turn: the workers, the wave and the capacity; the bound of the leaf that takes it, which is
/// the least; what the best batching costs; and whether the budget pays for a node.
#[derive(Clone, Copy)]
pub struct Turner<'a, R, G> {
    pub workers: &'a Workers<'a, R, G>,
    pub wave: &'a Wave,
    pub capacity: Capacity,
    pub least: u64,
    pub cost: u64,
    pub pays: bool,
}

/// What a turn did at a leaf.
#[derive(Drop)]
pub enum LeafTurn {
    /// The leaf has duals of its own; a batching was found on the way, or none.
    Worked(Option<Batching>),
    /// The leaf is split, or dead.
    Onward,
    /// Nothing: the budget doesn't pay for the leaf's own duals.
    Spent,
    /// Nothing: all pairs are decided there, so this batching costs the leaf's bound.
    Settled(Batching),
}

/// A subtree after a turn, and what the turn did.
#[derive(Drop)]
pub struct TurnedBranch {
    pub branch: Branch,
    pub turn: LeafTurn,
}

// A turn at a leaf that keeps the duals of the node above.
fn turn_kept<R: Threads + Sync, G: Gate>(
    turner: &Turner<'_, R, G>,
    paired: &PairedWave<'_>,
    above: &OrderDuals,
    columns: &[Batch],
) -> Result<TurnedBranch, Memory>
    requires above { AreFeasibleDuals paired.now.wave.now paired.now.pairs.now above.now }
    ensures { IfOk result (λ turned. IsTurned paired.now.wave.now paired.now.pairs.now
        (sum above.now) turner.now.pays (units_of (sum above.now))
        (branches.Leaf None) turned.branch turned.turn) }
{
    if let Some(order) = paired.pairs.dead() {
        return Ok(TurnedBranch {
            branch: Branch::Dead(order),
            turn: LeafTurn::Onward,
        });
    }
    if !turner.pays {
        return Ok(TurnedBranch {
            branch: Branch::Leaf(None),
            turn: LeafTurn::Spent,
        });
    }
    let worked = work_node(turner.workers, paired, above, columns)?;
    let capacity = Capacity {
        most: paired.pairs.capacity(),
    };
    let whole = worked.whole.as_slice();
    let found = better_batching(turner.workers.alloc, paired.wave, capacity, whole)?;
    Ok(TurnedBranch {
        branch: Branch::Leaf(Some(worked)),
        turn: LeafTurn::Worked(found),
    })
}

// A node that is split on a pair: below it are two leaves that keep its duals.
fn split_on(alloc: Global, first: u32, second: u32, worked: Worked) -> Result<Branch, Memory>
    ensures { IfOk result (IsFreshSplit (record {
      first = first;
      second = second;
      worked = worked;
      least = Some (own_bound worked);
    })) }
{
    let least = worked.own.duals.bound();
    let together = Box::new(alloc, Branch::Leaf(None))?;
    let apart = Box::new(alloc, Branch::Leaf(None))?;
    let cut = Cut {
        first,
        second,
        worked,
        least: Some(least),
    };
    Ok(Branch::Split(cut, together, apart))
}

// A turn at a leaf with duals of its own.
fn turn_worked<R: Threads + Sync, G: Gate>(
    turner: &Turner<'_, R, G>,
    paired: &PairedWave<'_>,
    worked: Worked,
) -> Result<TurnedBranch, Memory>
    requires worked { IsWorked paired.now.wave.now paired.now.pairs.now 0 worked }
    ensures { IfOk result (λ turned. (above : ℕ) → above ≤ sum worked.own.duals
        → IsTurned paired.now.wave.now paired.now.pairs.now above turner.now.pays (own_bound worked)
        (branches.Leaf (Some worked)) turned.branch turned.turn) }
{
    match choose_pair(turner.workers.alloc, paired.pairs, &worked, turner.cost)? {
        Some((first, second)) => Ok(TurnedBranch {
            branch: split_on(turner.workers.alloc, first, second, worked)?,
            turn: LeafTurn::Onward,
        }),
        None => {
            let given = DualWave {
                wave: paired.wave,
                pairs: paired.pairs,
                duals: &worked.own.duals,
            };
            let batching = class_batching(turner.workers.alloc, &given)?;
            Ok(TurnedBranch {
                branch: Branch::Leaf(Some(worked)),
                turn: LeafTurn::Settled(batching),
            })
        }
    }
}

// A turn at a leaf that was taken out of its place, at the end of a path of pairs.
fn turn_leaf<R: Threads + Sync, G: Gate>(
    turner: &Turner<'_, R, G>,
    path: &Vec<OrderPair>,
    above: &OrderDuals,
    columns: &[Batch],
    leaf: Option<Worked>,
) -> Result<TurnedBranch, Memory>
    requires path { IsPath turner.now.wave.now turner.now.capacity.most path.now.items }
    requires above { AreFeasibleDuals turner.now.wave.now
        (pairing_of turner.now.wave.now turner.now.capacity.most path.now.items) above.now }
    requires leaf { IsBranch turner.now.wave.now
        (pairing_of turner.now.wave.now turner.now.capacity.most path.now.items) (sum above.now)
        (branches.Leaf leaf) }
    ensures { IfOk result (λ turned. (least : ℕ)
        → least_of (units_of (sum above.now)) (branches.Leaf leaf) ≡ Some least
        → IsTurned turner.now.wave.now (pairing_of turner.now.wave.now turner.now.capacity.most path.now.items)
        (sum above.now)
        turner.now.pays least (branches.Leaf leaf) turned.branch turned.turn) }
{
    let pairs = pairs_of(turner.wave, turner.capacity, path);
    let paired = PairedWave {
        wave: turner.wave,
        pairs: &pairs,
    };
    match leaf {
        None => turn_kept(turner, &paired, above, columns),
        Some(worked) => turn_worked(turner, &paired, worked),
    }
}

// A turn at a leaf, at the end of a path of pairs. It is never inlined: what it keeps on the stack
// is there once, and not at each level of the tree.
#[inline(never)]
fn turn_in_place<R: Threads + Sync, G: Gate>(
    turner: &Turner<'_, R, G>,
    path: &Vec<OrderPair>,
    above: &OrderDuals,
    columns: &[Batch],
    branch: &mut Branch,
) -> Result<LeafTurn, Memory>
    requires path { IsPath turner.now.wave.now turner.now.capacity.most path.now.items }
    requires above { AreFeasibleDuals turner.now.wave.now
        (pairing_of turner.now.wave.now turner.now.capacity.most path.now.items) above.now }
    requires leaf { IsLeaf branch.old }
    requires branch { IsBranch turner.now.wave.now
        (pairing_of turner.now.wave.now turner.now.capacity.most path.now.items) (sum above.now)
        branch.old }
    requires least { least_of (units_of (sum above.now)) branch.old ≡ Some turner.now.least }
    ensures { IfOk result (IsTurned turner.now.wave.now
        (pairing_of turner.now.wave.now turner.now.capacity.most path.now.items)
        (sum above.now) turner.now.pays turner.now.least branch.old branch.new) }
{
    match branch {
        Branch::Leaf(leaf) => {
            let leaf = leaf.take();
            let turned = turn_leaf(turner, path, above, columns, leaf)?;
            *branch = turned.branch;
            Ok(turned.turn)
        }
        Branch::Dead(_) | Branch::Split(..) => unreachable!(),
    }
}

// The pair of a node that is split, to go together or apart.
fn pair_of(cut: &Cut, together: bool) -> OrderPair
    requires first { cut.now.first < 64 }
    requires second { cut.now.second < 64 }
    ensures { result ≡ record {
      first = cut.now.first;
      second = cut.now.second;
      together = together;
    } }
{
    OrderPair {
        first: cut.first as u8,
        second: cut.second as u8,
        together,
    }
}

// Keeps the least bound below a node that is split.
fn keep_least(cut: &mut Cut, together: &Branch, apart: &Branch)
    requires together { HasBound together.now }
    requires apart { HasBound apart.now }
    ensures { cut.new ≡ record {
      first = cut.old.first;
      second = cut.old.second;
      worked = cut.old.worked;
      least = lower_of (least_of (own_bound cut.old.worked) together.now)
          (least_of (own_bound cut.old.worked) apart.now);
    } }
{
    let above = cut.worked.own.duals.bound();
    cut.least = lower_bound(together.bound(above), apart.bound(above));
}

// Whether the first leaf with the least bound is below a node where its pair goes together.
fn is_together(cut: &Cut, together: &Branch, least: u64) -> bool
    requires { HasBound together.now }
    ensures { IsTrue result ↔ (least_of (own_bound cut.now.worked) together.now ≡ Some least) }
{
    together.bound(cut.worked.own.duals.bound()) == Some(least)
}

/// A turn at the first leaf of a subtree, in preorder, whose bound is the least. The subtree is at the end of a path of
/// pairs, below a node with these duals and columns; where the budget doesn't pay for a node, none gets duals of its
/// own. After `Memory`, which comes only where memory is wanting, nothing is said of the subtree.
#[cycle(turns)]
pub fn take_turn<R: Threads + Sync, G: Gate>(
    turner: &Turner<'_, R, G>,
    path: &mut Vec<OrderPair>,
    above: &OrderDuals,
    columns: &[Batch],
    branch: &mut Branch,
) -> Result<LeafTurn, Memory>
    requires path { IsPath turner.now.wave.now turner.now.capacity.most path.old.items }
    requires above { AreFeasibleDuals turner.now.wave.now
        (pairing_of turner.now.wave.now turner.now.capacity.most path.old.items) above.now }
    requires branch { IsBranch turner.now.wave.now
        (pairing_of turner.now.wave.now turner.now.capacity.most path.old.items) (sum above.now)
        branch.old }
    requires least { least_of (units_of (sum above.now)) branch.old ≡ Some turner.now.least }
    ensures turned { IfOk result (IsTurned turner.now.wave.now
        (pairing_of turner.now.wave.now turner.now.capacity.most path.old.items)
        (sum above.now) turner.now.pays turner.now.least branch.old branch.new) }
    ensures path { OnOk result (path.new.items ≡ path.old.items) }
{
    match branch {
        Branch::Split(cut, together, apart) => {
            if is_together(cut, together, turner.least) {
                let pair = pair_of(cut, true);
                let turn = take_turn_below(turner, path, pair, &cut.worked, together)?;
                keep_least(cut, together, apart);
                return Ok(turn);
            }
            let pair = pair_of(cut, false);
            let turn = take_turn_below(turner, path, pair, &cut.worked, apart)?;
            keep_least(cut, together, apart);
            Ok(turn)
        }
        Branch::Leaf(_) => turn_in_place(turner, path, above, columns, branch),
        Branch::Dead(_) => unreachable!(),
    }
}

// A turn in the subtree that is at the end of a path of pairs and one more, below a node with duals of its own.
#[cycle(turns)]
fn take_turn_below<R: Threads + Sync, G: Gate>(
    turner: &Turner<'_, R, G>,
    path: &mut Vec<OrderPair>,
    pair: OrderPair,
    worked: &Worked,
    branch: &mut Branch,
) -> Result<LeafTurn, Memory>
    requires path { IsPath turner.now.wave.now turner.now.capacity.most path.old.items }
    requires pair { AreUndecided (pairing_of turner.now.wave.now turner.now.capacity.most
        path.old.items) pair.first pair.second }
    requires worked { IsWorked turner.now.wave.now
        (pairing_of turner.now.wave.now turner.now.capacity.most path.old.items) 0 worked.now }
    requires branch { IsBranch turner.now.wave.now
        (pairing_of turner.now.wave.now turner.now.capacity.most (path.old.items ++ pair ∷ []))
        (sum worked.now.own.duals) branch.old }
    requires least { least_of (own_bound worked.now) branch.old ≡ Some turner.now.least }
    ensures turned { IfOk result (IsTurned turner.now.wave.now
        (pairing_of turner.now.wave.now turner.now.capacity.most (path.old.items ++ pair ∷ []))
        (sum worked.now.own.duals)
        turner.now.pays turner.now.least branch.old branch.new) }
    ensures path { OnOk result (path.new.items ≡ path.old.items) }
{
    path.push(pair)?;
    let columns = worked.columns.as_slice();
    let turn = take_turn(turner, path, &worked.own.duals, columns, branch)?;
    path.pop();
    Ok(turn)
}
