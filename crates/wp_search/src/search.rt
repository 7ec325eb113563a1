ghost use Rattle.std.specs.Prelude.{◌≡◌, ◌+◌, ◌<◌, ◌≤◌, ◌⊎◌, ◌^◌, ℕ, Bool, IfOk, OnOk, Some, length, sum};
ghost use Rattle.wp_lengths.specs.Batchings.{no_pairs};
ghost use Rattle.wp_lengths.specs.Duals.{AreShares, units_of};
ghost use Rattle.wp_search.specs.Branches.{HasBound, IsBranch, bound_of as least_of};
ghost use Rattle.wp_node.specs.Prices.{price};
ghost use Rattle.wp_search.specs.Searches.{HasEnded, IsBest, IsOnward, IsSearch, KeepsBest};
ghost use Rattle.wp_search.specs.Turns.{IsRestFound, IsProper, IsTurned};

use crate::best::{BestBatching, best_of, cheaper_of};
use crate::branch::Branch;
use crate::turn::{LeafTurn, Turner, take_turn};
use std::thread::Threads;
use wp_lengths::{Batching, OrderDuals, Wave};
use wp_model::Memory;
use wp_node::{pays, price_of};
use wp_outside::Gate;
use wp_pairs::Capacity;
use wp_price::Workers;

/// What a search is over: a wave and a capacity, and the share duals, which stand above the root of its tree.
#[derive(Clone, Copy)]
pub struct SearchRoot<'a> {
    pub wave: &'a Wave,
    pub capacity: Capacity,
    pub shares: &'a OrderDuals,
}

/// A search for a plan: its tree, the best batching that it knows, what it may spend, and what it has spent.
#[derive(Drop)]
pub struct TreeSearch {
    pub tree: Branch,
    pub best: BestBatching,
    pub budget: u64,
    pub spent: u64,
}

/// A search after a turn, and whether it goes on.
#[derive(Drop)]
pub struct SearchStep {
    pub search: TreeSearch,
    pub goes_on: bool,
}

// A turn at the first leaf of the tree with the least bound.
fn turn_at_root<R: Threads + Sync, G: Gate>(
    turner: &Turner<'_, R, G>,
    shares: &OrderDuals,
    search: &mut TreeSearch,
) -> Result<LeafTurn, Memory>
    requires shares { AreShares turner.now.wave.now turner.now.capacity.most shares.now }
    requires tree { IsBranch turner.now.wave.now
        (no_pairs turner.now.wave.now turner.now.capacity.most) (sum shares.now) search.old.tree }
    requires bound { least_of (units_of (sum shares.now)) search.old.tree ≡ Some turner.now.least }
    ensures turned { IfOk result (IsTurned turner.now.wave.now
        (no_pairs turner.now.wave.now turner.now.capacity.most) (sum shares.now)
        turner.now.pays turner.now.least search.old.tree search.new.tree) }
    ensures best { OnOk result (search.new.best ≡ search.old.best) }
    ensures budget { OnOk result (search.new.budget ≡ search.old.budget) }
    ensures spent { OnOk result (search.new.spent ≡ search.old.spent) }
{
    let mut path = Vec::new(turner.workers.alloc);
    let columns = search.best.batching.as_slice();
    take_turn(turner, &mut path, shares, columns, &mut search.tree)
}

// A search after a node was paid for, at which a batching was found, or none.
fn paid(wave: &Wave, capacity: Capacity, search: TreeSearch, found: Option<Batching>) -> TreeSearch
    requires pays { search.spent + price (length wave.now.orders) capacity.most ≤ search.budget }
    requires best { IsBest wave.now capacity.most search.best }
    requires found { IsRestFound wave.now capacity.most found }
    ensures best { IsBest wave.now capacity.most result.best }
    ensures kept { KeepsBest search.best result.best }
    ensures tree { result.tree ≡ search.tree }
    ensures budget { result.budget ≡ search.budget }
    ensures spent { result.spent ≡ search.spent + price (length wave.now.orders) capacity.most }
{
    let spent = search.spent + price_of(wave.orders(), capacity) as u64;
    let best = cheaper_of(wave, capacity.most, search.best, found);
    TreeSearch {
        tree: search.tree,
        best,
        budget: search.budget,
        spent,
    }
}

// A search whose best batching is this.
fn settled(wave: &Wave, capacity: Capacity, search: TreeSearch, batching: Batching) -> TreeSearch
    requires { IsProper wave.now capacity.most batching }
    ensures best { IsBest wave.now capacity.most result.best }
    ensures same { result.best.batching ≡ batching }
    ensures tree { result.tree ≡ search.tree }
    ensures budget { result.budget ≡ search.budget }
    ensures spent { result.spent ≡ search.spent }
{
    TreeSearch {
        tree: search.tree,
        best: best_of(wave, capacity.most, batching),
        budget: search.budget,
        spent: search.spent,
    }
}

// A turn of the search, whose tree has this bound, which the best batching costs more than.
fn take_step<R: Threads + Sync, G: Gate>(
    workers: &Workers<'_, R, G>,
    root: &SearchRoot<'_>,
    mut search: TreeSearch,
    bound: u64,
) -> Result<SearchStep, Memory>
    requires shares { AreShares root.now.wave.now root.now.capacity.most root.now.shares.now }
    requires search { IsSearch root.now.wave.now root.now.capacity.most
        (sum root.now.shares.now) search }
    requires bound { least_of (units_of (sum root.now.shares.now)) search.tree ≡ Some bound }
    ensures onward { IfOk result (λ step. IsOnward root.now.wave.now root.now.capacity.most
        (sum root.now.shares.now) search step.search step.goes_on) }
    ensures kept { IfOk result (λ step. bound < search.best.cost
        → KeepsBest search.best step.search.best) }
{
    let SearchRoot {
        wave,
        capacity,
        shares,
    } = *root;
    let pays = pays(wave.orders(), capacity, search.budget - search.spent);
    let turner = Turner {
        workers,
        wave,
        capacity,
        least: bound,
        cost: search.best.cost,
        pays,
    };
    let turn = turn_at_root(&turner, shares, &mut search)?;
    Ok(match turn {
        LeafTurn::Worked(found) => SearchStep {
            search: paid(wave, capacity, search, found),
            goes_on: true,
        },
        LeafTurn::Onward => SearchStep {
            search,
            goes_on: true,
        },
        LeafTurn::Spent => SearchStep {
            search,
            goes_on: false,
        },
        LeafTurn::Settled(batching) => SearchStep {
            search: settled(wave, capacity, search, batching),
            goes_on: false,
        },
    })
}

/// Searches until the best batching costs the tree's bound, or the budget doesn't pay for a further node: of the leaves
/// whose bound is the least the first takes a turn. Above the root stand the share duals.
pub fn search_on<R: Threads + Sync, G: Gate>(
    workers: &Workers<'_, R, G>,
    root: &SearchRoot<'_>,
    start: TreeSearch,
) -> Result<TreeSearch, Memory>
    requires shares { AreShares root.now.wave.now root.now.capacity.most root.now.shares.now }
    requires start { IsSearch root.now.wave.now root.now.capacity.most
        (sum root.now.shares.now) start }
    ensures search { IfOk result (IsSearch root.now.wave.now root.now.capacity.most
        (sum root.now.shares.now)) }
    ensures budget { IfOk result (λ search. search.budget ≡ start.budget) }
    ensures ended { IfOk result (HasEnded root.now.wave.now root.now.capacity.most
        (sum root.now.shares.now)) }
    ensures kept { IfOk result (λ search. KeepsBest start.best search.best) }
{
    let _orders = root.wave.orders();
    let above = root.shares.bound();
    let mut search = start;
    loop {
        let bound = search.tree.bound(above).unwrap();
        if search.best.cost <= bound {
            return Ok(search);
        }
        let step = take_step(workers, root, search, bound)?;
        if !step.goes_on {
            return Ok(step.search);
        }
        search = step.search;
    }
}
