ghost use Rattle.std.specs.Prelude.{◌≡◌, ◌≤◌, ◌↔◌, ◌^◌, IfOk};
ghost use Rattle.wp_cert.specs.Trees.{plain_tree};
ghost use Rattle.wp_search.specs.Branches.{nodes_of};
ghost use Rattle.wp_search.specs.Plans.{IsGoodPlan};
ghost use Rattle.wp_search.specs.declared.plan.State.TheVariants as state;

use crate::best::best_of;
use crate::branch::Branch;
use crate::listing::list_nodes;
use crate::plan::{Planned, State};
use crate::search::{SearchRoot, TreeSearch, search_on};
use std::alloc::Global;
use std::thread::Threads;
use wp_batch::start_after;
use wp_cert::{Nodes, Tree};
use wp_lengths::Wave;
use wp_model::Memory;
use wp_node::share_duals;
use wp_outside::Gate;
use wp_pairs::Capacity;
use wp_price::Workers;

/// How much of the budget makes one more round of moves.
const BUDGET_FOR_ONE: u64 = 500_000;

/// For how many orders there is one more round at most.
const ORDERS_FOR_ONE: u32 = 6;

// The state of a plan with this bound and this cost.
fn state_of(bound: u64, cost: u64) -> State
    ensures { (result ≡ state.Proven) ↔ (bound ≡ cost) }
{
    if bound == cost {
        State::Proven
    } else {
        State::Open
    }
}

// The tree of a subtree's nodes.
fn tree_of(alloc: Global, branch: Branch) -> Result<Tree, Memory>
    ensures { IfOk result (λ tree. tree ≡ plain_tree (nodes_of branch)) }
{
    let mut nodes = Vec::new(alloc);
    list_nodes(alloc, branch, &mut nodes)?;
    Ok(Tree::plain(Nodes::of(nodes)))
}

// The plan that a search found, whose tree has this bound.
fn plan_of(alloc: Global, search: TreeSearch, bound: u64) -> Result<Planned, Memory>
    ensures batching { IfOk result (λ planned. planned.batching ≡ search.best.batching) }
    ensures cost { IfOk result (λ planned. planned.cost ≡ search.best.cost) }
    ensures tree { IfOk result (λ planned. planned.tree ≡ plain_tree (nodes_of search.tree)) }
    ensures bound { IfOk result (λ planned. planned.bound ≡ bound) }
    ensures state { IfOk result (λ planned. (planned.state ≡ state.Proven)
        ↔ (bound ≡ search.best.cost)) }
{
    let best = search.best;
    let state = state_of(bound, best.cost);
    let tree = tree_of(alloc, search.tree)?;
    Ok(Planned {
        batching: best.batching,
        cost: best.cost,
        tree,
        bound,
        state,
    })
}

// In how many rounds moves are drawn for a start: one, and more the more the budget is, up to one for each six orders.
fn rounds_of(orders: u32, budget: u64) -> u32 {
    1 + (budget / BUDGET_FOR_ONE).min(u64::from(orders / ORDERS_FOR_ONE)) as u32
}

/// A good plan of a wave for a capacity, 1 to 8, and a budget, 0 to 10 ^ 18. The search is that of branch and price
/// (Ryan and Foster, 1981): of the leaves of its tree whose bound is the least the first takes a turn, until that bound
/// is the cost of the best batching, or the budget doesn't pay for the leaf's own duals. The workers, 1 to 16, and the
/// gate that they pass are handed to the pricing. `Memory` comes only where memory is wanting.
pub fn plan_wave<R: Threads + Sync, G: Gate>(
    rt: &R,
    alloc: Global,
    wave: &Wave,
    capacity: u32,
    budget: u64,
    workers: u32,
    gate: &G,
) -> Result<Planned, Memory>
    requires some { 1 ≤ capacity }
    requires most { capacity ≤ 8 }
    requires budget { budget ≤ 10 ^ 18 }
    requires some_workers { 1 ≤ workers }
    requires most_workers { workers ≤ 16 }
    ensures { IfOk result (IsGoodPlan wave.now capacity budget) }
{
    let workers = Workers {
        rt,
        alloc,
        number: workers,
        gate,
    };
    let shares = share_duals(alloc, wave, Capacity { most: capacity })?;
    let rounds = rounds_of(wave.orders(), budget);
    let batching = start_after(alloc, wave, capacity, rounds)?;
    let start = TreeSearch {
        tree: Branch::Leaf(None),
        best: best_of(wave, capacity, batching),
        budget,
        spent: 0,
    };
    let root = SearchRoot {
        wave,
        capacity: Capacity { most: capacity },
        shares: &shares,
    };
    let search = search_on(&workers, &root, start)?;
    let above = shares.bound();
    let bound = search.tree.bound(above).unwrap();
    plan_of(alloc, search, bound)
}
