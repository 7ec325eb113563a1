//! The bracket of a wave's linear bound, which begins with what the wave's plan has found.
ghost use Rattle.std.specs.Prelude.{◌≡◌, ℕ, IfOk, IfSome, length};
ghost use Rattle.wp_cert.specs.Trees.{IsBoundOf};
ghost use Rattle.wp_lengths.specs.Duals.{AreFeasible};
ghost use Rattle.wp_lengths.specs.Waves.{WavePicks};
ghost use Rattle.wp_lp.specs.Covers.{pairs_of};
ghost use Rattle.wp_search.specs.Plans.{IsGoodPlan, IsSoundPlan};
ghost use Rattle.wp_planner.specs.Roots.{IsBracketOf, IsRootFor, root_duals as root_duals_of, rounds_of};
ghost use Rattle.wp_planner.specs.Terms.{budget_of};

use crate::planner::Planning;
use crate::terms::Terms;
use std::alloc::Global;
use std::thread::Threads;
use wp_cert::{Node, Tree};
use wp_lengths::Wave;
use wp_lp::{Known, Root, root_after};
use wp_model::Memory;
use wp_node::price_of;
use wp_outside::OpenGate;
use wp_pairs::Capacity;
use wp_price::Workers;
use wp_search::Planned;

// How many rounds the budget pays for: one for each node with duals of its own for which it would.
fn rounds_for(wave: &Wave, terms: &Terms) -> u64
    ensures { result ≡ rounds_of wave.now terms.now }
{
    let price = price_of(wave.orders(), terms.capacity());
    (u128::from(terms.budget_for(wave.orders())) / price) as u64
}

// The duals of a tree's root, where it has its own.
fn root_duals(tree: &Tree) -> Option<&[u64]>
    ensures { IfSome result (λ duals. root_duals_of tree.now.nodes ≡ Some duals.now) }
{
    let Some(node) = tree.nodes.as_slice().first() else {
        return None;
    };
    match node {
        Node::Leaf(Some(own)) => Some(own.duals.as_slice()),
        Node::Split { own: Some(own), .. } => Some(own.duals.as_slice()),
        _ => None,
    }
}

// The duals of a right tree's root, where it has its own and the tree has no cuts: they are feasible.
fn known_duals(tree: &Tree) -> Option<&[u64]>
    ensures feasible { (wave : WavePicks) (capacity bound : ℕ)
        → IsBoundOf wave capacity tree.now bound
        → IfSome result (λ duals. AreFeasible wave (pairs_of wave capacity) duals.now) }
    ensures count { (wave : WavePicks) (capacity bound : ℕ)
        → IsBoundOf wave capacity tree.now bound
        → IfSome result (λ duals. length duals.now ≡ length wave.orders) }
{
    if tree.cuts.is_some() {
        return None;
    }
    root_duals(tree)
}

// The bracket of a wave that begins with a plan's batching and the duals of its tree's root.
fn bracket_after<R: Threads + Sync>(
    workers: &Workers<'_, R, OpenGate>,
    wave: &Wave,
    capacity: Capacity,
    rounds: u64,
    planned: &Planned,
) -> Result<Root, Memory>
    requires sound { IsSoundPlan wave.now capacity.most planned.now }
    ensures { IfOk result (IsBracketOf wave.now capacity.most rounds) }
{
    let known = Known {
        batches: planned.batching.as_slice(),
        cost: u128::from(planned.cost),
        duals: known_duals(&planned.tree),
    };
    let root = root_after(workers, wave, capacity.most, rounds, &known)?;
    Ok(root)
}

/// The bracket of a wave's linear bound, where the terms ask for one. It begins with the plan's batching and the duals
/// of its tree's root.
pub(crate) fn root_of<R: Threads + Sync, G>(
    planning: &Planning<'_, R, G>,
    alloc: Global,
    wave: &Wave,
    planned: &Planned,
) -> Result<Option<Root>, Memory>
    requires { IsGoodPlan wave.now planning.now.terms.now.capacity
        (budget_of (length wave.now.orders) planning.now.terms.now) planned.now }
    ensures { IfOk result (IsRootFor planning.now.terms.now wave.now) }
{
    let terms = planning.terms;
    if !terms.root() {
        return Ok(None);
    }
    let workers = Workers {
        rt: planning.rt,
        alloc,
        number: terms.workers(),
        gate: &OpenGate,
    };
    let capacity = terms.capacity();
    let rounds = rounds_for(wave, terms);
    let root = bracket_after(&workers, wave, capacity, rounds, planned)?;
    Ok(Some(root))
}
