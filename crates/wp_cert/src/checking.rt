ghost use Rattle.std.specs.Prelude.{◌≡◌, ◌+◌, ◌<◌, ◌≤◌, [], ℕ, IfErr, IfOk, Some, drop, length};
ghost use Rattle.wp_lengths.specs.Waves.{IsWave};
ghost use Rattle.wp_cert.specs.declared.tree.CertWhy.TheVariants as why;
ghost use Rattle.wp_cert.specs.Bounds.{NoBatchingCostsLess};
ghost use Rattle.wp_cert.specs.Paths.{ButForMemory, IsBrokenHere, IsPath, IsRefusedFrom, IsRefusedWhole, pairing_of};
ghost use Rattle.wp_cert.specs.Refusals.{IsFirstBroken};
ghost use Rattle.wp_cert.specs.Terms.{AreCuts, AreTermsFor, cuts_in, terms_of};
ghost use Rattle.wp_cert.specs.Trees.{IsBoundOf, IsRight};
ghost use Rattle.wp_cert.specs.Ways.{IsMet, IsStep, IsWay};

use crate::cuts::cuts_of;
use crate::node::{DueNode, test_dead, test_leaf, test_split};
use crate::nodes::Nodes;
use crate::terms::CheckTerms;
use crate::tree::{CertFault, CertWhy, Node, Tree, WrittenCuts};
use crate::way::{Met, NodeStep, SplitWay};
use std::alloc::Global;
use wp_cuts::{CutTable, least_batches, step_of};
use wp_lengths::{Wave, shares_of};
use wp_pairs::{Capacity, OrderPair};

/// What a tree shows: its bound, which it has not where all of its leaves are dead; and the place of the node after it.
#[derive(Clone, Copy)]
struct Shown {
    bound: Option<u128>,
    next: u64,
}

/// The nodes of a tree that is checked on its terms for a capacity.
#[derive(Clone, Copy)]
struct CheckedNodes<'a> {
    terms: &'a CheckTerms<'a>,
    capacity: Capacity,
    nodes: &'a Nodes,
}

// A fault at a node.
fn fault_at(at: u64, why: CertWhy) -> CertFault
    ensures node { result.node ≡ at }
    ensures why { result.why ≡ why }
{
    CertFault { node: at, why }
}

// Tests a node, whose subtrees aren't looked at, and tells what it leads to.
fn test_node(alloc: Global, due: &DueNode<'_>, node: &Node) -> Result<NodeStep, CertWhy>
    ensures ok { IfOk result (IsStep due.now.terms.now
        (pairing_of due.now.terms.now.wave due.now.capacity.most due.now.path.now.items) due.now.above
        node.now) }
    ensures err { IfErr result (ButForMemory (IsBrokenHere due.now.terms.now
        (pairing_of due.now.terms.now.wave due.now.capacity.most due.now.path.now.items) due.now.above
        node.now)) }
{
    match node {
        Node::Leaf(own) => {
            let bound = test_leaf(alloc, due, own)?;
            Ok(NodeStep::Out(Some(bound)))
        }
        Node::Dead(order) => {
            test_dead(due, *order)?;
            Ok(NodeStep::Out(None))
        }
        Node::Split { first, second, own } => {
            let total = test_split(alloc, due, *first, *second, own)?;
            let pair = OrderPair {
                first: *first as u8,
                second: *second as u8,
                together: true,
            };
            Ok(NodeStep::Into(pair, total))
        }
    }
}

// Tests the node that is due, and goes on from it. After an error nothing is said of the way.
fn check_node(
    alloc: Global,
    tree: &CheckedNodes<'_>,
    way: &mut SplitWay,
    at: u64,
) -> Result<Met, CertFault>
    requires at { at < length tree.now.nodes.now }
    requires path { IsPath tree.now.terms.now.wave tree.now.capacity.most way.old.path.items }
    requires even { length way.old.path.items ≡ length way.old.notes.items }
    ensures ok { IfOk result (λ met. (shares : ℕ)
        → IsWay tree.now.terms.now tree.now.capacity.most tree.now.nodes.now shares
        way.old.path.items way.old.notes.items way.old.above at
        → IsMet tree.now.terms.now tree.now.capacity.most tree.now.nodes.now shares (at + 1)
        way.new met) }
    ensures err { IfErr result (IsRefusedFrom tree.now.terms.now
        (pairing_of tree.now.terms.now.wave tree.now.capacity.most way.old.path.items) way.old.above
        tree.now.nodes.now at) }
{
    let due = DueNode {
        terms: tree.terms,
        capacity: tree.capacity,
        path: &way.path,
        above: way.above,
    };
    let gone = match test_node(alloc, &due, tree.nodes.at(at)) {
        Ok(step) => way.go_on(step),
        Err(why) => return Err(fault_at(at, why)),
    };
    match gone {
        Ok(met) => Ok(met),
        Err(_) => Err(fault_at(at, CertWhy::Memory)),
    }
}

// Checks the tree at the root, above which this net stands, node by node.
fn check_root(alloc: Global, tree: &CheckedNodes<'_>, above: u128) -> Result<Shown, CertFault>
    ensures ok { IfOk result (λ shown. IsRight tree.now.terms.now
        (pairing_of tree.now.terms.now.wave tree.now.capacity.most []) above tree.now.nodes.now
        (drop shown.next tree.now.nodes.now) shown.bound) }
    ensures err { IfErr result (IsRefusedFrom tree.now.terms.now
        (pairing_of tree.now.terms.now.wave tree.now.capacity.most []) above tree.now.nodes.now 0) }
{
    let mut way = SplitWay::to_root(alloc, above);
    for at in 0..tree.nodes.len() {
        if let Met::Whole(bound) = check_node(alloc, tree, &mut way, at)? {
            return Ok(Shown {
                bound,
                next: at + 1,
            });
        }
    }
    Err(fault_at(tree.nodes.len(), CertWhy::Cut))
}

// The terms of a tree with such cuts, or without cuts.
fn terms_with<'a>(
    wave: &'a Wave,
    capacity: Capacity,
    given: &Option<WrittenCuts>,
    table: &'a CutTable<'a>,
) -> CheckTerms<'a>
    requires value { table.now ≡ cuts_in given.now }
    requires valid { AreCuts (length wave.now.orders) (cuts_in given.now) }
    ensures right { AreTermsFor wave.now given.now result.step }
    ensures terms { result ≡ terms_of wave.now capacity.most given.now result.step }
{
    let _orders = wave.orders();
    match given {
        None => CheckTerms::of(wave, 1, table, 0),
        Some(_) => CheckTerms::of(
            wave,
            step_of(&wave.layout()),
            table,
            least_batches(wave, capacity),
        ),
    }
}

// Checks the nodes of a whole tree, above which stand duals that come to this, and tells its bound.
fn check_nodes(alloc: Global, tree: &CheckedNodes<'_>, above: u128) -> Result<u64, CertFault>
    requires valid { IsWave tree.now.terms.now.wave }
    requires some { 1 ≤ tree.now.capacity.most }
    ensures ok { IfOk result (λ bound. IsRight tree.now.terms.now
        (pairing_of tree.now.terms.now.wave tree.now.capacity.most []) above tree.now.nodes.now []
        (Some bound)) }
    ensures err { IfErr result (IsRefusedWhole tree.now.terms.now
        (pairing_of tree.now.terms.now.wave tree.now.capacity.most []) above tree.now.nodes.now) }
{
    let shown = check_root(alloc, tree, above)?;
    if shown.next < tree.nodes.len() {
        return Err(fault_at(shown.next, CertWhy::Cut));
    }
    match u64::try_from(shown.bound.unwrap()) {
        Ok(bound) => Ok(bound),
        Err(_) => Err(fault_at(shown.next, CertWhy::Memory)),
    }
}

/// Checks a tree for a wave and a capacity, 1 to 8, and tells its bound, the least over its leaves that aren't dead: no
/// batching of the wave within the capacity costs less. Otherwise the first broken rule is told: at node 0 that the
/// tree's cuts aren't cuts of the wave's orders, or more than 64; then in preorder of the nodes and within a node in the
/// order of its tests, with the number of the node; where the list of nodes is cut, with their number, and where nodes
/// are left after the tree is whole, with the number of the first of them. `Memory` is answered where memory runs out,
/// or a bound doesn't fit a u64. The method is branch and price (Ryan and Foster, 1981).
pub fn check(alloc: Global, wave: &Wave, capacity: u32, tree: &Tree) -> Result<u64, CertFault>
    requires some { 1 ≤ capacity }
    requires most { capacity ≤ 8 }
    ensures right { IfOk result (IsBoundOf wave.now capacity tree.now) }
    ensures bound { IfOk result (NoBatchingCostsLess wave.now capacity) }
    ensures refused { IfErr result (λ fault. (fault.why ≡ why.Memory → ⊥)
        → IsFirstBroken wave.now capacity tree.now fault) }
{
    let capacity = Capacity { most: capacity };
    let cuts = match cuts_of(alloc, wave.orders(), &tree.cuts) {
        Ok(cuts) => cuts,
        Err(why) => return Err(fault_at(0, why)),
    };
    let Ok(table) = CutTable::of(alloc, &cuts) else {
        return Err(fault_at(0, CertWhy::Memory));
    };
    let terms = terms_with(wave, capacity, &tree.cuts, &table);
    let checked = CheckedNodes {
        terms: &terms,
        capacity,
        nodes: &tree.nodes,
    };
    check_nodes(alloc, &checked, shares_of(wave, capacity))
}
