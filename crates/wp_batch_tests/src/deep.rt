//! A tree as deep as a search's can be is listed by a loop.

use std::alloc::Global;
use wp_cert::Node;
use wp_lengths::{Batching, Marks, OrderDuals};
use wp_node::{NodeOwn, Worked};
use wp_search::{Branch, Cut, list_nodes};

/// How many splits stand below each other: one for each pair of 64 orders.
const SPLITS: u32 = 2016;

/// What kind a node is of, and its number.
#[derive(Clone, Copy, PartialEq, Eq)]
enum Kind {
    Split(u32),
    Dead(u32),
    Leaf,
}

fn kind_of(node: &Node) -> Kind {
    match node {
        Node::Split { first, .. } => Kind::Split(*first),
        Node::Dead(order) => Kind::Dead(*order),
        Node::Leaf(_) => Kind::Leaf,
    }
}

/// What a node has of its own that nobody worked at.
fn unworked(alloc: Global) -> Worked {
    Worked {
        own: NodeOwn {
            duals: OrderDuals::of(Vec::new(alloc)),
            marks: Marks::new(alloc),
            tight: Batching::of(Vec::new(alloc)),
        },
        columns: Vec::new(alloc),
        weighted: Vec::new(alloc),
        whole: Vec::new(alloc),
    }
}

/// Whether the splits go on where the pair of the split of this number goes together: below every
/// second one they do.
fn goes_on_together(number: u32) -> bool {
    number % 2 == 0
}

/// The split of a number above a subtree, beside which stands a dead leaf of that number.
fn split_above(alloc: Global, number: u32, below: Branch) -> Option<Branch> {
    let below = Box::new(alloc, below).ok()?;
    let beside = Box::new(alloc, Branch::Dead(number)).ok()?;
    let cut = Cut {
        first: number,
        second: number,
        worked: unworked(alloc),
        least: None,
    };
    if goes_on_together(number) {
        return Some(Branch::Split(cut, below, beside));
    }
    Some(Branch::Split(cut, beside, below))
}

/// The splits of the numbers from 1, each below the one before; below the last is a leaf.
fn deep_branch(alloc: Global) -> Option<Branch> {
    let mut branch = Branch::Leaf(None);
    for number in (1..SPLITS + 1).rev() {
        branch = split_above(alloc, number, branch)?;
    }
    Some(branch)
}

/// On the way down come the splits, and the dead leaves where the pair goes together.
fn list_down(all: &mut Vec<Kind>) -> Option<()> {
    for number in 1..SPLITS + 1 {
        all.push(Kind::Split(number)).ok()?;
        if !goes_on_together(number) {
            all.push(Kind::Dead(number)).ok()?;
        }
    }
    Some(())
}

/// On the way up come the dead leaves where the pair goes apart.
fn list_up(all: &mut Vec<Kind>) -> Option<()> {
    for number in (1..SPLITS + 1).rev() {
        if goes_on_together(number) {
            all.push(Kind::Dead(number)).ok()?;
        }
    }
    Some(())
}

/// The nodes of the deep branch in preorder.
fn expected(alloc: Global) -> Option<Vec<Kind>> {
    let mut all = Vec::new(alloc);
    list_down(&mut all)?;
    all.push(Kind::Leaf).ok()?;
    list_up(&mut all)?;
    Some(all)
}

/// How many nodes are what is expected in their places, up to the first that isn't.
fn right_until(nodes: &[Node], expected: &[Kind]) -> usize {
    nodes
        .iter()
        .zip(expected)
        .take_while(|pair| kind_of(pair.0) == *pair.1)
        .count()
}

/// How many nodes the listing of the deep branch has, and how many of them, from the first on, are what
/// is expected.
fn listed(alloc: Global) -> Option<(usize, usize)> {
    let expected = expected(alloc)?;
    let mut nodes = Vec::new(alloc);
    list_nodes(alloc, deep_branch(alloc)?, &mut nodes).ok()?;
    Some((
        nodes.len(),
        right_until(nodes.as_slice(), expected.as_slice()),
    ))
}

#[test]
fn a_deep_tree_is_listed_in_preorder(rt: HostRuntime) {
    assert_eq!(rt; listed(rt.alloc()), Some((4033, 4033)));
}
