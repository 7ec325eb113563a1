ghost use Rattle.std.specs.Prelude.{◌≡◌, ◌+◌, ◌++◌, ◌∷◌, [], OnOk, Some, length};
ghost use Rattle.wp_cert.specs.declared.tree.Node.TheVariants as node;
ghost use Rattle.wp_node.specs.Owns.{as_own};
ghost use Rattle.wp_search.specs.Branches.{nodes_of, stacked_nodes};
ghost use Rattle.wp_search.specs.declared.branch.Branch.TheVariants as branches;

use crate::branch::{Branch, Cut};
use std::alloc::Global;
use wp_cert::Node;
use wp_model::Memory;
use wp_node::Worked;

// The node of a leaf.
fn leaf_node(alloc: Global, leaf: Option<Worked>) -> Node
    ensures { nodes_of (branches.Leaf leaf) ≡ result ∷ [] }
{
    match leaf {
        None => Node::Leaf(None),
        Some(worked) => Node::Leaf(Some(worked.own.into_own(alloc))),
    }
}

// The node of a split.
fn split_node(alloc: Global, cut: Cut) -> Node
    ensures { result ≡ node.Split cut.first cut.second (Some (as_own cut.worked.own)) }
{
    let Cut {
        first,
        second,
        worked,
        ..
    } = cut;
    Node::Split {
        first,
        second,
        own: Some(worked.own.into_own(alloc)),
    }
}

// Takes a subtree apart: its node goes behind others, and the subtrees below it onto those that are
// left, the one with the pair together on top.
fn list_top(
    alloc: Global,
    branch: Branch,
    left: &mut Vec<Branch>,
    nodes: &mut Vec<Node>,
) -> Result<(), Memory>
    ensures listed { OnOk result (nodes.new.items ++ stacked_nodes left.new.items ≡ nodes.old.items
        ++ (nodes_of branch ++ stacked_nodes left.old.items)) }
    ensures one { OnOk result (length nodes.new.items ≡ length nodes.old.items + 1) }
{
    match branch {
        Branch::Leaf(leaf) => nodes.push(leaf_node(alloc, leaf))?,
        Branch::Dead(order) => nodes.push(Node::Dead(order))?,
        Branch::Split(cut, together, apart) => {
            nodes.push(split_node(alloc, cut))?;
            left.push(Box::into_inner(apart))?;
            left.push(Box::into_inner(together))?;
        }
    }
    Ok(())
}

/// Lists the nodes of a subtree in preorder, behind others. `Memory` comes only where memory is wanting.
pub fn list_nodes(alloc: Global, branch: Branch, nodes: &mut Vec<Node>) -> Result<(), Memory>
    ensures { OnOk result (nodes.new.items ≡ nodes.old.items ++ nodes_of branch) }
{
    let mut left = Vec::new(alloc);
    left.push(branch)?;
    while let Some(top) = left.pop() {
        list_top(alloc, top, &mut left, nodes)?;
    }
    Ok(())
}
