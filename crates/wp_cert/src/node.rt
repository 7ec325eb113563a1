ghost use Rattle.std.specs.Prelude.{◌≤◌, ◌∷◌, List, IfErr, IfOk, OnOk, Some, None, length};
ghost use Rattle.wp_cert.specs.declared.tree.Node.{Node as NodeData};
ghost use Rattle.wp_cert.specs.declared.tree.Node.TheVariants as node;
ghost use Rattle.wp_cert.specs.Paths.{ButForMemory, IsBrokenHere, IsPath, IsRightSplit, pairing_of};
ghost use Rattle.wp_cert.specs.Trees.{IsRight};

use crate::own::test_own;
use crate::path::{is_dead, is_open, pairs_of};
use crate::terms::CheckTerms;
use crate::tree::{CertWhy, Own};
use std::alloc::Global;
use wp_pairs::{Capacity, OrderPair};

/// Where a node is due in a tree: its terms and a capacity, the pairs of the path to the node, and the net above it.
#[derive(Clone, Copy)]
pub struct DueNode<'a> {
    pub terms: &'a CheckTerms<'a>,
    pub capacity: Capacity,
    pub path: &'a Vec<OrderPair>,
    pub above: u128,
    pub ghost is_path: { IsPath terms.now.wave capacity.most path.now.items },
}

/// Tests a leaf that isn't dead, and tells its bound.
pub fn test_leaf(alloc: Global, due: &DueNode<'_>, own: &Option<Own>) -> Result<u128, CertWhy>
    ensures ok { IfOk result (λ bound. (rest : List NodeData)
        → IsRight due.now.terms.now
        (pairing_of due.now.terms.now.wave due.now.capacity.most due.now.path.now.items) due.now.above
        (node.Leaf own.now ∷ rest) rest (Some bound)) }
    ensures err { IfErr result (ButForMemory (IsBrokenHere due.now.terms.now
        (pairing_of due.now.terms.now.wave due.now.capacity.most due.now.path.now.items) due.now.above
        (node.Leaf own.now))) }
{
    match own {
        None => Ok(due.terms.rounded(due.above)),
        Some(own) => {
            let pairs = pairs_of(due.terms.wave(), due.capacity, due.path);
            let net = test_own(alloc, due.terms, &pairs, own, due.above)?;
            Ok(due.terms.rounded(net))
        }
    }
}

/// Tests a dead leaf.
pub fn test_dead(due: &DueNode<'_>, order: u32) -> Result<(), CertWhy>
    ensures ok { OnOk result ((rest : List NodeData)
        → IsRight due.now.terms.now
        (pairing_of due.now.terms.now.wave due.now.capacity.most due.now.path.now.items) due.now.above
        (node.Dead order ∷ rest) rest None) }
    ensures err { IfErr result (IsBrokenHere due.now.terms.now
        (pairing_of due.now.terms.now.wave due.now.capacity.most due.now.path.now.items) due.now.above
        (node.Dead order)) }
{
    let pairs = pairs_of(due.terms.wave(), due.capacity, due.path);
    if !is_dead(&pairs, order) {
        return Err(CertWhy::NotDead(order));
    }
    Ok(())
}

/// Tests a split on two orders but for its subtrees, and tells the net of its prices.
pub fn test_split(
    alloc: Global,
    due: &DueNode<'_>,
    first: u32,
    second: u32,
    own: &Option<Own>,
) -> Result<u128, CertWhy>
    ensures few { OnOk result (length due.now.terms.now.wave.orders ≤ 64) }
    ensures ok { IfOk result (IsRightSplit due.now.terms.now
        (pairing_of due.now.terms.now.wave due.now.capacity.most due.now.path.now.items) due.now.above
        first second own.now) }
    ensures err { IfErr result (ButForMemory (IsBrokenHere due.now.terms.now
        (pairing_of due.now.terms.now.wave due.now.capacity.most due.now.path.now.items) due.now.above
        (node.Split first second own.now))) }
{
    match own {
        None => Err(CertWhy::SplitKept),
        Some(own) => {
            let pairs = pairs_of(due.terms.wave(), due.capacity, due.path);
            let net = test_own(alloc, due.terms, &pairs, own, due.above)?;
            if !is_open(&pairs, first, second) {
                return Err(CertWhy::BadPair);
            }
            Ok(net)
        }
    }
}
