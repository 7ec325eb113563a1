ghost use Rattle.std.specs.Prelude.{◌≡◌, ◌<◌, Some, length, slice_get};

use crate::tree::Node;
use std::marker::Model;

/// Nodes of a tree, in preorder. Contracts see the list.
#[derive(Drop)]
pub struct Nodes {
    items: Vec<Node>,
}

impl Model for Nodes {
    ghost use Rattle.std.specs.Prelude.{List};
    ghost use Rattle.wp_cert.specs.declared.tree.Node.{Node};

    ghost Value = { List Node };

    ghost view = { λ n. n.items.items };
}

impl Nodes {
    /// The list of these nodes, in order. It takes no memory.
    pub fn of(items: Vec<Node>) -> Nodes
        ensures { result ≡ items.items }
    {
        Nodes { items }
    }

    /// How many nodes there are.
    pub fn len(&self) -> u64
        ensures { result ≡ length self.now }
    {
        self.items.len() as u64
    }

    /// The node at a place, counted from 0.
    pub fn at(&self, i: u64) -> &Node
        requires { i < length self.now }
        ensures { slice_get self.now i ≡ Some result.now }
    {
        &self.items[i as usize]
    }

    /// The nodes as a slice.
    pub fn as_slice(&self) -> &[Node]
        ensures { result.now ≡ self.now }
    {
        self.items.as_slice()
    }
}
