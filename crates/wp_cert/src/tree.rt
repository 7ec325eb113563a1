ghost use Rattle.std.specs.Prelude.{◌≡◌, []};
ghost use Rattle.wp_cert.specs.Trees.{plain_tree};

use crate::nodes::Nodes;
use std::alloc::Global;
use std::marker::Model;
use wp_lengths::{Batching, Marks, Wave};
use wp_model::Listing;
use wp_pairs::Batch;

/// Duals, one for each order of a wave, in sixtieths of a unit of length. Contracts see the list.
pub type Duals = Listing<u64>;

/// Prices of cuts, in sixtieths of a unit of length, one beside each. Contracts see the list.
pub type CutPrices = Listing<u64>;

/// What a node has of its own: its duals, the marks that tell which permitted batches are visited to test them, and for
/// each order a permitted batch that holds it and pays its whole length; and what each batch pays besides its duals,
/// and the price of each cut.
#[derive(Drop)]
pub struct Own {
    pub duals: Duals,
    pub marks: Marks,
    pub tight: Batching,
    pub count: u64,
    pub prices: CutPrices,
}

impl Own {
    /// What a node has of its own where neither batches nor cuts have a price. It takes no memory.
    pub fn plain(alloc: Global, duals: Duals, marks: Marks, tight: Batching) -> Own
        ensures { result ≡ record { duals = duals; marks = marks; tight = tight; count = 0; prices = [] } }
    {
        Own {
            duals,
            marks,
            tight,
            count: 0,
            prices: Listing::of(Vec::new(alloc)),
        }
    }
}

/// A cut as it is written: a divisor, and orders with a part beside each. Contracts see the three. It may be none.
#[derive(Drop)]
pub struct WrittenCut {
    divisor: u32,
    orders: Listing<u32>,
    parts: Listing<u32>,
}

impl Model for WrittenCut {
    ghost use Rattle.wp_cuts.specs.Cuts.{CutParts};

    ghost Value = { CutParts };

    ghost view = { λ c. record { divisor = c.divisor; orders = c.orders; parts = c.parts } };
}

impl WrittenCut {
    /// A cut with this divisor, these orders, and the parts beside them. It takes no memory.
    pub fn of(divisor: u32, orders: Listing<u32>, parts: Listing<u32>) -> WrittenCut
        ensures { result ≡ record { divisor = divisor; orders = orders; parts = parts } }
    {
        WrittenCut {
            divisor,
            orders,
            parts,
        }
    }

    /// The divisor.
    pub fn divisor(&self) -> u32
        ensures { result ≡ self.now.divisor }
    {
        self.divisor
    }

    /// The orders.
    pub fn orders(&self) -> &[u32]
        ensures { result.now ≡ self.now.orders }
    {
        self.orders.as_slice()
    }

    /// The parts.
    pub fn parts(&self) -> &[u32]
        ensures { result.now ≡ self.now.parts }
    {
        self.parts.as_slice()
    }
}

/// Cuts as they are written. Contracts see the list.
pub type WrittenCuts = Listing<WrittenCut>;

/// A node of a tree: a leaf, which without duals of its own keeps its parent's; a split on a pair of orders, the lower
/// first, whose first child has them together and whose second has them apart; or a dead leaf, whose order no permitted
/// batch holds.
#[derive(Drop)]
pub enum Node {
    Leaf(Option<Own>),
    Split {
        first: u32,
        second: u32,
        own: Option<Own>,
    },
    Dead(u32),
}

/// A tree of nodes in preorder; of a split the child with the pair together comes first. A tree of the third form has
/// cuts, and be it none of them; then its nodes may price batches and cuts, and bounds are rounded up to the step of the
/// wave's layout. A tree of the first two forms has not.
#[derive(Drop)]
pub struct Tree {
    pub nodes: Nodes,
    pub cuts: Option<WrittenCuts>,
}

impl Tree {
    /// A tree of the first two forms.
    pub fn plain(nodes: Nodes) -> Tree
        ensures { result ≡ plain_tree nodes }
    {
        Tree { nodes, cuts: None }
    }
}

/// A wave, a capacity, and a tree that bounds the cost of every batching of the wave within the capacity.
#[derive(Drop)]
pub struct Certificate {
    pub wave: Wave,
    pub capacity: u32,
    pub tree: Tree,
}

/// Why a certificate is refused, and at which node, numbered from 0 in preorder.
#[derive(Clone, Copy)]
pub struct CertFault {
    pub node: u64,
    pub why: CertWhy,
}

/// Why a certificate is refused.
#[derive(Clone, Copy)]
pub enum CertWhy {
    NotJson,
    BadShape,
    OutOfRange,
    BadCuts,
    Cut,
    SplitKept,
    DualsLength,
    DecidedPrices,
    SumLow,
    NotFeasible(Batch),
    BadMarks,
    NotTight(u32),
    BadPair,
    NotDead(u32),
    Memory,
}
