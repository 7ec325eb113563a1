//! The way from the root of a tree to the node that is due, along which a check goes.
ghost use Rattle.std.specs.Prelude.{◌≡◌, ◌++◌, ◌∷◌, [], IfOk, OnOk, length};
ghost use Rattle.wp_cert.specs.Trees.{lower_of};
ghost use Rattle.wp_cert.specs.Ways.{GoesTo, LeavesTo};

use std::alloc::Global;
use wp_model::Memory;
use wp_pairs::OrderPair;

/// What a split on the way has shown: the net of its prices; and the bound of its first subtree, where the second is
/// due.
#[derive(Clone, Copy)]
pub struct Note {
    pub total: u128,
    pub first: Option<u128>,
}

/// The splits on the way from the root to the node that is due, each with its pair and with what it has shown. The
/// net above that node is `above`.
#[derive(Drop)]
pub struct SplitWay {
    pub path: Vec<OrderPair>,
    pub notes: Vec<Note>,
    pub above: u128,
}

/// What a node leads to.
#[derive(Clone, Copy)]
pub enum NodeStep {
    /// To its first subtree, where its pair goes together, below this net.
    Into(OrderPair, u128),
    /// Out of its subtree, which has this bound, or none where it is dead.
    Out(Option<u128>),
}

/// What the way leads to after a node.
#[derive(Clone, Copy)]
pub enum Met {
    /// To the node after it.
    Onward,
    /// To the end of the tree, which has this bound, or none where all of its leaves are dead.
    Whole(Option<u128>),
}

// The lower of the bounds of two subtrees.
fn lower_bound(left: Option<u128>, right: Option<u128>) -> Option<u128>
    ensures { result ≡ lower_of left right }
{
    match left {
        None => right,
        Some(left) => match right {
            None => Some(left),
            Some(right) => Some(left.min(right)),
        },
    }
}

impl SplitWay {
    /// The way to the root, above which this net stands.
    pub fn to_root(alloc: Global, above: u128) -> SplitWay
        ensures path { result.path.items ≡ [] }
        ensures notes { result.notes.items ≡ [] }
        ensures above { result.above ≡ above }
    {
        SplitWay {
            path: Vec::new(alloc),
            notes: Vec::new(alloc),
            above,
        }
    }

    // Adds a split whose subtree with this pair is due. After `Memory`, nothing is said of the way.
    fn add(&mut self, pair: OrderPair, note: Note) -> Result<(), Memory>
        ensures path { OnOk result (self.new.path.items ≡ self.old.path.items ++ pair ∷ []) }
        ensures notes { OnOk result (self.new.notes.items ≡ self.old.notes.items ++ note ∷ []) }
        ensures above { OnOk result (self.new.above ≡ note.total) }
    {
        self.path.push(pair)?;
        self.notes.push(note)?;
        self.above = note.total;
        Ok(())
    }

    // Leaves the subtree that is due, which has this bound, and with it each split whose second subtree it is.
    fn leave(&mut self, shown: Option<u128>) -> Result<Met, Memory>
        requires even { length self.old.path.items ≡ length self.old.notes.items }
        ensures { IfOk result (LeavesTo self.old shown self.new) }
    {
        let mut bound = shown;
        while let Some(pair) = self.path.pop() {
            let note = self.notes.pop().unwrap();
            if pair.together {
                let pair = OrderPair {
                    first: pair.first,
                    second: pair.second,
                    together: false,
                };
                let note = Note {
                    total: note.total,
                    first: bound,
                };
                self.add(pair, note)?;
                return Ok(Met::Onward);
            }
            bound = lower_bound(note.first, bound);
        }
        Ok(Met::Whole(bound))
    }

    /// Goes on from a node with what it leads to. `Memory` comes only where memory is wanting, and then nothing is said
    /// of the way.
    pub fn go_on(&mut self, step: NodeStep) -> Result<Met, Memory>
        requires even { length self.old.path.items ≡ length self.old.notes.items }
        ensures { IfOk result (GoesTo self.old step self.new) }
    {
        match step {
            NodeStep::Out(bound) => self.leave(bound),
            NodeStep::Into(pair, total) => {
                self.add(pair, Note { total, first: None })?;
                Ok(Met::Onward)
            }
        }
    }
}
