ghost use Rattle.std.specs.Prelude.{◌≡◌};
ghost use Rattle.wp_search.specs.Branches.{HasBound, bound_of as least_of};
ghost use Rattle.wp_cert.specs.Trees.{lower_of};

use wp_node::Worked;

/// A subtree of the search.
#[derive(Drop)]
pub enum Branch {
    /// A leaf: it keeps the duals of the node above, or has duals of its own.
    Leaf(Option<Worked>),
    /// A leaf with an order that no permitted batch has.
    Dead(u32),
    /// A node that is split, with the subtree in which its pair goes together and the one in which it goes apart.
    Split(Cut, Box<Branch>, Box<Branch>),
}

/// A node that is split on a pair of orders, the lower first: what it has of its own, and the least bound below it, in
/// units of length, which it has not where all leaves below it are dead.
#[derive(Drop)]
pub struct Cut {
    pub first: u32,
    pub second: u32,
    pub worked: Worked,
    pub least: Option<u64>,
}

/// The lower of the bounds of two subtrees.
pub fn lower_bound(left: Option<u64>, right: Option<u64>) -> Option<u64>
    ensures { result ≡ lower_of left right }
{
    match (left, right) {
        (None, bound) => bound,
        (bound, None) => bound,
        (Some(left), Some(right)) => Some(left.min(right)),
    }
}

impl Branch {
    /// The least bound of its leaves that aren't dead, in units of length, where the duals of the node above give this
    /// bound. None comes exactly where all leaves are dead.
    pub fn bound(&self, above: u64) -> Option<u64>
        requires { HasBound self.now }
        ensures { result ≡ least_of above self.now }
    {
        match self {
            Branch::Leaf(None) => Some(above),
            Branch::Leaf(Some(worked)) => Some(worked.own.duals.bound()),
            Branch::Dead(_) => None,
            Branch::Split(cut, _, _) => cut.least,
        }
    }
}
