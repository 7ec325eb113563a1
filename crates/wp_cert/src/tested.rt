ghost use Rattle.std.specs.Prelude.{◌≡◌, length};

use crate::terms::CheckTerms;
use crate::tree::Own;
use wp_pairs::Pairs;

/// What a node has of its own, to be tested: the terms of the tree, the node's pairs for as many orders and the same
/// cart, a dual for each order, and a price for each cut.
#[derive(Clone, Copy)]
pub struct TestedOwn<'a> {
    pub terms: &'a CheckTerms<'a>,
    pub pairs: &'a Pairs,
    pub own: &'a Own,
    pub ghost as_many: { pairs.now.orders ≡ length terms.now.wave.orders },
    pub ghost same_cart: { pairs.now.cart ≡ terms.now.wave.cart },
    pub ghost count: { length own.now.duals ≡ pairs.now.orders },
}
