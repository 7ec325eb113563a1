ghost use Rattle.std.specs.Prelude.{◌≡◌, ◌≤◌, [], length};
ghost use Rattle.wp_lp.specs.Covers.{pairs_of};

use wp_lengths::Wave;
use wp_pairs::Pairs;

/// A wave and its pairs for a capacity, of which none is decided.
#[derive(Clone, Copy)]
pub(crate) struct OpenWave<'a> {
    pub(crate) wave: &'a Wave,
    pub(crate) pairs: &'a Pairs,
    pub(crate) ghost as_many: { pairs.now.orders ≡ length wave.now.orders },
    pub(crate) ghost same_cart: { pairs.now.cart ≡ wave.now.cart },
    pub(crate) ghost undecided: { pairs.now.pairs ≡ [] },
    pub(crate) ghost some: { 1 ≤ length wave.now.orders },
    pub(crate) ghost few: { length wave.now.orders ≤ 64 },
}

/// The pairs of a wave for a capacity.
pub(crate) fn pairs_for(wave: &Wave, capacity: u32) -> Pairs
    requires some { 1 ≤ capacity }
    requires most { capacity ≤ 8 }
    ensures is { result ≡ pairs_of wave.now capacity }
    ensures some_orders { 1 ≤ length wave.now.orders }
    ensures most_orders { length wave.now.orders ≤ 64 }
{
    let _orders = wave.orders();
    wave.pairs(capacity)
}
