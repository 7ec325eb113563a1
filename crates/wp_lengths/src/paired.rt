ghost use Rattle.std.specs.Prelude.{◌≡◌, ◌≤◌, length};

use crate::duals::OrderDuals;
use crate::wave::Wave;
use wp_pairs::Pairs;

/// A wave, which has 1 to 64 orders, and pairs for as many and the same cart.
#[derive(Clone, Copy)]
pub struct PairedWave<'a> {
    pub wave: &'a Wave,
    pub pairs: &'a Pairs,
    pub ghost as_many: { pairs.now.orders ≡ length wave.now.orders },
    pub ghost same_cart: { pairs.now.cart ≡ wave.now.cart },
    pub ghost some: { 1 ≤ length wave.now.orders },
    pub ghost few: { length wave.now.orders ≤ 64 },
}

impl<'a> PairedWave<'a> {
    /// A wave with pairs for its orders and its cart.
    pub fn of(wave: &'a Wave, pairs: &'a Pairs) -> PairedWave<'a>
        requires as_many { pairs.now.orders ≡ length wave.now.orders }
        requires same_cart { pairs.now.cart ≡ wave.now.cart }
        ensures wave { result.wave.now ≡ wave.now }
        ensures pairs { result.pairs.now ≡ pairs.now }
    {
        let _orders = wave.orders();
        PairedWave { wave, pairs }
    }
}

/// A wave, pairs for its orders and its cart, and a dual for each order.
#[derive(Clone, Copy)]
pub struct DualWave<'a> {
    pub wave: &'a Wave,
    pub pairs: &'a Pairs,
    pub duals: &'a OrderDuals,
    pub ghost as_many: { pairs.now.orders ≡ length wave.now.orders },
    pub ghost same_cart: { pairs.now.cart ≡ wave.now.cart },
    pub ghost count: { length duals.now ≡ length wave.now.orders },
}
