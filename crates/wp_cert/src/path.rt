ghost use Rattle.std.specs.Prelude.{◌≡◌, ◌<◌, ◌↔◌, ℕ, IsTrue, false};
ghost use Rattle.wp_pairs.specs.Permitted.{AreUndecided, IsDead};
ghost use Rattle.wp_cert.specs.Paths.{IsPath, pairing_of};
ghost use Rattle.wp_cert.specs.Trees.{IsDecided};

use wp_lengths::Wave;
use wp_pairs::{Batch, Capacity, OrderPair, Pairs};

/// The pairs of a path, added one after the other to those of a wave.
pub fn pairs_of(wave: &Wave, capacity: Capacity, path: &Vec<OrderPair>) -> Pairs
    requires { IsPath wave.now capacity.most path.now.items }
    ensures { result ≡ pairing_of wave.now capacity.most path.now.items }
{
    let mut pairs = wave.pairs(capacity.most);
    for k in 0..path.len() {
        let pair = path[k];
        pairs.add(u32::from(pair.first), u32::from(pair.second), pair.together);
    }
    pairs
}

/// Whether two numbers are orders of the wave, the lower first, of which the pairs don't tell whether they go together.
pub fn is_open(pairs: &Pairs, first: u32, second: u32) -> bool
    ensures { IsTrue result ↔ AreUndecided pairs.now first second }
{
    if second <= first || pairs.orders() <= second {
        return false;
    }
    !pairs.decided(first, second)
}

/// Whether a number is an order of the wave that no permitted batch has.
pub fn is_dead(pairs: &Pairs, order: u32) -> bool
    ensures { IsTrue result ↔ IsDead pairs.now order }
{
    if pairs.orders() <= order {
        return false;
    }
    !pairs.permits(Batch::empty().union(pairs.joined_to(order)))
}

// Whether the pairs don't tell of some later order whether it goes together with this one.
fn is_open_with(pairs: &Pairs, first: u32) -> bool
    ensures yes { IsTrue result → (second : ℕ) × AreUndecided pairs.now first second }
    ensures no { result ≡ false → (second : ℕ) → AreUndecided pairs.now first second → ⊥ }
{
    for second in 0..pairs.orders() {
        if is_open(pairs, first, second) {
            return true;
        }
    }
    false
}

/// Whether there are two orders of which the pairs don't tell whether they go together.
pub fn has_open(pairs: &Pairs) -> bool
    ensures yes { IsTrue result → IsDecided pairs.now → ⊥ }
    ensures no { result ≡ false → IsDecided pairs.now }
{
    for first in 0..pairs.orders() {
        if is_open_with(pairs, first) {
            return true;
        }
    }
    false
}
