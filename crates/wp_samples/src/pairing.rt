ghost use Rattle.std.specs.Prelude.{◌≡◌, IfSome};

use wp_lengths::Wave;
use wp_pairs::Pairs;

/// Two orders, and whether they are to go together.
pub type PairRow = (u32, u32, bool);

// Adds a pair, where it is undecided, and tells whether it is decided then.
fn is_added(pairs: &mut Pairs, first: u32, second: u32, together: bool) -> bool
    ensures { pairs.new.cart ≡ pairs.old.cart }
{
    if first < second && second < pairs.orders() && !pairs.decided(first, second) {
        pairs.add(first, second, together);
        return pairs.decided(first, second);
    }
    false
}

// Adds the pairs, each of which has to be undecided then.
fn are_added(pairs: &mut Pairs, rows: &[PairRow]) -> bool
    ensures { pairs.new.cart ≡ pairs.old.cart }
{
    for (first, second, together) in rows {
        if !is_added(pairs, *first, *second, *together) {
            return false;
        }
    }
    true
}

/// The pairs of so many orders, with so many to a batch, where each of the rows can be added.
pub fn pairs_of(orders: u32, capacity: u32, rows: &[PairRow]) -> Option<Pairs> {
    let within = 1 <= orders && orders <= 64 && 1 <= capacity && capacity <= 8;
    if !within {
        return None;
    }
    let mut pairs = Pairs::new(orders, capacity);
    are_added(&mut pairs, rows).then_some(pairs)
}

/// The pairs of a wave with its cart, with so many to a batch, where each of the rows can be added.
pub fn pairs_for(wave: &Wave, capacity: u32, rows: &[PairRow]) -> Option<Pairs>
    ensures { IfSome result (λ pairs. pairs.cart ≡ wave.now.cart) }
{
    if capacity < 1 || 8 < capacity {
        return None;
    }
    let mut pairs = wave.pairs(capacity);
    are_added(&mut pairs, rows).then_some(pairs)
}
