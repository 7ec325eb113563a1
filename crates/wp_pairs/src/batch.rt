ghost use Rattle.std.specs.Prelude.{◌≡◌, ◌≢◌, ◌+◌, ◌≤◌, ◌<◌, ◌↔◌, ◌⊎◌, ℕ, [], IsTrue, Contains, false, length};
ghost use Rattle.std.specs.Prelude.{slice_get};
ghost use Rattle.wp_pairs.specs.Batches.{IsBatch};

use std::marker::Model;

/// How many orders a wave has at most. A batch is a set of places below it.
pub const MOST_ORDERS: u32 = 64;

/// A set of orders of one wave. An order is named by its place in the wave, 0 to 63. Contracts see the ascending list
/// of the places.
#[derive(Clone, Copy, PartialEq, Eq)]
pub struct Batch {
    word: u64,
}

impl Model for Batch {
    ghost use Rattle.std.specs.Prelude.{List, ℕ, ◌<◌, ◌^◌};

    ghost Value = { List ℕ };

    ghost use Rattle.wp_pairs.specs.Batches.{members, word_of};
    ghost use Rattle.wp_pairs.specs.Words.{word_of-members};

    ghost view = { λ b. members b.word };

    ghost invariant = { λ b. b.word < 2 ^ 64 };

    ghost inverse = { λ xs. record { word = word_of xs } };

    ghost inverse_ok = { λ b h i. record { word = word_of-members b.word h i } };
}

impl Batch {
    /// No order.
    pub fn empty() -> Batch
        ensures { result ≡ [] }
    {
        Batch { word: 0 }
    }

    /// The batch and one more order, which may be in it already.
    pub fn with(self, i: u32) -> Batch
        requires { i < 64 }
        ensures orders { (p : ℕ) → Contains result p ↔ (Contains self p ⊎ (p ≡ i)) }
        ensures valid { IsBatch result }
    {
        Batch {
            word: self.word | (1 << i),
        }
    }

    /// The batch without one order, which need not be in it.
    pub fn without(self, i: u32) -> Batch
        requires { i < 64 }
        ensures orders { (p : ℕ) → Contains result p ↔ (Contains self p × (p ≢ i)) }
        ensures valid { IsBatch result }
    {
        Batch {
            word: self.word & !(1 << i),
        }
    }

    /// Whether two batches have the same orders.
    pub fn is(self, other: Batch) -> bool
        ensures { IsTrue result ↔ (self ≡ other) }
    {
        self.word == other.word
    }

    /// Whether an order is in the batch. A number from 64 on is in none.
    pub fn has(self, i: u32) -> bool
        ensures exact { IsTrue result ↔ Contains self i }
        ensures valid { IsBatch self }
    {
        i < MOST_ORDERS && (self.word >> i) & 1 == 1
    }

    /// The number of orders in the batch, 0 to 64.
    pub fn len(self) -> u32
        ensures count { result ≡ length self }
        ensures valid { IsBatch self }
    {
        self.word.count_ones()
    }

    /// The least order of the batch. None comes exactly where it has none.
    pub fn least(self) -> Option<u32>
        ensures first { result ≡ slice_get self 0 }
        ensures valid { IsBatch self }
    {
        if self.word == 0 {
            return None;
        }
        Some(self.word.trailing_zeros())
    }

    /// Whether some order is in both batches.
    pub fn meets(self, other: Batch) -> bool
        ensures some { IsTrue result → (p : ℕ) × Contains self p × Contains other p }
        ensures none { result ≡ false → (p : ℕ) → Contains self p → Contains other p → ⊥ }
    {
        self.word & other.word != 0
    }

    /// The orders of both batches.
    pub fn union(self, other: Batch) -> Batch
        ensures orders { (p : ℕ) → Contains result p ↔ (Contains self p ⊎ Contains other p) }
        ensures count { length result ≤ length self + length other }
        ensures valid { IsBatch result }
    {
        Batch {
            word: self.word | other.word,
        }
    }
}

impl Batch {
    // Whether each order of the other batch is in this one.
    pub(crate) fn holds_all(self, other: Batch) -> bool
        ensures { IsTrue result ↔ ((p : ℕ) → Contains other p → Contains self p) }
    {
        self.word & other.word == other.word
    }
}
