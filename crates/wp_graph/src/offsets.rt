ghost use Rattle.std.specs.Prelude.{◌≡◌, ◌+◌, ◌<◌, ◌≤◌, ◌↔◌, IsTrue, All, length, replicate};
ghost use Rattle.wp_model.specs.Limits.{greatest_length, most_aisles};
ghost use Rattle.wp_model.specs.Warehouse.{IsUpTo};
ghost use Rattle.wp_graph.specs.Offsets.{offset};

use std::marker::Model;
use wp_model::MOST_AISLES;

/// How far each aisle lies from the first one, for at most 64 aisles. Contracts see the lengths between neighbours.
#[derive(Clone, Copy, PartialEq, Eq)]
pub(crate) struct Offsets {
    count: u32,
    words: [u32; 64],
}

impl Model for Offsets {
    ghost use Rattle.std.specs.Prelude.{◌+◌, List, ℕ, take, length};
    ghost use Rattle.std.proofs.Common.{sym};
    ghost use Rattle.wp_graph.specs.Offsets.{KeepsOffsets, differences, offset_words};

    ghost Value = { List ℕ };

    ghost view = { λ o. differences (take o.count o.words) };

    ghost invariant = { λ o. KeepsOffsets o.count o.words };

    ghost inverse = { λ spacings. record { count = length spacings + 1; words = offset_words spacings } };

    ghost inverse_ok = { λ a h i. record { count = sym h.count_is i; words = sym h.words_are i } };
}

fn zeros() -> [u32; 64]
    ensures { result ≡ replicate most_aisles 0 }
{
    [0; 64]
}

impl Offsets {
    /// The aisles with these lengths between neighbours.
    pub(crate) fn of(spacings: &[u32]) -> Offsets
        requires few { length spacings.now < most_aisles }
        requires ranges { All (IsUpTo greatest_length) spacings.now }
        ensures { result ≡ spacings.now }
    {
        let mut words = zeros();
        for index in 0..spacings.len() {
            words[index + 1] = words[index] + spacings[index];
        }
        Offsets {
            count: spacings.len() as u32 + 1,
            words,
        }
    }

    /// How far an aisle lies from the first one, at most 630,000.
    pub(crate) fn at(&self, aisle: u32) -> u32
        requires { IsUpTo (length self.now + 1) aisle }
        ensures value { result ≡ offset self.now aisle }
        ensures small { result ≤ 630000 }
    {
        self.words[aisle as usize - 1]
    }
}
