ghost use Rattle.std.specs.Prelude.{◌≡◌, ◌≤◌, length};
ghost use Rattle.wp_turn.specs.Calls.{IsAmong};
ghost use Rattle.wp_turn.specs.Promises.{own_calls, seen_by};
ghost use Rattle.wp_turn.specs.Rule.{most_callers};

use crate::turned::Turned;
use crate::view::View;
use atomic_table::Seat;
use std::marker::Model;

/// The right of one caller to make calls, and what it has seen of the history. Contracts see its turn, its own caller
/// number, the callers that it stands for, and the calls that it has seen.
#[derive(Drop)]
pub struct Pass<V: Turned> {
    pub(crate) seat: Seat<V, View<V, V::Entry>>,
    pub(crate) caller: u32,
    pub(crate) seen: u64,
    pub(crate) stands: u32,
    pub(crate) made: u32,
}

impl<V: Turned> Model for Pass<V> {
    ghost use Rattle.wp_turn.specs.Promises.{Known};

    ghost Value = { Known V V.Entry };

    ghost use Rattle.wp_turn.specs.Rests.{known_by};

    ghost view = { λ p. known_by p.seat.table_id p.seat.me.0 p.caller };

    ghost use Rattle.wp_turn.specs.Rests.{Rests};

    ghost invariant = { λ p. Rests V.entries p.seat.me p.caller p.seen p.stands p.made };
}

impl<V: Turned> Pass<V> {
    /// Its own caller number, 1 to the number of passes made at the opening.
    pub fn caller(&self) -> u32
        ensures number { result ≡ self.now.caller }
        ensures own { IsAmong self.now.caller self.now.callers }
    {
        self.caller
    }

    /// How many entries it has seen.
    pub fn seen(&self) -> u64
        ensures { result ≡ length (seen_by V.entries self.now) }
    {
        self.seen
    }

    /// For how many callers it stands: 1 at the opening, and at most 64.
    pub fn stands_for(&self) -> u32
        ensures callers { result ≡ length self.now.callers }
        ensures few { result ≤ most_callers }
    {
        self.stands
    }

    /// How many calls its own caller made since the opening.
    pub fn made(&self) -> u32
        ensures { result ≡ length (own_calls self.now) }
    {
        self.made
    }
}
