ghost use Rattle.std.specs.Prelude.{◌≡◌, ◌<◌, ◌≤◌, ◌++◌, ◌∷◌, [], length, vec_capacity, option_to_list};
ghost use Rattle.wp_turn.specs.Promises.{given_by};
ghost use Rattle.wp_turn.specs.Rule.{most_callers};

use crate::pass::Pass;
use crate::turned::Turned;
use std::marker::Model;

/// A list of passes, which an opening alone makes. It has room for as many as were made at that opening. Contracts see
/// the list and that number. No call takes memory.
#[derive(Drop)]
pub struct Passes<V: Turned> {
    list: Vec<Pass<V>>,
    room: u32,
}

impl<V: Turned> Model for Passes<V> {
    ghost use Rattle.std.specs.Prelude.{◌≤◌, length, vec_capacity};
    ghost use Rattle.wp_turn.specs.Promises.{Row};
    ghost use Rattle.wp_turn.specs.Rule.{most_callers};

    ghost Value = { Row V V.Entry };

    ghost view = { λ p. record { list = p.list.items; room = p.room } };

    ghost invariant = { λ p. (length p.list.items ≤ p.room) × (p.room ≤ vec_capacity p.list)
        × (p.room ≤ most_callers) };
}

impl<V: Turned> Passes<V> {
    pub(crate) fn of(list: Vec<Pass<V>>, room: u32) -> Passes<V>
        requires fits { length list.items ≤ room }
        requires room { (room ≤ vec_capacity list) × (room ≤ most_callers) }
        ensures list { result.list ≡ list.items }
        ensures room { result.room ≡ room }
    {
        Passes { list, room }
    }

    // For how many callers the passes stand together.
    pub(crate) fn given(&self) -> u32
        ensures { result ≡ given_by self.now.list }
    {
        let mut given = 0;
        for pass in &self.list {
            given += pass.stands_for();
        }
        given
    }

    /// How many passes are in the list.
    pub fn len(&self) -> u32
        ensures { result ≡ length self.now.list }
    {
        self.list.len() as u32
    }

    /// How many passes were made at the opening.
    pub fn room(&self) -> u32
        ensures room { result ≡ self.now.room }
        ensures few { result ≤ most_callers }
        ensures fits { length self.now.list ≤ result }
    {
        self.room
    }

    /// Takes out the first pass; none exactly where the list is empty.
    pub fn next(&mut self) -> Option<Pass<V>>
        ensures list { self.old.list ≡ option_to_list result ++ self.new.list }
        ensures none { result ≡ None → self.old.list ≡ [] }
        ensures room { self.new.room ≡ self.old.room }
    {
        if self.list.is_empty() {
            return None;
        }
        Some(self.list.remove(0))
    }

    /// Appends a pass.
    pub fn put(&mut self, pass: Pass<V>)
        requires { length self.old.list < self.old.room }
        ensures list { self.new.list ≡ self.old.list ++ pass ∷ [] }
        ensures room { self.new.room ≡ self.old.room }
    {
        self.list.push_reserved(pass);
    }
}
