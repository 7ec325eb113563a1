ghost use Rattle.std.specs.Prelude.{◌≡◌, ◌+◌, ◌<◌, ◌≤◌, ◌==◌, ◌++◌, ◌∷◌, [], length, IfOk};
ghost use Rattle.wp_book.specs.Room.{AreInOrder, IsInOrder};

use crate::sorted::SortedHolds;
use std::alloc::Global;
use std::marker::Model;
use wp_model::{Cell, Hold, Holds, Memory};

/// What one call held for a wave.
#[derive(Drop)]
pub struct KeptHolds {
    pub wave: u32,
    pub holds: SortedHolds,
}

/// Room for so many holds, and the holds that are in it. Contracts see both.
#[derive(Drop)]
pub struct Room {
    size: u32,
    holds: Vec<Hold>,
    cell: Cell<KeptHolds>,
}

impl Model for Room {
    ghost use Rattle.std.specs.Prelude.{◌<◌, ◌≤◌, ◌^◌, vec_len, vec_capacity};
    ghost use Rattle.wp_book.specs.Room.{Content};

    ghost Value = { Content };

    ghost view = { λ r. record { size = r.size; holds = r.holds.items } };

    ghost invariant = { λ r. (r.size < 2 ^ 32) × (r.size ≤ vec_capacity r.holds) × (vec_len r.holds ≤ r.size) };
}

impl Room {
    /// Empty room for so many holds.
    pub fn new(alloc: Global, size: u32) -> Result<Room, Memory>
        ensures { IfOk result (λ room. room ≡ record { size = size; holds = [] }) }
    {
        let holds = Vec::with_capacity(alloc, size as usize)?;
        let cell = Cell::new(alloc)?;
        Ok(Room { size, holds, cell })
    }

    /// How many holds it has room for.
    pub fn size(&self) -> u32
        ensures { result ≡ self.now.size }
    {
        self.size
    }

    /// How many holds are in it.
    pub fn len(&self) -> u32
        ensures { result ≡ length self.now.holds }
    {
        self.holds.len() as u32
    }

    /// Whether no hold is in it.
    pub fn is_empty(&self) -> bool
        ensures { result ≡ (length self.now.holds == 0) }
    {
        self.holds.is_empty()
    }

    /// Puts a hold in, the last. It takes no memory.
    pub fn put(&mut self, hold: Hold)
        requires { length self.old.holds < self.old.size }
        ensures { self.new ≡ record self.old { holds = self.old.holds ++ hold ∷ [] } }
    {
        self.holds.push_reserved(hold);
    }

    /// Puts holds in, after those that are in it. It takes no memory.
    pub fn put_all(&mut self, holds: &[Hold])
        requires { length self.old.holds + length holds.now ≤ self.old.size }
        ensures { self.new ≡ record self.old { holds = self.old.holds ++ holds.now } }
    {
        for hold in holds {
            self.put(*hold);
        }
    }

    /// Puts the holds into the order of their orders, and those of one order into that of their rows. It takes no
    /// memory.
    pub fn sort(&mut self)
        ensures { IsInOrder self.old self.new }
    {
        self.holds
            .sort_unstable_by_key(|hold| (hold.order, hold.row));
    }

    /// The holds, in the order in which they were put in, or in which they were sorted.
    pub fn as_slice(&self) -> &[Hold]
        ensures { result.now ≡ self.now.holds }
    {
        self.holds.as_slice()
    }

    /// The holds that are in it, as a list.
    pub fn into_holds(self) -> Holds
        ensures { result ≡ self.holds }
    {
        let Room {
            size: _,
            holds,
            cell: _,
        } = self;
        Holds::of(holds)
    }

    /// The holds, which are in order, and the room for them in a chain.
    pub(crate) fn into_parts(self) -> (SortedHolds, Cell<KeptHolds>)
        requires { AreInOrder self.holds }
        ensures { result.0 ≡ self.holds }
    {
        let Room {
            size: _,
            holds,
            cell,
        } = self;
        (SortedHolds::of(holds), cell)
    }
}
