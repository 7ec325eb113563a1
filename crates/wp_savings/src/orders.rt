//! Orders for which waves are sought, and how long tours past them are.
ghost use Rattle.std.specs.Prelude.{◌≡◌, ◌+◌, ◌<◌, ◌^◌, [], OnOk, length};
ghost use Rattle.std.specs.List.{All};
ghost use Rattle.wp_model.specs.Warehouse.{IsSlot};
ghost use Rattle.wp_savings.specs.Sought.{PickIn};

use std::alloc::Global;
use std::marker::Model;
use wp_fast::tour_length;
use wp_graph::{Layout, Picks};
use wp_model::{Memory, Point};

/// An order: its rank, the slots at which it would pick, a bit for each aisle in which one lies, and the length of its
/// shortest tour alone.
#[derive(Drop)]
pub struct SoughtOrder {
    rank: u32,
    slots: Vec<Point>,
    aisles: u64,
    length: u64,
}

/// Orders for which waves are sought, as they are served, and the layout in which they pick. Contracts see both.
#[derive(Drop)]
pub struct SoughtOrders {
    layout: Layout,
    orders: Vec<SoughtOrder>,
}

impl Model for SoughtOrders {
    ghost use Rattle.wp_savings.specs.Sought.{PickIn, Sought};

    ghost Value = { Sought };

    ghost view = { λ s. record { layout = s.layout; orders = s.orders.items } };

    ghost invariant = { λ s. PickIn s.layout s.orders.items };
}

// A bit for each aisle in which slots lie.
fn aisles_with(slots: &[Point]) -> u64 {
    let mut aisles = 0;
    for slot in slots {
        aisles |= 1 << (slot.aisle % 64);
    }
    aisles
}

// Adds slots of a layout to others.
fn join(layout: &Layout, picks: &mut Picks, slots: &[Point])
    requires layout { picks.old.layout ≡ layout.now }
    requires slots { All (IsSlot layout.now) slots.now }
    ensures { picks.new.layout ≡ layout.now }
{
    for slot in slots {
        picks.add(*slot);
    }
}

impl SoughtOrders {
    /// No order in a layout. It takes no memory.
    pub fn new(alloc: Global, layout: Layout) -> SoughtOrders
        ensures layout { result.layout ≡ layout }
        ensures none { result.orders ≡ [] }
    {
        SoughtOrders {
            layout,
            orders: Vec::new(alloc),
        }
    }

    /// Adds the order that is served next: its rank, and the slots of the layout at which it would pick.
    pub fn add(&mut self, rank: u32, slots: Vec<Point>) -> Result<(), Memory>
        requires { All (IsSlot self.old.layout) slots.items }
        ensures layout { self.new.layout ≡ self.old.layout }
        ensures count { OnOk result (length self.new.orders ≡ length self.old.orders + 1) }
    {
        let mut picks = Picks::new(&self.layout);
        join(&self.layout, &mut picks, slots.as_slice());
        let aisles = aisles_with(slots.as_slice());
        self.orders.push(SoughtOrder {
            rank,
            slots,
            aisles,
            length: tour_length(&self.layout, &picks),
        })?;
        Ok(())
    }

    /// The rank of the order at a place, none where there is no order.
    pub(crate) fn rank_of(&self, place: usize) -> Option<u32> {
        let order = self.orders.get(place)?;
        Some(order.rank)
    }

    /// The length of the shortest tour of the order at a place alone, 0 where there is no order.
    pub(crate) fn length_of(&self, place: usize) -> u64 {
        match self.orders.get(place) {
            Some(order) => order.length,
            None => 0,
        }
    }

    /// A bit for each aisle of the order at a place.
    pub(crate) fn aisles_of(&self, place: usize) -> u64 {
        match self.orders.get(place) {
            Some(order) => order.aisles,
            None => 0,
        }
    }

    // Adds the slots of the order at a place.
    fn join(&self, picks: &mut Picks, place: usize)
        requires { picks.old.layout ≡ self.now.layout }
        ensures { picks.new.layout ≡ self.now.layout }
    {
        if let Some(order) = self.orders.get(place) {
            join(&self.layout, picks, order.slots.as_slice());
        }
    }

    // The slots of the orders of a batch, all or all but one.
    fn picks_of(&self, batch: &[usize], but: Option<usize>) -> Picks
        ensures { result.layout ≡ self.now.layout }
    {
        let mut picks = Picks::new(&self.layout);
        for place in batch {
            if but != Some(*place) {
                self.join(&mut picks, *place);
            }
        }
        picks
    }

    /// The length of the shortest tour of the orders of a batch, all or all but one, and of one more order.
    pub(crate) fn length_with(&self, batch: &[usize], but: Option<usize>, more: usize) -> u64
        ensures { result < 2 ^ 28 }
    {
        let mut picks = self.picks_of(batch, but);
        self.join(&mut picks, more);
        tour_length(&self.layout, &picks)
    }

    /// The length of the shortest tour of the orders of a batch.
    pub(crate) fn length_of_batch(&self, batch: &[usize]) -> u64
        ensures { result < 2 ^ 28 }
    {
        tour_length(&self.layout, &self.picks_of(batch, None))
    }

    /// A bit for each aisle of the orders of a batch, all or all but one.
    pub(crate) fn aisles_of_batch(&self, batch: &[usize], but: Option<usize>) -> u64 {
        let mut aisles = 0;
        for place in batch {
            if but != Some(*place) {
                aisles |= self.aisles_of(*place);
            }
        }
        aisles
    }
}
