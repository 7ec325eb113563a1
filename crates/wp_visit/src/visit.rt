ghost use Rattle.std.specs.Prelude.{◌≡◌, ◌+◌, ◌<◌, ◌≤◌, ◌^◌, ◌↔◌, [], ℕ, Contains, IfNone, IfOk, IfSome, length};
ghost use Rattle.wp_pairs.specs.Kept.{IsPairing};
ghost use Rattle.wp_pairs.specs.Permitted.{AreJoined, IsPermitted};
ghost use Rattle.wp_lengths.specs.Lengths.{IsLengthOf};
ghost use Rattle.wp_lengths.specs.Visits.{AddsItem, IsItem, IsReach};
ghost use Rattle.wp_visit.specs.Items.{AreBounded, AreItemsBelow, AreReachesFrom};
ghost use Rattle.wp_visit.specs.Places.{IsAt, IsNoChild};

use crate::further::all_reaches;
use crate::item::{Given, Item, item_of};
use crate::place::Place;
use std::alloc::Global;
use std::marker::Model;
use wp_lengths::{PairedWave, Wave};
use wp_model::Memory;
use wp_pairs::{Batch, Pairs};

/// The greatest number that a dual may be in a visit, in whatever unit: 2 ^ 57.
pub const MOST_DUAL: u64 = 144_115_188_075_855_872;

/// A visit of all permitted batches: a wave, its pairs, a dual for each order, what each order brings to a place, and
/// by the number of orders the most that orders of any items have in duals.
#[derive(Drop)]
pub struct Visit<'a> {
    wave: &'a Wave,
    pairs: &'a Pairs,
    duals: &'a [u64],
    items: Vec<Item>,
    reaches: [u64; 9],
}

impl<'a> Model for Visit<'a> {
    ghost use Rattle.wp_visit.specs.Places.{IsTask, Task};

    ghost Value = { Task };

    ghost view = { λ v. record { wave = v.wave.now; pairing = v.pairs.now; duals = v.duals.now } };

    ghost invariant = { λ v. IsTask (record { wave = v.wave.now; pairing = v.pairs.now; duals = v.duals.now })
        v.items.items v.reaches };
}

// What each order of the wave brings to a place, with the reaches of the items from each number on, the last first.
fn items_of(alloc: Global, given: &Given<'_>, reaches: &Vec<[u64; 9]>) -> Result<Vec<Item>, Memory>
    requires count { length reaches.now.items ≡ given.now.paired.pairs.now.orders + 1 }
    requires reaches { AreReachesFrom given.now.paired.pairs.now given.now.duals.now reaches.now.items }
    ensures valid { IsPairing given.now.paired.pairs.now }
    ensures count { IfOk result (λ items. length items.items ≡ given.now.paired.pairs.now.orders) }
    ensures items { IfOk result (λ items.
        AreItemsBelow given.now.paired.pairs.now given.now.duals.now given.now.paired.pairs.now.orders items.items) }
{
    let orders = given.paired.pairs.orders();
    let mut items = Vec::new(alloc);
    for order in 0..orders {
        let after = orders - 1 - order;
        items.push(item_of(given, order, &reaches[after as usize]))?;
    }
    Ok(items)
}

impl<'a> Visit<'a> {
    /// A visit with a wave's pairs and a dual for each order, in any unit.
    pub fn of(alloc: Global, paired: &PairedWave<'a>, duals: &'a [u64]) -> Result<Visit<'a>, Memory>
        requires count { length duals.now ≡ length paired.now.wave.now.orders }
        requires bounded { AreBounded duals.now }
        ensures { IfOk result (λ visit. visit ≡
            record { wave = paired.now.wave.now; pairing = paired.now.pairs.now; duals = duals.now }) }
    {
        let given = Given {
            paired: *paired,
            duals,
        };
        let all = all_reaches(alloc, &given)?;
        let items = items_of(alloc, &given, &all)?;
        let reaches = all[paired.pairs.orders() as usize];
        Ok(Visit {
            wave: paired.wave,
            pairs: paired.pairs,
            duals,
            items,
            reaches,
        })
    }
}

impl Visit<'_> {
    /// The place with the item that an order names, where both together are a permitted batch; its later items begin
    /// after that order.
    pub fn child_of(&self, place: &Place, order: u32) -> Option<Place>
        requires known { order < self.now.pairing.orders }
        requires place { IsAt self.now place.now }
        ensures at { IfSome result (IsAt self.now) }
        ensures from { IfSome result (λ child. child.from ≡ order + 1) }
        ensures item { IfSome result (λ child. IsItem self.now.pairing order) }
        ensures adds { IfSome result (λ child. AddsItem self.now.pairing place.now.batch order
            child.batch) }
        ensures permitted { IfSome result (λ child. IsPermitted self.now.pairing child.batch) }
        ensures none { IfNone result (IsNoChild self.now.pairing place.now.batch order) }
    {
        let item = &self.items[order as usize];
        let batch = place.batch.union(item.class);
        if place.batch.has(order) {
            return None;
        }
        if !item.usable {
            return None;
        }
        if place.blocked.has(order) {
            return None;
        }
        let capacity = self.pairs.capacity();
        let size = place.size + item.size;
        if capacity < size {
            return None;
        }
        let load = place.load + item.load;
        if !self.pairs.carries(load) {
            return None;
        }
        Some(Place {
            batch,
            from: order + 1,
            size,
            load,
            sum: place.sum + item.sum,
            blocked: place.blocked.union(item.parted),
            before: place.batch,
            added: item.class,
        })
    }

    /// The place of no order, whose later items are all items.
    pub fn root(&self) -> Place
        ensures at { IsAt self.now result }
        ensures batch { result.batch ≡ [] }
        ensures from { result.from ≡ 0 }
    {
        let _capacity = self.pairs.capacity();
        Place {
            batch: Batch::empty(),
            from: 0,
            size: 0,
            load: 0,
            sum: 0,
            blocked: Batch::empty(),
            before: Batch::empty(),
            added: Batch::empty(),
        }
    }

    /// The number of orders of the wave, 1 to 64.
    pub fn orders(&self) -> u32
        ensures value { result ≡ self.now.pairing.orders }
        ensures few { result ≤ 64 }
    {
        self.pairs.orders()
    }

    /// How many orders more a place has room for.
    pub fn room_at(&self, place: &Place) -> u32
        requires { IsAt self.now place.now }
        ensures room { result + length place.now.batch ≡ self.now.pairing.capacity }
        ensures few { self.now.pairing.capacity ≤ 8 }
    {
        self.pairs.capacity() - place.size
    }

    /// The length of a shortest tour of a place, below 2 ^ 28.
    pub fn length_of(&self, place: &Place) -> u64
        requires { IsAt self.now place.now }
        ensures is { IsLengthOf self.now.wave place.now.batch result }
        ensures small { result < 2 ^ 28 }
    {
        self.wave.batch_length(place.batch)
    }

    /// The reach of a place: the most that further orders of its later items have in duals.
    pub fn reach_of(&self, place: &Place) -> u64
        requires { IsAt self.now place.now }
        ensures { IsReach self.now.pairing self.now.duals place.now.batch place.now.from result }
    {
        let room = self.room_at(place) as usize;
        if place.from == 0 {
            return self.reaches[room];
        }
        let item = &self.items[(place.from - 1) as usize];
        item.reach[room]
    }

    /// The orders that are joined to an order.
    pub fn joined_to(&self, order: u32) -> Batch
        requires { order < self.now.pairing.orders }
        ensures orders { (other : ℕ) → Contains result other
            ↔ AreJoined self.now.pairing.pairs order other }
        ensures valid { IsPairing self.now.pairing }
    {
        let _pairs = &self.pairs;
        self.pairs.joined_to(order)
    }
}
