ghost use Rattle.std.specs.Prelude.{◌≡◌, ◌≤◌, ◌<◌, ◌*◌, ◌^◌, ◌↔◌, ◌⊎◌, ◌++◌, ℕ, All, Contains, IfOk, IfSome, IsTrue};
ghost use Rattle.std.specs.Prelude.{[], None, Some, length};
ghost use Rattle.wp_model.specs.declared.point.Point.{Point as PointData};
ghost use Rattle.wp_model.specs.Warehouse.{Layout as Block};
ghost use Rattle.wp_pairs.specs.Carts.{FitsAnyCart, IsCartFor};
ghost use Rattle.wp_lengths.specs.Batchings.{no_pairs};
ghost use Rattle.wp_lengths.specs.Waves.{HaveSamePicks, IsWave, picks_of};
ghost use Rattle.wp_lengths.specs.KeptLengths.{HaveLengths, IsPicked};
ghost use Rattle.wp_lengths.specs.Lengths.{IsLengthOf, batch_picks};

use crate::lengths::{Later, Length, PickedBatch};
use crate::places::{Part, Places};
use std::alloc::Global;
use std::marker::Model;
use std::thread;
use std::thread::Threads;
use wp_fast::tour_length;
use wp_graph::{Layout, Picks};
use wp_model::Memory;
use wp_pairs::{Batch, Cart, Pairs};

/// How many lengths are kept at most: 64 MiB have room for so many.
const MOST_LENGTHS: u64 = 4_194_304;

/// How many lengths a worker is worth: to begin a thread takes as long as to find some hundred lengths.
const LENGTHS_FOR_ONE: usize = 1_000;

/// A wave of 1 to 64 orders: a layout, the slots at which each order picks, and a cart with what each order loads, if
/// there is one. An order is named by its place, from 0 on.
#[derive(Drop)]
pub struct Wave {
    layout: Layout,
    orders: Vec<Picks>,
    cart: Option<Cart>,
    places: Places,
    lengths: Vec<Length>,
}

impl Model for Wave {
    ghost use Rattle.wp_lengths.specs.Waves.{IsWave, WavePicks};
    ghost use Rattle.wp_lengths.specs.KeptLengths.{HaveLengths};

    ghost Value = { WavePicks };

    ghost view = { λ w. record { layout = w.layout; orders = w.orders.items; cart = w.cart } };

    ghost invariant = { λ w. IsWave (record { layout = w.layout; orders = w.orders.items; cart = w.cart })
        × HaveLengths (record { layout = w.layout; orders = w.orders.items; cart = w.cart }) w.lengths.items };
}

// The same slots once more.
fn copy_of(layout: &Layout, picks: &Picks) -> Picks
    requires { picks.now.layout ≡ layout.now }
    ensures layout { result.layout ≡ layout.now }
    ensures points { (p : PointData) → Contains result.points p ↔ Contains picks.now.points p }
{
    let mut copy = Picks::new(layout);
    copy.join(picks);
    copy
}

// The same slots of each order once more.
fn copies_of(alloc: Global, layout: &Layout, orders: &Vec<Picks>) -> Result<Vec<Picks>, Memory>
    requires { All (λ picks. picks.layout ≡ layout.now) orders.now.items }
    ensures layout { IfOk result (λ copies. All (λ picks. picks.layout ≡ layout.now) copies.items) }
    ensures same { IfOk result (λ copies. HaveSamePicks copies.items orders.now.items) }
{
    let mut copies = Vec::new(alloc);
    for picks in orders {
        copies.push(copy_of(layout, picks))?;
    }
    Ok(copies)
}

// How many of so many lengths are a worker's part. There are no more such parts than workers.
fn part_size(count: usize, workers: u32) -> usize
    requires { 1 ≤ workers }
    ensures some { 0 < result }
    ensures few { count ≤ workers * result }
{
    count.div_ceil(workers as usize).max(LENGTHS_FOR_ONE)
}

impl Wave {
    /// The wave of these orders' picks in a layout, of which it keeps copies.
    pub fn of(alloc: Global, layout: Layout, orders: &Vec<Picks>) -> Result<Wave, Memory>
        requires some { 1 ≤ length orders.now.items }
        requires most { length orders.now.items ≤ 64 }
        requires of_layout { All (λ picks. picks.layout ≡ layout) orders.now.items }
        requires filled { All (λ picks. 0 < length picks.points) orders.now.items }
        ensures layout { IfOk result (λ wave. wave.layout ≡ layout) }
        ensures orders { IfOk result (λ wave. HaveSamePicks wave.orders orders.now.items) }
        ensures cart { IfOk result (λ wave. wave.cart ≡ None) }
    {
        let copies = copies_of(alloc, &layout, orders)?;
        Ok(Wave::taking(alloc, layout, copies))
    }

    /// The wave of copies of these orders' picks in a layout, with a cart that has a load for each of them.
    pub fn with_cart(
        alloc: Global,
        layout: Layout,
        orders: &Vec<Picks>,
        cart: Cart,
    ) -> Result<Wave, Memory>
        requires loads { length cart.loads ≡ length orders.now.items }
        requires of_layout { All (λ picks. picks.layout ≡ layout) orders.now.items }
        requires filled { All (λ picks. 0 < length picks.points) orders.now.items }
        ensures layout { IfOk result (λ wave. wave.layout ≡ layout) }
        ensures orders { IfOk result (λ wave. HaveSamePicks wave.orders orders.now.items) }
        ensures cart { IfOk result (λ wave. wave.cart ≡ Some cart) }
    {
        let copies = copies_of(alloc, &layout, orders)?;
        Ok(Wave::taking_with_cart(alloc, layout, copies, cart))
    }

    /// The wave that takes over these orders' picks in a layout. It takes no memory.
    pub fn taking(alloc: Global, layout: Layout, orders: Vec<Picks>) -> Wave
        requires some { 1 ≤ length orders.items }
        requires most { length orders.items ≤ 64 }
        requires of_layout { All (λ picks. picks.layout ≡ layout) orders.items }
        requires filled { All (λ picks. 0 < length picks.points) orders.items }
        ensures layout { result.layout ≡ layout }
        ensures orders { result.orders ≡ orders.items }
        ensures cart { result.cart ≡ None }
    {
        Wave::begun(alloc, layout, orders, None)
    }

    /// The wave that takes over these orders' picks in a layout, with a cart that has a load for each of them. It takes
    /// no memory.
    pub fn taking_with_cart(alloc: Global, layout: Layout, orders: Vec<Picks>, cart: Cart) -> Wave
        requires loads { length cart.loads ≡ length orders.items }
        requires of_layout { All (λ picks. picks.layout ≡ layout) orders.items }
        requires filled { All (λ picks. 0 < length picks.points) orders.items }
        ensures layout { result.layout ≡ layout }
        ensures orders { result.orders ≡ orders.items }
        ensures cart { result.cart ≡ Some cart }
    {
        let of_wave = cart.orders() as usize == orders.len();
        prove!(of_wave);
        Wave::begun(alloc, layout, orders, Some(cart))
    }

    // The wave of these orders' picks in a layout, with a cart for them or with none.
    fn begun(alloc: Global, layout: Layout, orders: Vec<Picks>, cart: Option<Cart>) -> Wave
        requires some { 1 ≤ length orders.items }
        requires most { length orders.items ≤ 64 }
        requires of_layout { All (λ picks. picks.layout ≡ layout) orders.items }
        requires filled { All (λ picks. 0 < length picks.points) orders.items }
        requires cart { IsCartFor cart (length orders.items) }
        ensures layout { result.layout ≡ layout }
        ensures orders { result.orders ≡ orders.items }
        ensures cart { result.cart ≡ cart }
    {
        Wave {
            layout,
            orders,
            cart,
            places: Places::none(),
            lengths: Vec::new(alloc),
        }
    }

    /// The number of orders, 1 to 64.
    pub fn orders(&self) -> u32
        ensures value { result ≡ length self.now.orders }
        ensures valid { IsWave self.now }
    {
        self.orders.len() as u32
    }

    /// The layout.
    pub fn layout(&self) -> Layout
        ensures { result ≡ self.now.layout }
    {
        self.layout
    }

    /// The cart that batches are to fit, with a load for each order. None comes exactly where there is no cart.
    pub fn cart(&self) -> Option<Cart>
        ensures value { result ≡ self.now.cart }
        ensures valid { IsWave self.now }
    {
        self.cart
    }

    /// The wave's orders and its cart for batches of so many orders, with no pair decided.
    pub fn pairs(&self, capacity: u32) -> Pairs
        requires some { 1 ≤ capacity }
        requires most { capacity ≤ 8 }
        ensures { result ≡ no_pairs self.now capacity }
    {
        match &self.cart {
            None => Pairs::new(self.orders(), capacity),
            Some(cart) => Pairs::with_cart(self.orders(), capacity, *cart),
        }
    }

    /// Whether a batch fits the cart, if there is one.
    pub fn holds(&self, batch: Batch) -> bool
        ensures { IsTrue result ↔ FitsAnyCart self.now.cart batch }
    {
        match &self.cart {
            None => true,
            Some(cart) => cart.holds(batch),
        }
    }

    /// Whether two batches together fit the cart, if there is one.
    pub fn holds_both(&self, left: Batch, right: Batch) -> bool
        ensures { IsTrue result ↔ FitsAnyCart self.now.cart (left ++ right) }
    {
        match &self.cart {
            None => true,
            Some(cart) => cart.holds_both(left, right),
        }
    }

    /// The slots at which an order picks.
    pub fn picks(&self, i: u32) -> Picks
        requires { i < length self.now.orders }
        ensures layout { result.layout ≡ self.now.layout }
        ensures points { (p : PointData) → Contains result.points p
            ↔ Contains (picks_of self.now i) p }
    {
        copy_of(&self.layout, &self.orders[i as usize])
    }

    /// The slots at which an order picks, as the wave has them.
    pub fn order(&self, i: u32) -> &Picks
        requires { i < length self.now.orders }
        ensures layout { result.now.layout ≡ self.now.layout }
        ensures points { result.now.points ≡ picks_of self.now i }
    {
        &self.orders[i as usize]
    }

    /// The length of a shortest tour past all slots at which the orders of a batch pick, 0 for no order. It is below 2
    /// ^ 28.
    pub fn batch_length(&self, batch: Batch) -> u64
        requires { All (λ order. order < length self.now.orders) batch }
        ensures is { IsLengthOf self.now batch result }
        ensures small { result < 2 ^ 28 }
    {
        match self.kept_length(batch) {
            Some(length) => length,
            None => self.found_length(batch),
        }
    }

    // The same, found by a tour.
    fn found_length(&self, batch: Batch) -> u64
        requires { All (λ order. order < length self.now.orders) batch }
        ensures is { IsLengthOf self.now batch result }
        ensures small { result < 2 ^ 28 }
    {
        let mut union = Picks::new(&self.layout);
        self.join_orders(&mut union, batch);
        tour_length(&self.layout, &union)
    }

    /// Keeps the lengths of all batches of at most so many orders: from then on the length of such a batch is looked
    /// up. The wave stays as it was, also where memory runs out. Nothing is kept where the capacity is above 8 or there
    /// are more than 4,194,304 such batches, which is what 64 MiB have room for.
    pub fn keep_lengths(&mut self, alloc: Global, capacity: u32) -> Result<(), Memory>
        ensures { self.new ≡ self.old }
    {
        let places = Places::of(self.orders(), capacity);
        let mut lengths = self.blank_lengths(alloc, &places)?;
        self.keep_part(&places, 0, lengths.as_mut_slice());
        self.places = places;
        self.lengths = lengths;
        Ok(())
    }

    /// The same by up to so many workers, 1 to 16, that find the lengths beside each other, each in a thread of its own
    /// but for one. No more take part than the lengths are worth. What is kept doesn't depend on the workers.
    pub fn keep_lengths_by<R: Threads + Sync>(
        &mut self,
        rt: &R,
        alloc: Global,
        capacity: u32,
        workers: u32,
    ) -> Result<(), Memory>
        requires some { 1 ≤ workers }
        requires most { workers ≤ 16 }
        ensures { self.new ≡ self.old }
    {
        let places = Places::of(self.orders(), capacity);
        let mut lengths = self.blank_lengths(alloc, &places)?;
        self.keep_parts(rt, &places, workers, lengths.as_mut_slice());
        self.places = places;
        self.lengths = lengths;
        Ok(())
    }

    // The length of a batch, where it is kept.
    fn kept_length(&self, batch: Batch) -> Option<u64>
        ensures is { IfSome result (IsLengthOf self.now batch) }
        ensures small { IfSome result (λ length. length < 2 ^ 28) }
    {
        let place = self.places.place_of(batch)?;
        if place < self.lengths.len() as u64 {
            let kept = self.lengths[place as usize];
            if kept.batch.is(batch) {
                return Some(kept.length);
            }
        }
        None
    }

    // The batch of no order as often as there are places, or never where there are too many of them.
    fn blank_lengths(&self, alloc: Global, places: &Places) -> Result<Vec<Length>, Memory>
        ensures { IfOk result (λ lengths. HaveLengths self.now lengths.items) }
    {
        let count = places.count();
        if count > MOST_LENGTHS {
            return Ok(Vec::new(alloc));
        }
        let batch = Batch::empty();
        let length = self.batch_length(batch);
        let blank = Length { batch, length };
        let lengths = vec![in alloc; blank; count as usize]?;
        Ok(lengths)
    }

    // Keeps the lengths of all batches: each worker finds those of a part of the list.
    fn keep_parts<R: Threads + Sync>(
        &self,
        rt: &R,
        places: &Places,
        workers: u32,
        lengths: &mut [Length],
    )
        requires some { 1 ≤ workers }
        requires kept { HaveLengths self.now lengths.old }
        ensures { HaveLengths self.now lengths.new }
    {
        let wave = self;
        let size = part_size(lengths.len(), workers);
        thread::for_each_chunk_mut(
            rt,
            lengths,
            size,
            &|start: usize, part: &mut [Length]|
                requires { HaveLengths wave.now part.now }
                ensures { HaveLengths wave.entry.now part.exit.now
                    × (length part.exit.now ≡ length part.entry.now) }
            { wave.keep_part(places, start, part) },
        );
    }

    // Keeps the lengths of those batches whose places lie in a part of the list, which begins at a place.
    fn keep_part(&self, places: &Places, start: usize, lengths: &mut [Length])
        requires { HaveLengths self.now lengths.old }
        ensures { HaveLengths self.now lengths.new }
    {
        let batch = Batch::empty();
        let union = self.union_of(batch);
        let none = PickedBatch {
            batch,
            union: &union,
        };
        let all = Later {
            first: 0,
            most: places.capacity(),
        };
        let part = Part {
            places,
            start: start as u64,
        };
        self.keep_all(&part, lengths, &none, all);
    }

    // Keeps the length of a batch and of each with up to so many further orders, as far as their places lie in a part.
    #[cycle(keeping)]
    fn keep_all(
        &self,
        part: &Part<'_>,
        lengths: &mut [Length],
        picked: &PickedBatch<'_>,
        later: Later,
    )
        requires picked { IsPicked self.now picked.now }
        requires kept { HaveLengths self.now lengths.old }
        ensures { HaveLengths self.now lengths.new }
    {
        let Some(span) = part.places.span_of(picked.batch) else {
            return;
        };
        if !part.meets(span, lengths.len()) {
            return;
        }
        if let Some(place) = part.place_of(span) {
            self.keep_one(lengths, picked, place);
        }
        if later.most == 0 {
            return;
        }
        for order in later.first..self.orders() {
            let from = Later {
                first: order,
                most: later.most,
            };
            self.keep_wider(part, lengths, picked, from);
        }
    }

    // Keeps the lengths of a batch with the first of some later orders, and with further ones of them. The slots of
    // both are put together where they are asked for, and copied nowhere.
    #[cycle(keeping)]
    fn keep_wider(
        &self,
        part: &Part<'_>,
        lengths: &mut [Length],
        picked: &PickedBatch<'_>,
        later: Later,
    )
        requires known { later.first < length self.now.orders }
        requires some { 1 ≤ later.most }
        requires picked { IsPicked self.now picked.now }
        requires kept { HaveLengths self.now lengths.old }
        ensures { HaveLengths self.now lengths.new }
    {
        let order = later.first;
        let mut union = Picks::new(&self.layout);
        union.join(picked.union);
        union.join(&self.orders[order as usize]);
        let wider = PickedBatch {
            batch: picked.batch.with(order),
            union: &union,
        };
        let after = Later {
            first: order + 1,
            most: later.most - 1,
        };
        self.keep_all(part, lengths, &wider, after);
    }

    // Keeps the length of a batch at a place, if there is one.
    fn keep_one(&self, lengths: &mut [Length], picked: &PickedBatch<'_>, place: u64)
        requires picked { IsPicked self.now picked.now }
        requires kept { HaveLengths self.now lengths.old }
        ensures { HaveLengths self.now lengths.new }
    {
        if place < lengths.len() as u64 {
            let batch = picked.batch;
            let length = tour_length(&self.layout, picked.union);
            lengths[place as usize] = Length { batch, length };
        }
    }

    /// The slots at which the orders of a batch pick.
    pub fn union_of(&self, batch: Batch) -> Picks
        requires { All (λ order. order < length self.now.orders) batch }
        ensures layout { result.layout ≡ self.now.layout }
        ensures points { (p : PointData) → Contains result.points p
            ↔ Contains (batch_picks self.now batch) p }
    {
        let mut union = Picks::new(&self.layout);
        self.join_orders(&mut union, batch);
        union
    }

    // Adds the slots at which the orders of a batch pick to none.
    fn join_orders(&self, union: &mut Picks, batch: Batch)
        requires orders { All (λ order. order < length self.now.orders) batch }
        requires layout { union.old.layout ≡ self.now.layout }
        requires empty { union.old.points ≡ [] }
        ensures layout { union.new.layout ≡ self.now.layout }
        ensures points { (p : PointData) → Contains union.new.points p
            ↔ Contains (batch_picks self.now batch) p }
    {
        for (place, picks) in self.orders.iter().enumerate() {
            if batch.has(place as u32) {
                union.join(picks);
            }
        }
    }
}
