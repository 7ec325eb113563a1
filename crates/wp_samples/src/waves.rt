ghost use Rattle.std.specs.Prelude.{◌≡◌, ◌<◌, All, IfSome, length};

use crate::layouts::{layout_of, small_layout};
use crate::picking::{At, picked, slot_of};
use std::alloc::Global;
use wp_draws::Draws;
use wp_graph::{Layout, Picks};
use wp_lengths::Wave;
use wp_pairs::Cart;

/// Where an order picks: aisles and slots.
pub type Slots = &'static [(u32, u32)];

/// What an order picks, if it picks at all.
pub fn order_of(layout: &Layout, slots: &[(u32, u32)]) -> Option<Picks>
    ensures layout { IfSome result (λ picks. picks.layout ≡ layout.now) }
    ensures filled { IfSome result (λ picks. 0 < length picks.points) }
{
    let first = slot_of(layout, *slots.first()?)?;
    let mut picks = picked(layout, slots);
    picks.add(first);
    if picks.has(first) {
        return Some(picks);
    }
    None
}

/// What the orders pick, as often as they are repeated.
pub fn orders_of(alloc: Global, layout: &Layout, orders: &[Slots], times: u32) -> Option<Vec<Picks>>
    ensures layout { IfSome result (λ picked. All
        (λ picks. picks.layout ≡ layout.now) picked.items) }
    ensures filled { IfSome result (λ picked. All (λ picks. 0 < length picks.points) picked.items) }
{
    let mut all = Vec::new(alloc);
    for _ in 0..times {
        for slots in orders {
            all.push(order_of(layout, slots)?).ok()?;
        }
    }
    Some(all)
}

/// The wave of orders that pick in a layout, where they are 1 to 64.
pub fn wave_in(alloc: Global, layout: Layout, orders: &Vec<Picks>) -> Option<Wave>
    requires layout { All (λ picks. picks.layout ≡ layout) orders.now.items }
    requires filled { All (λ picks. 0 < length picks.points) orders.now.items }
{
    if orders.is_empty() || orders.len() > 64 {
        return None;
    }
    Wave::of(alloc, layout, orders).ok()
}

/// The wave of these orders in the small layout with its depot at the first aisle, as often as they are repeated.
pub fn wave_of(alloc: Global, orders: &[Slots], times: u32) -> Option<Wave> {
    let layout = small_layout(1)?;
    let picks = orders_of(alloc, &layout, orders, times)?;
    wave_in(alloc, layout, &picks)
}

/// The wave of these orders in the small layout with its depot at the first aisle, and a cart of so many units with
/// what each order loads.
pub fn cart_wave_of(alloc: Global, orders: &[Slots], units: u32, loads: &[u32]) -> Option<Wave> {
    let layout = small_layout(1)?;
    let picks = orders_of(alloc, &layout, orders, 1)?;
    let cart = Cart::new(units, loads)?;
    wave_with(alloc, layout, &picks, cart)
}

/// The wave of orders that pick in a layout, with a cart that has a load for each of them.
pub fn wave_with(alloc: Global, layout: Layout, orders: &Vec<Picks>, cart: Cart) -> Option<Wave>
    requires layout { All (λ picks. picks.layout ≡ layout) orders.now.items }
    requires filled { All (λ picks. 0 < length picks.points) orders.now.items }
{
    if cart.orders() as usize != orders.len() {
        return None;
    }
    Wave::with_cart(alloc, layout, orders, cart).ok()
}

// The aisle and slot of a line in 60 aisles of 40 slots, behind which its quantity is drawn.
fn drawn_line(draws: &mut Draws) -> At {
    let aisle = 1 + draws.below(60) as u32;
    let slot = 1 + draws.below(40) as u32;
    let _ = draws.below(5);
    (aisle, slot)
}

// The next order: one to three lines.
fn made_order(layout: &Layout, draws: &mut Draws) -> Option<Picks>
    ensures layout { IfSome result (λ picks. picks.layout ≡ layout.now) }
    ensures filled { IfSome result (λ picks. 0 < length picks.points) }
{
    let lines = 1 + draws.below(3) as usize;
    let mut slots = [(0, 0); 3];
    for line in 0..lines {
        slots[line] = drawn_line(draws);
    }
    order_of(layout, slots.get(..lines)?)
}

// The orders of the next wave, so many.
fn made_orders(alloc: Global, layout: &Layout, draws: &mut Draws, count: u32) -> Option<Vec<Picks>>
    ensures layout { IfSome result (λ picked. All
        (λ picks. picks.layout ≡ layout.now) picked.items) }
    ensures filled { IfSome result (λ picked. All (λ picks. 0 < length picks.points) picked.items) }
{
    let mut orders = Vec::new(alloc);
    for _ in 0..count {
        orders.push(made_order(layout, draws)?).ok()?;
    }
    Some(orders)
}

/// The next wave of so many orders, in a layout of 60 aisles of 40 slots with the depot in the middle.
pub fn made_wave(alloc: Global, draws: &mut Draws, count: u32) -> Option<Wave> {
    let layout = layout_of([60, 40, 2, 1, 5, 30])?;
    let orders = made_orders(alloc, &layout, draws, count)?;
    wave_in(alloc, layout, &orders)
}
