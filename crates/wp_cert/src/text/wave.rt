ghost use Rattle.std.specs.Prelude.{◌≡◌, ◌<◌, ◌↔◌, ◌^◌, All, Contains, IfOk, IfSome, Some, length, option_map, true};
ghost use Rattle.std.specs.List.{list_all};
ghost use Rattle.wp_model.specs.declared.point.Point.{Point as PointData};
ghost use Rattle.wp_model.specs.Warehouse.{IsSlot};
ghost use Rattle.wp_pairs.specs.Carts.{IsLoadedCart};
ghost use Rattle.wp_cert.specs.Text.{PickAt, PicksAt, is_order_of, is_slot_of, is_within, loaded_cart, place_of};

use crate::text::form::{Form, WrittenCart, WrittenSlot};
use std::alloc::Global;
use wp_graph::{Layout, Picks};
use wp_lengths::Wave;
use wp_model::{Listing, Memory, Point};
use wp_pairs::Cart;

// The slot of a place.
fn point_of(layout: &Layout, place: WrittenSlot) -> Point
    requires { is_slot_of layout.now place ≡ true }
    ensures value { place_of result ≡ place }
    ensures slot { IsSlot layout.now result }
{
    let (aisles, slots) = (layout.aisles(), layout.slots());
    let within = place.aisle <= u64::from(aisles) && place.slot <= u64::from(slots);
    prove!(within);
    Point {
        aisle: place.aisle as u32,
        slot: place.slot as u32,
    }
}

// The slots at which an order picks.
fn picks_of(layout: &Layout, places: &[WrittenSlot]) -> Picks
    requires { list_all (is_slot_of layout.now) places.now ≡ true }
    ensures layout { result.layout ≡ layout.now }
    ensures points { PicksAt result places.now }
{
    let mut picks = Picks::new(layout);
    for place in places {
        picks.add(point_of(layout, *place));
    }
    picks
}

// The slots at which each order picks.
fn all_picks(
    alloc: Global,
    layout: &Layout,
    orders: &[Listing<WrittenSlot>],
) -> Result<Vec<Picks>, Memory>
    requires { list_all (is_order_of layout.now) orders.now ≡ true }
    ensures layout { IfOk result (λ all. All (λ picks. picks.layout ≡ layout.now) all.items) }
    ensures filled { IfOk result (λ all. All (λ picks. 0 < length picks.points) all.items) }
    ensures picks { IfOk result (λ all. PickAt all.items orders.now) }
{
    let mut all = Vec::new(alloc);
    for places in orders {
        all.push(picks_of(layout, places.as_slice()))?;
    }
    Ok(all)
}

// The loads as numbers of 32 bits.
fn loads_of(alloc: Global, loads: &[u64]) -> Result<Vec<u32>, Memory>
    requires { All (λ load. load < 2 ^ 32) loads.now }
    ensures { IfOk result (λ kept. kept.items ≡ loads.now) }
{
    let mut kept = Vec::new(alloc);
    for load in loads {
        kept.push(*load as u32)?;
    }
    Ok(kept)
}

// The cart that holds these units, with these loads.
fn cart_of(alloc: Global, cart: &WrittenCart) -> Result<Option<Cart>, Memory>
    requires { IsLoadedCart (loaded_cart cart.now) }
    ensures { IfOk result (λ made. made ≡ Some (loaded_cart cart.now)) }
{
    let loads = loads_of(alloc, cart.loads.as_slice())?;
    Ok(Cart::new(cart.units as u32, &loads))
}

// The cart of a text that has one, and none of one that has none.
fn any_cart_of(alloc: Global, cart: &Option<WrittenCart>) -> Result<Option<Cart>, Memory>
    requires { IfSome cart.now (λ written. IsLoadedCart (loaded_cart written)) }
    ensures { IfOk result (λ made. made ≡ option_map loaded_cart cart.now) }
{
    match cart {
        None => Ok(None),
        Some(cart) => cart_of(alloc, cart),
    }
}

/// The wave of a layout whose orders pick at the places of a text, with the text's cart, if there is one.
pub(crate) fn wave_of(alloc: Global, layout: &Layout, form: &Form) -> Result<Wave, Memory>
    requires { is_within layout.now form.now ≡ true }
    ensures layout { IfOk result (λ wave. wave.layout ≡ layout.now) }
    ensures orders { IfOk result (λ wave. PickAt wave.orders form.now.orders) }
    ensures cart { IfOk result (λ wave. wave.cart ≡ option_map loaded_cart form.now.cart) }
{
    let all = all_picks(alloc, layout, form.orders.as_slice())?;
    match any_cart_of(alloc, &form.cart)? {
        None => Ok(Wave::taking(alloc, *layout, all)),
        Some(cart) => Ok(Wave::taking_with_cart(alloc, *layout, all, cart)),
    }
}
