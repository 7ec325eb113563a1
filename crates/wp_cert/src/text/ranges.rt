ghost use Rattle.std.specs.Prelude.{◌≡◌, length, nat_le};
ghost use Rattle.std.specs.List.{list_all};
ghost use Rattle.wp_cert.specs.Text.{are_duals_within, are_priced, is_any_cart_for, is_cart_for, is_node_within};
ghost use Rattle.wp_cert.specs.Text.{is_order_of, is_price, is_slot_of, is_step_of, is_up_to, is_within, version_of};

use crate::text::form::{Form, WrittenCart, WrittenSlot, WrittenTerms};
use crate::{Node, Own};
use wp_cuts::step_of;
use wp_graph::Layout;
use wp_model::{Listing, MOST_CART_UNITS};

/// The greatest dual or price of a certificate, in sixtieths of a unit of length.
const GREATEST_DUAL: u64 = 1_000_000_000_000;

// Whether a number is from 1 to this one.
fn is_up_to(number: u64, most: u32) -> bool
    ensures { result ≡ is_up_to most number }
{
    1 <= number && number <= u64::from(most)
}

// Whether a place is a slot of the layout.
fn is_slot_of(layout: &Layout, place: WrittenSlot) -> bool
    ensures { result ≡ is_slot_of layout.now place }
{
    is_up_to(place.aisle, layout.aisles()) && is_up_to(place.slot, layout.slots())
}

// Whether all places are slots of the layout.
fn are_slots(layout: &Layout, places: &[WrittenSlot]) -> bool
    ensures { result ≡ list_all (is_slot_of layout.now) places.now }
{
    for place in places {
        if !is_slot_of(layout, *place) {
            return false;
        }
    }
    true
}

// Whether an order picks at some slots, which are slots of the layout.
fn is_order_of(layout: &Layout, places: &Listing<WrittenSlot>) -> bool
    ensures { result ≡ is_order_of layout.now places.now }
{
    1 <= places.len() && are_slots(layout, places.as_slice())
}

// Whether each order picks at slots of the layout.
fn are_orders(layout: &Layout, orders: &[Listing<WrittenSlot>]) -> bool
    ensures { result ≡ list_all (is_order_of layout.now) orders.now }
{
    for places in orders {
        if !is_order_of(layout, places) {
            return false;
        }
    }
    true
}

// Whether a price is within its range.
fn is_price(price: u64) -> bool
    ensures { result ≡ is_price price }
{
    price <= GREATEST_DUAL
}

// Whether no price is above the greatest.
fn are_within(prices: &[u64]) -> bool
    ensures { result ≡ list_all is_price prices.now }
{
    for price in prices {
        if !is_price(*price) {
            return false;
        }
    }
    true
}

// Whether batches and cuts have prices within their range: in the first two forms none.
fn are_priced(third: bool, own: &Own) -> bool
    ensures { result ≡ are_priced third own.now }
{
    if third {
        is_price(own.count) && are_within(own.prices.as_slice())
    } else {
        own.count == 0 && own.prices.len() == 0
    }
}

// Whether the duals and prices, where there are some, are all within their range.
fn are_duals_within(third: bool, own: &Option<Own>) -> bool
    ensures { result ≡ are_duals_within third own.now }
{
    match own {
        None => true,
        Some(own) => are_within(own.duals.as_slice()) && are_priced(third, own),
    }
}

// Whether the duals and prices of a node are within their range.
fn is_node_within(third: bool, node: &Node) -> bool
    ensures { result ≡ is_node_within third node.now }
{
    match node {
        Node::Leaf(own) => are_duals_within(third, own),
        Node::Split { own, .. } => are_duals_within(third, own),
        Node::Dead(_) => true,
    }
}

// Whether the duals and prices of all nodes are within their range.
fn are_nodes_within(third: bool, nodes: &[Node]) -> bool
    ensures { result ≡ list_all (is_node_within third) nodes.now }
{
    for node in nodes {
        if !is_node_within(third, node) {
            return false;
        }
    }
    true
}

// Whether no load is above the units.
fn are_light(units: u64, loads: &[u64]) -> bool
    ensures { result ≡ list_all (λ load. nat_le load units) loads.now }
{
    for load in loads {
        if *load > units {
            return false;
        }
    }
    true
}

// Whether the units are those of a cart, each of so many orders has a load, and none loads more than the cart holds.
fn is_cart_for(orders: u32, cart: &WrittenCart) -> bool
    ensures { result ≡ is_cart_for orders cart.now }
{
    is_up_to(cart.units, MOST_CART_UNITS)
        && cart.loads.len() == orders
        && are_light(cart.units, cart.loads.as_slice())
}

// Whether the cart, where there is one, is a cart for so many orders.
fn is_any_cart_for(orders: u32, cart: &Option<WrittenCart>) -> bool
    ensures { result ≡ is_any_cart_for orders cart.now }
{
    match cart {
        None => true,
        Some(cart) => is_cart_for(orders, cart),
    }
}

// The version of a certificate of the third form, that of one without a cart, and that of one with a cart.
fn version_of(third: bool, cart: &Option<WrittenCart>) -> u64
    ensures { result ≡ version_of third cart.now }
{
    if third {
        return 3;
    }
    match cart {
        None => 1,
        Some(_) => 2,
    }
}

// Whether the step, where there is one, is the layout's.
fn is_step_of(layout: &Layout, terms: &Option<WrittenTerms>) -> bool
    ensures { result ≡ is_step_of layout.now terms.now }
{
    match terms {
        None => true,
        Some(terms) => terms.step == u64::from(step_of(layout)),
    }
}

/// Whether version, capacity, orders, duals and prices, cart and step are in their ranges.
pub(crate) fn is_within(form: &Form, layout: &Layout) -> bool
    ensures { result ≡ is_within layout.now form.now }
{
    let third = form.terms.is_some();
    form.version == version_of(third, &form.cart)
        && is_up_to(form.capacity, 8)
        && is_up_to(u64::from(form.orders.len()), 64)
        && are_orders(layout, form.orders.as_slice())
        && are_nodes_within(third, form.nodes.as_slice())
        && is_any_cart_for(form.orders.len(), &form.cart)
        && is_step_of(layout, &form.terms)
}
