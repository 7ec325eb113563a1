ghost use Rattle.std.specs.Prelude.{◌≡◌, ◌≤◌, ◌<◌, ◌++◌, All, IfOk, None, OnOk, Some, codes};
ghost use Rattle.std.specs.Prelude.{length, map};
ghost use Rattle.serde_json.specs.Data.{array, put};
ghost use Rattle.serde_json.specs.View.{items_of, members_view, view};
ghost use Rattle.wp_model.specs.declared.point.Point.{Point as PointData};
ghost use Rattle.wp_graph.specs.PickSets.{AreSlots};
ghost use Rattle.wp_lengths.specs.Waves.{IsWave, picks_of};
ghost use Rattle.wp_cuts.specs.Steps.{layout_step};
ghost use Rattle.wp_cert.specs.Text.{Tells, place_of};
ghost use Rattle.wp_cert.specs.TextData.{AreKeptCuts, HaveDualsWithin, HaveSlots, IsKeptCut, IsKeptNode, aisle_points};
ghost use Rattle.wp_cert.specs.TextData.{certificate_data, certificate_text, cut_data, list_data, loaded_data};
ghost use Rattle.wp_cert.specs.TextData.{node_data, number_data, order_data, order_places, place_data};
ghost use Rattle.wp_cert.specs.TextData.{loaded_third_data, plain_data, point_data, step_and_cuts, terms_written, third_data, wave_places};

use crate::text::to_json::{list_json, nodes_json};
use crate::{Node, Tree, WrittenCuts};
use serde_json::{Map, Value, json};
use std::alloc::{AllocError, Global};
use wp_cuts::step_of;
use wp_graph::{Layout, Picks};
use wp_lengths::Wave;
use wp_model::{Memory, Point};
use wp_pairs::Cart;

/// A wave, and its cart.
#[derive(Clone, Copy)]
pub(crate) struct LoadedWave<'a> {
    wave: &'a Wave,
    cart: &'a Cart,
}

// A slot as a value.
fn point_json(alloc: Global, point: Point) -> Result<Value, AllocError>
    ensures { IfOk result (λ value. view value ≡ point_data point) }
{
    json!(in alloc; [point.aisle, point.slot])
}

// Adds the slots of an aisle at which an order picks.
fn push_aisle(
    alloc: Global,
    picks: &Picks,
    aisle: u32,
    slots: u32,
    values: &mut Vec<Value>,
) -> Result<(), AllocError>
    requires some { 0 < slots }
    requires most { slots ≤ 200 }
    ensures values { OnOk result (map view values.new.items ≡ map view values.old.items
        ++ map point_data (aisle_points picks.now.points aisle slots)) }
    ensures slots { OnOk result (AreSlots picks.now.layout picks.now.points) }
{
    for before in 0..slots {
        let point = Point {
            aisle,
            slot: before + 1,
        };
        if picks.has(point) {
            values.push(point_json(alloc, point)?)?;
        }
    }
    Ok(())
}

// The slots of an order as a value.
fn order_json(alloc: Global, layout: &Layout, picks: &Picks) -> Result<Value, AllocError>
    ensures value { IfOk result (λ value. view value ≡ order_data layout.now picks.now) }
    ensures slots { IfOk result (λ value. AreSlots picks.now.layout picks.now.points) }
{
    let slots = layout.slots();
    let mut values = Vec::new(alloc);
    for before in 0..layout.aisles() {
        push_aisle(alloc, picks, before + 1, slots, &mut values)?;
    }
    Ok(Value::Array(values))
}

// The slots of an order of a wave as a value.
fn wave_order_json(alloc: Global, wave: &Wave, order: u32) -> Result<Value, AllocError>
    requires { order < length wave.now.orders }
    ensures value { IfOk result (λ value. view value
        ≡ list_data place_data (order_places wave.now.layout (picks_of wave.now order))) }
    ensures slots { IfOk result (λ value. AreSlots wave.now.layout (picks_of wave.now order)) }
{
    order_json(alloc, &wave.layout(), wave.order(order))
}

// The slots of all orders of a wave as a value.
fn orders_json(alloc: Global, wave: &Wave) -> Result<Value, AllocError>
    ensures value { IfOk result (λ value. view value
        ≡ list_data (list_data place_data) (wave_places wave.now)) }
    ensures slots { IfOk result (λ value. HaveSlots wave.now.layout wave.now.orders) }
    ensures valid { IfOk result (λ value. IsWave wave.now) }
{
    let mut values = Vec::new(alloc);
    for order in 0..wave.orders() {
        values.push(wave_order_json(alloc, wave, order)?)?;
    }
    Ok(Value::Array(values))
}

// What each order loads as a value.
fn loads_json(alloc: Global, cart: &Cart) -> Result<Value, AllocError>
    ensures { IfOk result (λ value. view value ≡ list_data number_data cart.now.loads) }
{
    let mut values = Vec::new(alloc);
    for order in 0..cart.orders() {
        values.push(Value::from(cart.load(order)))?;
    }
    Ok(Value::Array(values))
}

// Adds capacity and orders to the members of a certificate.
fn put_parts(
    alloc: Global,
    members: &mut Map<String, Value>,
    wave: &Wave,
    capacity: u32,
) -> Result<(), AllocError>
    ensures value { OnOk result (members_view members.new.entries
        ≡ put (codes "orders") (list_data (list_data place_data) (wave_places wave.now))
        (put (codes "capacity") (number_data capacity)
        (members_view members.old.entries))) }
    ensures slots { OnOk result (HaveSlots wave.now.layout wave.now.orders) }
    ensures valid { OnOk result (IsWave wave.now) }
{
    serde_json::put(members, alloc, "capacity", Value::from(capacity))?;
    serde_json::put(members, alloc, "orders", orders_json(alloc, wave)?)
}

// Adds the nodes to the members of a certificate: in the third form with prices.
fn put_nodes(
    alloc: Global,
    members: &mut Map<String, Value>,
    third: bool,
    nodes: &[Node],
) -> Result<(), AllocError>
    ensures value { OnOk result (members_view members.new.entries
        ≡ put (codes "nodes") (list_data (node_data third) nodes.now)
        (members_view members.old.entries)) }
    ensures nodes { OnOk result (All IsKeptNode nodes.now) }
{
    serde_json::put(members, alloc, "nodes", nodes_json(alloc, third, nodes)?)
}

// Adds units and loads of a cart to the members of a certificate.
fn put_cart(alloc: Global, members: &mut Map<String, Value>, cart: &Cart) -> Result<(), AllocError>
    ensures { OnOk result (members_view members.new.entries
        ≡ put (codes "loads") (list_data number_data cart.now.loads)
        (put (codes "units") (number_data cart.now.units) (members_view members.old.entries))) }
{
    serde_json::put(members, alloc, "units", Value::from(cart.units()))?;
    serde_json::put(members, alloc, "loads", loads_json(alloc, cart)?)
}

// Adds version, the step of a layout and cuts to the members of a certificate of the third form.
fn put_terms(
    alloc: Global,
    members: &mut Map<String, Value>,
    layout: &Layout,
    cuts: &WrittenCuts,
) -> Result<(), AllocError>
    ensures value { OnOk result (members_view members.new.entries
        ≡ put (codes "cuts") (list_data cut_data cuts.now)
        (put (codes "step") (number_data (layout_step layout.now))
        (put (codes "version") (number_data 3) (members_view members.old.entries)))) }
    ensures kept { OnOk result (All IsKeptCut cuts.now) }
{
    serde_json::put(members, alloc, "version", Value::from(3u32))?;
    serde_json::put(members, alloc, "step", Value::from(step_of(layout)))?;
    serde_json::put(members, alloc, "cuts", list_json(alloc, cuts.as_slice())?)
}

// A certificate without a cart as a value.
fn plain_json(alloc: Global, wave: &Wave, capacity: u32, tree: &Tree) -> Result<Value, AllocError>
    ensures value { IfOk result (λ value. view value
        ≡ plain_data (wave_places wave.now) capacity tree.now.nodes) }
    ensures slots { IfOk result (λ value. HaveSlots wave.now.layout wave.now.orders) }
    ensures valid { IfOk result (λ value. IsWave wave.now) }
    ensures nodes { IfOk result (λ value. All IsKeptNode tree.now.nodes) }
{
    let mut members = Map::new(alloc);
    serde_json::put(&mut members, alloc, "version", Value::from(1u32))?;
    put_parts(alloc, &mut members, wave, capacity)?;
    put_nodes(alloc, &mut members, false, tree.nodes.as_slice())?;
    Ok(Value::Object(members))
}

// A certificate with this cart as a value.
fn loaded_json(
    alloc: Global,
    wave: &Wave,
    cart: &Cart,
    capacity: u32,
    tree: &Tree,
) -> Result<Value, AllocError>
    ensures value { IfOk result (λ value. view value
        ≡ loaded_data (wave_places wave.now) cart.now capacity tree.now.nodes) }
    ensures slots { IfOk result (λ value. HaveSlots wave.now.layout wave.now.orders) }
    ensures valid { IfOk result (λ value. IsWave wave.now) }
    ensures nodes { IfOk result (λ value. All IsKeptNode tree.now.nodes) }
{
    let mut members = Map::new(alloc);
    serde_json::put(&mut members, alloc, "version", Value::from(2u32))?;
    put_cart(alloc, &mut members, cart)?;
    put_parts(alloc, &mut members, wave, capacity)?;
    put_nodes(alloc, &mut members, false, tree.nodes.as_slice())?;
    Ok(Value::Object(members))
}

// A certificate of the third form without a cart as a value.
fn third_json(
    alloc: Global,
    wave: &Wave,
    cuts: &WrittenCuts,
    capacity: u32,
    nodes: &[Node],
) -> Result<Value, AllocError>
    ensures value { IfOk result (λ value. view value
        ≡ third_data (wave_places wave.now) (step_and_cuts wave.now.layout cuts.now) capacity
        nodes.now) }
    ensures slots { IfOk result (λ value. HaveSlots wave.now.layout wave.now.orders) }
    ensures valid { IfOk result (λ value. IsWave wave.now) }
    ensures nodes { IfOk result (λ value. All IsKeptNode nodes.now) }
    ensures cuts { IfOk result (λ value. All IsKeptCut cuts.now) }
{
    let mut members = Map::new(alloc);
    put_terms(alloc, &mut members, &wave.layout(), cuts)?;
    put_parts(alloc, &mut members, wave, capacity)?;
    put_nodes(alloc, &mut members, true, nodes)?;
    Ok(Value::Object(members))
}

// A certificate of the third form with this cart as a value.
fn loaded_third_json(
    alloc: Global,
    loaded: &LoadedWave<'_>,
    cuts: &WrittenCuts,
    capacity: u32,
    nodes: &[Node],
) -> Result<Value, AllocError>
    ensures value { IfOk result (λ value. view value
        ≡ loaded_third_data (wave_places loaded.now.wave.now) loaded.now.cart.now
        (step_and_cuts loaded.now.wave.now.layout cuts.now) capacity nodes.now) }
    ensures slots { IfOk result (λ value. HaveSlots loaded.now.wave.now.layout
        loaded.now.wave.now.orders) }
    ensures valid { IfOk result (λ value. IsWave loaded.now.wave.now) }
    ensures nodes { IfOk result (λ value. All IsKeptNode nodes.now) }
    ensures cuts { IfOk result (λ value. All IsKeptCut cuts.now) }
{
    let mut members = Map::new(alloc);
    put_terms(alloc, &mut members, &loaded.wave.layout(), cuts)?;
    put_cart(alloc, &mut members, loaded.cart)?;
    put_parts(alloc, &mut members, loaded.wave, capacity)?;
    put_nodes(alloc, &mut members, true, nodes)?;
    Ok(Value::Object(members))
}

// A certificate of the first two forms as a value.
fn first_json(alloc: Global, wave: &Wave, capacity: u32, tree: &Tree) -> Result<Value, AllocError>
    ensures value { IfOk result (λ value. view value
        ≡ certificate_data (wave_places wave.now) wave.now.cart None capacity tree.now.nodes) }
    ensures slots { IfOk result (λ value. HaveSlots wave.now.layout wave.now.orders) }
    ensures valid { IfOk result (λ value. IsWave wave.now) }
    ensures nodes { IfOk result (λ value. All IsKeptNode tree.now.nodes) }
{
    match wave.cart() {
        None => plain_json(alloc, wave, capacity, tree),
        Some(cart) => loaded_json(alloc, wave, &cart, capacity, tree),
    }
}

// A certificate with these cuts as a value.
fn priced_json(
    alloc: Global,
    wave: &Wave,
    cuts: &WrittenCuts,
    capacity: u32,
    tree: &Tree,
) -> Result<Value, AllocError>
    ensures value { IfOk result (λ value. view value
        ≡ certificate_data (wave_places wave.now) wave.now.cart
        (Some (step_and_cuts wave.now.layout cuts.now)) capacity tree.now.nodes) }
    ensures slots { IfOk result (λ value. HaveSlots wave.now.layout wave.now.orders) }
    ensures valid { IfOk result (λ value. IsWave wave.now) }
    ensures nodes { IfOk result (λ value. All IsKeptNode tree.now.nodes) }
    ensures cuts { IfOk result (λ value. All IsKeptCut cuts.now) }
{
    let nodes = tree.nodes.as_slice();
    match wave.cart() {
        None => third_json(alloc, wave, cuts, capacity, nodes),
        Some(cart) => {
            let loaded = LoadedWave { wave, cart: &cart };
            loaded_third_json(alloc, &loaded, cuts, capacity, nodes)
        }
    }
}

// A certificate as a value.
fn certificate_json(
    alloc: Global,
    wave: &Wave,
    capacity: u32,
    tree: &Tree,
) -> Result<Value, AllocError>
    ensures value { IfOk result (λ value. view value
        ≡ certificate_data (wave_places wave.now) wave.now.cart
        (terms_written wave.now.layout tree.now.cuts) capacity tree.now.nodes) }
    ensures slots { IfOk result (λ value. HaveSlots wave.now.layout wave.now.orders) }
    ensures valid { IfOk result (λ value. IsWave wave.now) }
    ensures nodes { IfOk result (λ value. All IsKeptNode tree.now.nodes) }
    ensures cuts { IfOk result (λ value. AreKeptCuts tree.now.cuts) }
{
    match &tree.cuts {
        None => first_json(alloc, wave, capacity, tree),
        Some(cuts) => priced_json(alloc, wave, cuts, capacity, tree),
    }
}

/// The text of a certificate: JSON with nothing between its parts, the keys of each object in the order of their bytes,
/// and the slots of each order in the order of their aisles and then of their slots, each once. A tree with cuts is of
/// the third form: its version is 3, it has the layout's step and the cuts as well, and its nodes have prices. Else the
/// version is 1 where the wave has no cart, else 2. With a cart it has the cart's units and loads as well. The capacity
/// is 1 to 8, no dual or price of the tree is above 1,000,000,000,000 sixtieths, and in the first two forms neither
/// batches nor cuts have one. It is read again as this wave with its cart, this capacity and this tree.
pub fn print_certificate(
    alloc: Global,
    wave: &Wave,
    capacity: u32,
    tree: &Tree,
) -> Result<Vec<u8>, Memory>
    requires some { 1 ≤ capacity }
    requires most { capacity ≤ 8 }
    requires duals { HaveDualsWithin tree.now }
    ensures text { IfOk result (λ text. text.items ≡ certificate_text wave.now capacity tree.now) }
    ensures told { IfOk result (λ text. Tells wave.now.layout text.items wave.now capacity
        tree.now) }
{
    let value = certificate_json(alloc, wave, capacity, tree)?;
    Ok(value.to_vec(alloc)?)
}
