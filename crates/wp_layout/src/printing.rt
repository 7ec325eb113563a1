ghost use Rattle.std.specs.Prelude.{◌≡◌, ◌≤◌, IfOk, Ok, map};
ghost use Rattle.serde_json.specs.Data.{array};
ghost use Rattle.serde_json.specs.View.{items_of, view};
ghost use Rattle.wp_layout.specs.LayoutFile.{layout_said};
ghost use Rattle.wp_layout.specs.LayoutText.{are_same, end_name, first_value, is_even, layout_text, layout_value};
ghost use Rattle.wp_layout.specs.LayoutText.{number_value, second_value};
ghost use Rattle.wp_model.specs.Warehouse.{IsLayout};

use serde_json::{Value, json};
use std::alloc::{AllocError, Global};
use wp_graph::Layout;
use wp_model::Memory;

// Whether the lengths from each aisle to the next are the same.
fn are_same(layout: &Layout) -> bool
    requires { 2 ≤ layout.now.aisles }
    ensures { result ≡ are_same layout.now.spacings }
{
    let first = layout.spacing_after(1);
    for left in 2..layout.aisles() {
        if layout.spacing_after(left) != first {
            return false;
        }
    }
    true
}

// Whether version 1 can say a layout.
fn is_even(layout: &Layout) -> bool
    ensures value { result ≡ is_even layout.now }
    ensures valid { IsLayout layout.now }
{
    !layout.depot_back() && layout.aisles() >= 2 && are_same(layout)
}

// The value of a layout in version 1.
fn first_value(alloc: Global, layout: &Layout) -> Result<Value, AllocError>
    requires { 2 ≤ layout.now.aisles }
    ensures value { IfOk result (λ value. view value ≡ first_value layout.now) }
{
    let (aisles, slots) = (layout.aisles(), layout.slots());
    let (pitch, clearance, spacing) = (layout.pitch(), layout.clearance(), layout.spacing_after(1));
    let depot = layout.depot();
    json!(in alloc; {
        "version": 1u32,
        "aisles": aisles,
        "slots": slots,
        "pitch": pitch,
        "clearance": clearance,
        "spacing": spacing,
        "depot": depot
    })
}

// The spacings as a list.
fn spacings_value(alloc: Global, layout: &Layout) -> Result<Value, AllocError>
    ensures { IfOk result (λ value. view value
        ≡ array (items_of (map number_value layout.now.spacings))) }
{
    let mut values = Vec::new(alloc);
    for left in 1..layout.aisles() {
        values.push(Value::from(layout.spacing_after(left)))?;
    }
    Ok(Value::Array(values))
}

// What the depot's end is named.
fn end_name(layout: &Layout) -> &'static str
    ensures { result.now ≡ end_name layout.now.end }
{
    if layout.depot_back() { "back" } else { "front" }
}

// The value of a layout in version 2.
fn second_value(alloc: Global, layout: &Layout) -> Result<Value, AllocError>
    ensures value { IfOk result (λ value. view value ≡ second_value layout.now) }
{
    let spacings = spacings_value(alloc, layout)?;
    let (aisles, slots) = (layout.aisles(), layout.slots());
    let (pitch, clearance, depot) = (layout.pitch(), layout.clearance(), layout.depot());
    let end = end_name(layout);
    json!(in alloc; {
        "version": 2u32,
        "aisles": aisles,
        "slots": slots,
        "pitch": pitch,
        "clearance": clearance,
        "spacings": spacings,
        "depot": depot,
        "end": end
    })
}

fn value_of(alloc: Global, layout: &Layout) -> Result<Value, AllocError>
    ensures value { IfOk result (λ value. view value ≡ layout_value layout.now) }
    ensures valid { IfOk result (λ value. IsLayout layout.now) }
{
    if is_even(layout) {
        first_value(alloc, layout)
    } else {
        second_value(alloc, layout)
    }
}

/// The text of a layout, with its keys in the order of their bytes: of version 1 where the depot lies in front, there
/// are at least two aisles and all lie equally far from each other, and else of version 2. It is read again as the same
/// layout.
pub fn print_layout(alloc: Global, layout: &Layout) -> Result<Vec<u8>, Memory>
    ensures text { IfOk result (λ text. text.items ≡ layout_text layout.now) }
    ensures reads_back { IfOk result (λ text. layout_said text.items ≡ Ok layout.now) }
{
    let value = value_of(alloc, layout)?;
    Ok(value.to_vec(alloc)?)
}
