//! What version 2 of a layout file has beyond version 1: the spacings and the depot's end.
ghost use Rattle.std.specs.Prelude.{◌≡◌, ◌-◌, ◌≤◌, All, Err, IfErr, IfOk, Ok, length, map, option_and_then, option_map};
ghost use Rattle.std.specs.Prelude.{take, true};
ghost use Rattle.std.specs.List.{list_all};
ghost use Rattle.serde_json.specs.View.{items_view, view};
ghost use Rattle.wp_model.specs.Limits.{greatest_length, most_aisles};
ghost use Rattle.wp_model.specs.Warehouse.{IsUpTo};
ghost use Rattle.wp_model.specs.Outcomes.{and_then};
ghost use Rattle.wp_layout.specs.LayoutFile.{back_named, back_read, is_ranged, is_whole, spacings_ranged};
ghost use Rattle.wp_layout.specs.LayoutFile.{spacings_read, whole_or_zero, wholes_read};
ghost use Rattle.serde_json.specs.Find.{as_array, get};
ghost use Rattle.wp_layout.specs.Keys.{key_text};
ghost use Rattle.wp_layout.specs.declared.key.Key.TheVariants as key;

use crate::fault::LayoutFault;
use crate::key::Key;
use serde_json::Value;
use wp_model::GREATEST_LENGTH;

fn is_whole(value: &Value) -> bool
    ensures { result ≡ is_whole (view value.now) }
{
    value.as_u64().is_some()
}

// Whether each value is a whole number.
fn are_whole(values: &[Value]) -> bool
    ensures { result ≡ list_all is_whole (map view values.now) }
{
    for value in values {
        if !is_whole(value) {
            return false;
        }
    }
    true
}

// Whether a value is a number that a spacing may be.
fn is_spacing(value: &Value) -> bool
    ensures { result ≡ is_ranged greatest_length (whole_or_zero (view value.now)) }
{
    let number = value.as_u64().unwrap_or(0);
    1 <= number && number <= u64::from(GREATEST_LENGTH)
}

// Whether each value is.
fn are_spacings(values: &[Value]) -> bool
    ensures { result ≡ list_all (is_ranged greatest_length)
        (map whole_or_zero (map view values.now)) }
{
    for value in values {
        if !is_spacing(value) {
            return false;
        }
    }
    true
}

// The spacing that a value is.
fn spacing_of(value: &Value) -> u32
    requires { is_ranged greatest_length (whole_or_zero (view value.now)) ≡ true }
    ensures { result ≡ whole_or_zero (view value.now) }
{
    value.as_u64().unwrap_or(0) as u32
}

// The spacings that values are, which are few enough.
fn spacings_of(values: &[Value]) -> [u32; 63]
    requires few { length values.now ≤ 63 }
    requires ranged { list_all (is_ranged greatest_length) (map whole_or_zero (map view values.now))
        ≡ true }
    ensures spacings { take (length values.now) result ≡ map whole_or_zero (map view values.now) }
    ensures whole { length result ≡ 63 }
{
    let mut spacings = [0; 63];
    for index in 0..values.len() {
        spacings[index] = spacing_of(&values[index]);
    }
    spacings
}

// The values of the list at the key, where there is one.
fn list_of(value: &Value) -> Option<&Vec<Value>>
    ensures { option_map (λ values. items_view values.now.items) result
        ≡ option_and_then as_array (get (key_text key.Spacings) (view value.now)) }
{
    value.get(Key::Spacings.name()).and_then(Value::as_array)
}

// The spacings that values are, for so many aisles.
fn spacings_in(values: &[Value], aisles: u32) -> Result<[u32; 63], LayoutFault>
    requires { IsUpTo most_aisles aisles }
    ensures ok { IfOk result (λ spacings. and_then (wholes_read (map view values.now))
        (spacings_ranged aisles) ≡ Ok (take (aisles - 1) spacings)) }
    ensures whole { IfOk result (λ spacings. length spacings ≡ 63) }
    ensures range { IfOk result (λ spacings. All (IsUpTo greatest_length)
        (take (aisles - 1) spacings)) }
    ensures refusal { IfErr result (λ fault. and_then (wholes_read (map view values.now))
        (spacings_ranged aisles) ≡ Err fault) }
{
    if !are_whole(values) {
        return Err(LayoutFault::NotWhole(Key::Spacings));
    }
    if values.len() != aisles as usize - 1 {
        return Err(LayoutFault::OutOfRange(Key::Spacings));
    }
    if !are_spacings(values) {
        return Err(LayoutFault::OutOfRange(Key::Spacings));
    }
    Ok(spacings_of(values))
}

/// The spacings of so many aisles: as many of the numbers as are asked for.
pub(crate) fn read_spacings(value: &Value, aisles: u32) -> Result<[u32; 63], LayoutFault>
    requires { IsUpTo most_aisles aisles }
    ensures ok { IfOk result (λ spacings. spacings_read (view value.now) aisles
        ≡ Ok (take (aisles - 1) spacings)) }
    ensures whole { IfOk result (λ spacings. length spacings ≡ 63) }
    ensures range { IfOk result (λ spacings. All (IsUpTo greatest_length)
        (take (aisles - 1) spacings)) }
    ensures refusal { IfErr result (λ fault. spacings_read (view value.now) aisles ≡ Err fault) }
{
    match list_of(value) {
        Some(values) => spacings_in(values, aisles),
        None => Err(LayoutFault::NotWhole(Key::Spacings)),
    }
}

// Whether a text names the back end, where it names an end.
fn back_named(text: &str) -> Option<bool>
    ensures { result ≡ back_named text.now }
{
    if text == "front" {
        return Some(false);
    }
    if text == "back" {
        return Some(true);
    }
    None
}

/// Whether the depot lies at the back end.
pub(crate) fn read_back(value: &Value) -> Result<bool, LayoutFault>
    ensures { result ≡ back_read (view value.now) }
{
    value
        .get(Key::End.name())
        .and_then(Value::as_str)
        .and_then(back_named)
        .ok_or(LayoutFault::NotEnd)
}
