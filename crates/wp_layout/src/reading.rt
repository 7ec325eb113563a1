ghost use Rattle.std.specs.Prelude.{◌≡◌, ◌≢◌, IfOk, IfErr, Ok, Err, bytes_eq};
ghost use Rattle.wp_model.specs.Limits.{greatest_length, most_aisles, most_slots};
ghost use Rattle.std.specs.List.{find, list_all};
ghost use Rattle.serde_json.specs.View.{members_view, view};
ghost use Rattle.wp_layout.specs.Keys.{key_text};
ghost use Rattle.wp_layout.specs.LayoutFile.{first_read, is_key, is_missing, keys_found, keys_known, keys_tested};
ghost use Rattle.wp_layout.specs.LayoutFile.{layout_said, names_of, number_read};
ghost use Rattle.wp_layout.specs.LayoutFile.{second_read, sizes_read, value_read, value_said, version_read};
ghost use Rattle.wp_layout.specs.LayoutFile.{version_said};
ghost use Rattle.wp_layout.specs.declared.fault.LayoutFault.TheVariants as fault;
ghost use Rattle.wp_model.specs.Warehouse.{IsUpTo};

use crate::fault::LayoutFault;
use crate::key::{FIRST_KEYS, Key, SECOND_KEYS};
use crate::spacings::{read_back, read_spacings};
use serde_json::{Map, Value};
use std::alloc::Global;
use wp_graph::Layout;
use wp_model::{GREATEST_LENGTH, MOST_AISLES, MOST_SLOTS};

const LAST_VERSION: u32 = 2;

fn read_value(alloc: Global, text: &Vec<u8>) -> Result<Value, LayoutFault>
    ensures value { IfOk result (λ value. value_read text.now.items ≡ Ok (view value)) }
    ensures refusal { IfErr result (λ refusal. refusal ≢ fault.Memory → value_read text.now.items
        ≡ Err refusal) }
{
    match Value::from_slice(alloc, text) {
        Ok(value) => Ok(value),
        Err(error) => {
            if error.is_memory() {
                Err(LayoutFault::Memory)
            } else {
                Err(LayoutFault::NotJson)
            }
        }
    }
}

fn is_missing(value: &Value, key: Key) -> bool
    ensures { result ≡ is_missing (view value.now) key }
{
    value.get(key.name()).is_none()
}

/// The first of these keys that a value hasn't.
fn find_missing(value: &Value, keys: &[Key]) -> Option<Key>
    ensures { result ≡ find (is_missing (view value.now)) keys.now }
{
    for key in keys {
        if is_missing(value, *key) {
            return Some(*key);
        }
    }
    None
}

fn find_keys(value: &Value, keys: &[Key]) -> Result<(), LayoutFault>
    ensures { result ≡ keys_found keys.now (view value.now) }
{
    match find_missing(value, keys) {
        Some(key) => Err(LayoutFault::MissingKey(key)),
        None => Ok(()),
    }
}

fn is_name_of(name: &str, key: Key) -> bool
    ensures { result ≡ bytes_eq name.now (key_text key) }
{
    name == key.name()
}

fn is_key(name: &str, keys: &[Key]) -> bool
    ensures { result ≡ is_key keys.now name.now }
{
    for key in keys {
        if is_name_of(name, *key) {
            return true;
        }
    }
    false
}

fn are_keys(members: &Map<String, Value>, keys: &[Key]) -> bool
    ensures { result ≡ list_all (is_key keys.now) (names_of (members_view members.now.entries)) }
{
    for name in members.keys() {
        if !is_key(name.as_str(), keys) {
            return false;
        }
    }
    true
}

fn know_keys(members: &Map<String, Value>, keys: &[Key]) -> Result<(), LayoutFault>
    ensures { result ≡ keys_known keys.now (members_view members.now.entries) }
{
    if are_keys(members, keys) {
        Ok(())
    } else {
        Err(LayoutFault::UnknownKey)
    }
}

/// Each of these keys must be there, and no other.
fn test_keys(value: &Value, members: &Map<String, Value>, keys: &[Key]) -> Result<(), LayoutFault>
    ensures { result ≡ keys_tested keys.now (view value.now) (members_view members.now.entries) }
{
    find_keys(value, keys)?;
    know_keys(members, keys)
}

/// The number at a key, from 1 to `most`.
fn read_number(value: &Value, key: Key, most: u32) -> Result<u32, LayoutFault>
    ensures number { result ≡ number_read (view value.now) key most }
    ensures range { IfOk result (IsUpTo most) }
{
    let number = value
        .get(key.name())
        .and_then(Value::as_u64)
        .ok_or(LayoutFault::NotWhole(key))?;
    if 1 <= number && number <= u64::from(most) {
        Ok(number as u32)
    } else {
        Err(LayoutFault::OutOfRange(key))
    }
}

/// The version: 1 or 2.
fn read_version(value: &Value) -> Result<u32, LayoutFault>
    ensures { result ≡ version_read (view value.now) }
{
    if is_missing(value, Key::Version) {
        return Err(LayoutFault::MissingKey(Key::Version));
    }
    read_number(value, Key::Version, LAST_VERSION)
}

/// The numbers that both versions have before the spacing.
#[derive(Clone, Copy)]
struct Sizes {
    aisles: u32,
    slots: u32,
    pitch: u32,
    clearance: u32,
}

fn read_sizes(value: &Value) -> Result<Sizes, LayoutFault>
    ensures sizes { result ≡ sizes_read (view value.now) }
    ensures aisles { IfOk result (λ sizes. IsUpTo most_aisles sizes.aisles) }
    ensures slots { IfOk result (λ sizes. IsUpTo most_slots sizes.slots) }
    ensures pitch { IfOk result (λ sizes. IsUpTo greatest_length sizes.pitch) }
    ensures clearance { IfOk result (λ sizes. IsUpTo greatest_length sizes.clearance) }
{
    Ok(Sizes {
        aisles: read_number(value, Key::Aisles, MOST_AISLES)?,
        slots: read_number(value, Key::Slots, MOST_SLOTS)?,
        pitch: read_number(value, Key::Pitch, GREATEST_LENGTH)?,
        clearance: read_number(value, Key::Clearance, GREATEST_LENGTH)?,
    })
}

/// What version 1 says.
fn read_first(value: &Value) -> Result<Layout, LayoutFault>
    ensures { result ≡ first_read (view value.now) }
{
    let sizes = read_sizes(value)?;
    let spacing = read_number(value, Key::Spacing, GREATEST_LENGTH)?;
    let depot = read_number(value, Key::Depot, sizes.aisles)?;
    Ok(Layout::new(
        sizes.aisles,
        sizes.slots,
        sizes.pitch,
        sizes.clearance,
        spacing,
        depot,
    )
    .unwrap())
}

/// What version 2 says.
fn read_second(value: &Value) -> Result<Layout, LayoutFault>
    ensures { result ≡ second_read (view value.now) }
{
    let sizes = read_sizes(value)?;
    let spacings = read_spacings(value, sizes.aisles)?;
    let depot = read_number(value, Key::Depot, sizes.aisles)?;
    let back = read_back(value)?;
    Ok(Layout::with(
        sizes.aisles,
        sizes.slots,
        sizes.pitch,
        sizes.clearance,
        &spacings[..sizes.aisles as usize - 1],
        depot,
        back,
    )
    .unwrap())
}

fn read_version_of(
    value: &Value,
    members: &Map<String, Value>,
    version: u32,
) -> Result<Layout, LayoutFault>
    ensures { result ≡ version_said (view value.now) (members_view members.now.entries) version }
{
    if version == 1 {
        test_keys(value, members, &FIRST_KEYS)?;
        read_first(value)
    } else {
        test_keys(value, members, &SECOND_KEYS)?;
        read_second(value)
    }
}

fn layout_of(value: &Value) -> Result<Layout, LayoutFault>
    ensures { result ≡ value_said (view value.now) }
{
    let members = value.as_object().ok_or(LayoutFault::NotObject)?;
    let version = read_version(value)?;
    read_version_of(value, members, version)
}

/// The layout that the bytes of a layout file say. They are refused, in this order, as `NotJson` where they aren't
/// UTF-8 or `serde_json` reads no value in them, `NotObject` where the value isn't an object, `MissingKey` where it has
/// no version, `NotWhole` where that is no whole number and `OutOfRange` where it is neither 1 nor 2, `MissingKey` with
/// the first key of its version that it hasn't, `UnknownKey` where it has another, and then for one key after another:
/// as `NotWhole` where its value is no whole number, or at the spacings no list of such numbers, and as `OutOfRange`
/// where a number isn't in its range: 1 to 64 for the aisles, 1 to 200 for the slots, 1 to 10,000 for the pitch, the
/// clearance and each spacing, of which there is one less than there are aisles, and 1 to the number of aisles for the
/// depot; as `NotEnd` where the end is neither `front` nor `back`. Of two members of one key the last counts.
pub fn read_layout(alloc: Global, text: &Vec<u8>) -> Result<Layout, LayoutFault>
    ensures exact { result ≢ Err fault.Memory → result ≡ layout_said text.now.items }
{
    let value = read_value(alloc, text)?;
    layout_of(&value)
}
