//! The fields of a record.
ghost use Rattle.std.specs.Prelude.{◌≡◌, ◌≤◌, ◌<◌, ◌^◌, length, drop, IfOk, IsTrue, Ok, Some, slice_get};
ghost use Rattle.std.specs.List.{list_all};
ghost use Rattle.std.specs.Result.{result_map_both};
ghost use Rattle.std.specs.Str.{is_utf8};
ghost use Rattle.csv.specs.Records.{fields_of};
ghost use Rattle.wp_model.specs.Limits.{most_quantity};
ghost use Rattle.wp_model.specs.Plain.{is_plain_location};
ghost use Rattle.wp_tables.specs.Fields.{four_now, four_of, location_read, name_read, number_read, one_of};
ghost use Rattle.wp_tables.specs.Fields.{quantity_read, same_fault, three_now, three_of};
ghost use Rattle.wp_tables.specs.Fields.{three_texts};

use crate::fault::Why;
use csv::ByteRecord;
use wp_model::{Location, MOST_QUANTITY, Name, read_number};

/// The field at a place of a record, counted from 0.
pub fn field_of(fields: &ByteRecord, i: usize) -> &[u8]
    requires { i < length (fields_of fields.now) }
    ensures { slice_get (fields_of fields.now) i ≡ Some result.now }
{
    fields.get(i).unwrap()
}

/// The one field from a place on. `Columns` comes exactly where there isn't just one.
pub fn one_from(fields: &ByteRecord, at: usize) -> Result<&[u8], Why>
    requires { at ≤ length (fields_of fields.now) }
    ensures { result_map_both (λ field. field.now) same_fault result
        ≡ one_of (drop at (fields_of fields.now)) }
{
    if fields.len() - at != 1 {
        return Err(Why::Columns);
    }
    Ok(field_of(fields, at))
}

/// The three fields from a place on. `Columns` comes exactly where there aren't just three.
pub fn three_from(fields: &ByteRecord, at: usize) -> Result<(&[u8], &[u8], &[u8]), Why>
    requires { at ≤ length (fields_of fields.now) }
    ensures { result_map_both three_now same_fault result
        ≡ three_of (drop at (fields_of fields.now)) }
{
    if fields.len() - at != 3 {
        return Err(Why::Columns);
    }
    Ok((
        field_of(fields, at),
        field_of(fields, at + 1),
        field_of(fields, at + 2),
    ))
}

/// The four fields from a place on. `Columns` comes exactly where there aren't just four.
pub fn four_from(fields: &ByteRecord, at: usize) -> Result<(&[u8], &[u8], &[u8], &[u8]), Why>
    requires { at ≤ length (fields_of fields.now) }
    ensures { result_map_both four_now same_fault result
        ≡ four_of (drop at (fields_of fields.now)) }
{
    if fields.len() - at != 4 {
        return Err(Why::Columns);
    }
    Ok((
        field_of(fields, at),
        field_of(fields, at + 1),
        field_of(fields, at + 2),
        field_of(fields, at + 3),
    ))
}

fn is_text(field: &[u8]) -> bool
    ensures { result ≡ is_utf8 field.now }
{
    match str::from_utf8(field) {
        Ok(_) => true,
        Err(_) => false,
    }
}

/// Whether each field is text in UTF-8.
pub fn are_texts(fields: &ByteRecord) -> bool
    ensures { result ≡ list_all is_utf8 (fields_of fields.now) }
{
    for i in 0..fields.len() {
        if !is_text(field_of(fields, i)) {
            return false;
        }
    }
    true
}

/// The three fields of a record, each of them text. `Columns` comes exactly where it hasn't three, else `NotUtf8`
/// exactly where one isn't text.
pub fn three_texts(fields: &ByteRecord) -> Result<(&[u8], &[u8], &[u8]), Why>
    ensures { result_map_both three_now same_fault result ≡ three_texts (fields_of fields.now) }
{
    let three = three_from(fields, 0)?;
    if are_texts(fields) {
        Ok(three)
    } else {
        Err(Why::NotUtf8)
    }
}

/// A field that is a name. `BadName` comes exactly where it is none.
pub fn read_name(field: &[u8]) -> Result<Name, Why>
    ensures { result ≡ name_read field.now }
{
    Name::new(field).ok_or(Why::BadName)
}

/// A field that is a location. `BadName` comes exactly where it isn't of that form.
pub fn read_location(field: &[u8]) -> Result<Location, Why>
    ensures location { result ≡ location_read field.now }
    ensures plain { IfOk result (λ location. IsTrue (is_plain_location location)) }
{
    Location::read(field).ok_or(Why::BadName)
}

/// A field that is a number from `least` to `most`. `BadNumber` comes exactly where it isn't 1 to 18 digits, else
/// `OutOfRange` exactly where the number is another.
pub fn read_number_in(field: &[u8], least: u32, most: u32) -> Result<u32, Why>
    ensures number { result ≡ number_read least most field.now }
    ensures range { IfOk result (λ number. (least ≤ number) × (number ≤ most)) }
{
    let number = read_number(field, 18).ok_or(Why::BadNumber)?;
    if u64::from(least) <= number && number <= u64::from(most) {
        Ok(number as u32)
    } else {
        Err(Why::OutOfRange)
    }
}

/// A field that is a quantity, 1 to 100,000.
pub fn read_quantity(field: &[u8]) -> Result<u32, Why>
    ensures quantity { result ≡ quantity_read field.now }
    ensures range { IfOk result (λ quantity. (1 ≤ quantity) × (quantity ≤ most_quantity)) }
{
    read_number_in(field, 1, MOST_QUANTITY)
}
