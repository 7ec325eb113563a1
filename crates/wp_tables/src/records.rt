ghost use Rattle.std.specs.Prelude.{◌≡◌, [], ◌∷◌, true, false, length, take, map, Ok, IfOk, OnOk, MatchOption};
ghost use Rattle.std.specs.Bool.{MatchBool};
ghost use Rattle.csv.specs.Reading.{error_kind, stops_reader};
ghost use Rattle.csv.specs.Records.{fields_of};
ghost use Rattle.wp_model.specs.TableLines.{same_record};
ghost use Rattle.wp_tables.specs.Reading.{ReadsBy, TakesIn, under_heading};
ghost use Rattle.wp_tables.specs.Records.{kept_in, trimmed};
ghost use Rattle.wp_tables.specs.RecordsLeft.{IsReading, TakesRecord, kept_left, records_left};

use crate::fault::{RowFault, Why};
use crate::fields::{field_of, three_from};
use csv::{ByteRecord, Reader, ReaderBuilder};
use std::alloc::Global;
use wp_model::Memory;

/// The records of a table's text that are left to read, and the number of the last that was read.
#[derive(Drop)]
pub struct Records<'a> {
    reader: Reader<&'a [u8]>,
    number: u64,
}

/// How many fields a record has without its trailing empty fields.
fn len_without_empty(fields: &ByteRecord) -> usize
    ensures { take result (fields_of fields.now) ≡ trimmed (fields_of fields.now) }
{
    let mut len = fields.len();
    while len > 0 && field_of(fields, len - 1).is_empty() {
        len -= 1;
    }
    len
}

fn drop_empty(fields: &mut ByteRecord)
    ensures { fields_of fields.new ≡ trimmed (fields_of fields.old) }
{
    let len = len_without_empty(fields);
    fields.truncate(len);
}

// Records of any number of fields are read from bytes, so only memory can be wanting.
fn want_of(_error: csv::Error) -> Memory
    requires { stops_reader (error_kind _error) ≡ true }
{
    Memory
}

impl<'a> Records<'a> {
    fn of(alloc: Global, text: &'a [u8]) -> Records<'a>
        ensures left { kept_left result ≡ kept_in text.now }
        ensures reading { IsReading result }
    {
        // A text has fewer than 2^64 bytes, and no more records than bytes.
        let _len = text.len();
        let reader = ReaderBuilder::new()
            .has_headers(false)
            .flexible(true)
            .from_reader(alloc, text);
        Records { reader, number: 0 }
    }

    fn read(&mut self, fields: &mut ByteRecord) -> Result<bool, Memory>
        requires { IsReading self.old }
        ensures taken { IfOk result (λ found. found ≡ true
            → TakesRecord self.old (fields_of fields.new) self.new) }
        ensures end { IfOk result (λ found. found ≡ false → records_left self.old ≡ []) }
    {
        let found = match self.reader.read_byte_record(fields) {
            Ok(found) => found,
            Err(error) => return Err(want_of(error)),
        };
        if !found {
            return Ok(false);
        }
        self.number += 1;
        Ok(true)
    }

    /// The next record that has a field left without its trailing empty fields, into `fields`, and its number. None
    /// comes exactly where there is none.
    pub fn next(&mut self, fields: &mut ByteRecord) -> Result<Option<u64>, Memory>
        requires { IsReading self.old }
        ensures next { IfOk result (λ number. MatchOption number (kept_left self.old ≡ [])
            (λ n. kept_left self.old ≡ record { number = n; fields = fields_of fields.new } ∷ kept_left self.new)) }
        ensures reading { IfOk result (λ number. MatchOption number (Unit {0})
            (λ n. IsReading self.new)) }
    {
        loop {
            if !self.read(fields)? {
                return Ok(None);
            }
            drop_empty(fields);
            if !fields.is_empty() {
                return Ok(Some(self.number));
            }
        }
    }
}

fn is_record(fields: &ByteRecord, a: &[u8], b: &[u8], c: &[u8]) -> bool
    ensures { result ≡ same_record (fields_of fields.now) (a.now ∷ b.now ∷ c.now ∷ []) }
{
    match three_from(fields, 0) {
        Ok((x, y, z)) => x == a && y == b && z == c,
        Err(_) => false,
    }
}

impl<'a> Records<'a> {
    fn heading(
        &mut self,
        fields: &mut ByteRecord,
        a: &[u8],
        b: &[u8],
        c: &[u8],
    ) -> Result<(), RowFault>
        requires { IsReading self.old }
        ensures under { TakesIn result (kept_left self.new)
            (under_heading (a.now ∷ b.now ∷ c.now ∷ []) (kept_left self.old)) }
        ensures reading { OnOk result (IsReading self.new) }
    {
        let Some(row) = self.next(fields)? else {
            return Err(RowFault {
                row: 1,
                why: Why::Columns,
            });
        };
        if is_record(fields, a, b, c) {
            Ok(())
        } else {
            Err(RowFault {
                row,
                why: Why::Columns,
            })
        }
    }

    /// The records of a text under a heading of three words. `Columns` comes exactly where the first record that has a
    /// field isn't that heading, with its number, and as row 1 where there is none.
    pub fn under(
        alloc: Global,
        text: &'a [u8],
        a: &[u8],
        b: &[u8],
        c: &[u8],
    ) -> Result<Records<'a>, RowFault>
        ensures under { ReadsBy kept_left result
            (under_heading (a.now ∷ b.now ∷ c.now ∷ []) (kept_in text.now)) }
        ensures reading { IfOk result IsReading }
    {
        let mut records = Records::of(alloc, text);
        let mut fields = ByteRecord::new(alloc);
        match records.heading(&mut fields, a, b, c) {
            Ok(()) => Ok(records),
            Err(fault) => Err(fault),
        }
    }
}
