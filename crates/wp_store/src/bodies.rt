ghost use Rattle.std.specs.Prelude.{◌≡◌, ◌+◌, ◌*◌, ◌<◌, ◌≤◌, length, map, option_map, Some, vec_len, vec_capacity};
ghost use Rattle.std.specs.Prelude.{slice_get, IfOk, IfSome};
ghost use Rattle.wp_store.specs.Records.{first_record, length_of_bytes, records_of, stored_bytes, room_bytes};
ghost use Rattle.wp_store.specs.Records.{most_records, most_body_bytes};
ghost use Rattle.wp_store.specs.Spans.{body_at, LieWithin};

use crate::records::{HEAD_BYTES, MOST_BODY_BYTES, MOST_RECORDS};
use std::alloc::{AllocError, Global};
use std::marker::Model;

/// Where a body stands in a file, and how many bytes it has.
#[derive(Clone, Copy)]
pub(crate) struct BodySpan {
    place: usize,
    length: usize,
}

/// The bodies of a store's records, in their order. Clauses see a list of byte lists.
#[derive(Drop)]
pub struct Bodies {
    bytes: Vec<u8>,
    spans: Vec<BodySpan>,
}

impl Model for Bodies {
    ghost use Rattle.std.specs.Prelude.{◌≤◌, ℕ, List, map, vec_len};
    ghost use Rattle.wp_store.specs.Records.{most_records};
    ghost use Rattle.wp_store.specs.Spans.{body_at, LieWithin};

    ghost Value = { List (List ℕ) };

    ghost view = { λ s. map (body_at s.bytes.items) s.spans.items };

    ghost invariant = { λ s. LieWithin s.bytes.items s.spans.items × (vec_len s.spans ≤ most_records) };
}

impl Bodies {
    /// How many there are, at most `MOST_RECORDS`.
    pub fn len(&self) -> u32
        ensures len { result ≡ length self.now }
        ensures most { result ≤ most_records }
    {
        self.spans.len() as u32
    }

    /// The bytes of one of them, counted from 0.
    pub fn at(&self, i: u32) -> &[u8]
        requires { i < length self.now }
        ensures { slice_get self.now i ≡ Some result.now }
    {
        let span = self.spans[i as usize];
        &self.bytes[span.place..span.place + span.length]
    }
}

/// The bodies that a file has, and where its records end.
#[derive(Drop)]
pub(crate) struct Read {
    pub bodies: Bodies,
    pub end: usize,
}

/// Reads the records of a file.
pub(crate) fn read_bodies(alloc: Global, bytes: Vec<u8>) -> Result<Read, AllocError>
    ensures bodies { IfOk result (λ read. read.bodies ≡ records_of bytes.items) }
    ensures end { IfOk result (λ read. read.end ≡ stored_bytes (records_of bytes.items)) }
    ensures within { IfOk result (λ read. read.end ≤ vec_len bytes) }
    ensures bound { IfOk result (λ read. read.end ≤ room_bytes * length read.bodies) }
    ensures most { IfOk result (λ read. length read.bodies ≤ most_records) }
{
    let Spans { spans, end } = read_spans(alloc, &bytes)?;
    Ok(Read {
        bodies: Bodies { bytes, spans },
        end,
    })
}

#[derive(Drop)]
struct Spans {
    spans: Vec<BodySpan>,
    end: usize,
}

fn read_spans(alloc: Global, bytes: &[u8]) -> Result<Spans, AllocError>
    ensures bodies { IfOk result (λ read. map (body_at bytes.now) read.spans.items
        ≡ records_of bytes.now) }
    ensures end { IfOk result (λ read. read.end ≡ stored_bytes (records_of bytes.now)) }
    ensures inside { IfOk result (λ read. LieWithin bytes.now read.spans.items) }
    ensures within { IfOk result (λ read. read.end ≤ length bytes.now) }
    ensures bound { IfOk result (λ read. read.end ≤ room_bytes * vec_len read.spans) }
    ensures most { IfOk result (λ read. vec_len read.spans ≤ most_records) }
{
    let mut spans = Vec::new(alloc);
    let mut end = 0usize;
    'spans: while spans.len() < MOST_RECORDS {
        let Some(length) = first_length(&bytes[end..]) else {
            break 'spans;
        };
        let place = end + HEAD_BYTES;
        spans.push(BodySpan { place, length })?;
        end = place + length;
    }
    Ok(Spans { spans, end })
}

/// How many bytes the body of the record at the front has. There is none where no record stands there.
fn first_length(bytes: &[u8]) -> Option<usize>
    ensures length { result ≡ option_map (λ first. length first.body) (first_record bytes.now) }
    ensures most { IfSome result (λ n. n ≤ most_body_bytes) }
    ensures within { IfSome result (λ n. n + 5 ≤ length bytes.now) }
{
    let [1, a, b, c, d, behind @ ..] = bytes else {
        return None;
    };
    let length = length_of(*a, *b, *c, *d);
    if 1 <= length && length <= MOST_BODY_BYTES && length <= behind.len() {
        return Some(length);
    }
    None
}

/// The number that four bytes say, the most significant first.
fn length_of(a: u8, b: u8, c: u8, d: u8) -> usize
    ensures { result ≡ length_of_bytes a b c d }
{
    ((usize::from(a) * 256 + usize::from(b)) * 256 + usize::from(c)) * 256 + usize::from(d)
}
