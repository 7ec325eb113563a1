ghost use Rattle.std.specs.Prelude.{◌≡◌, IfSome, IsTrue, Some};
ghost use Rattle.std.specs.List.{before_first, after_first, position_or_len};
ghost use Rattle.wp_model.specs.Location.{location_of, side_of, is_dash};
ghost use Rattle.wp_model.specs.Plain.{is_plain_location};
ghost use Rattle.wp_model.specs.Journal.{location_text, side_text};

use crate::number::read_number;
use std::fmt;

/// The side of an aisle on which a slot's location lies.
#[derive(Clone, Copy, Debug, PartialEq, Eq, PartialOrd, Ord, Hash)]
pub enum Side {
    L,
    R,
}

/// A place for stock: the aisle and the slot, counted from 1, and the side. Locations are in order of aisle,
/// slot and side, L first.
#[derive(Clone, Copy, Debug, PartialEq, Eq, PartialOrd, Ord, Hash)]
pub struct Location {
    pub aisle: u32,
    pub slot: u32,
    pub side: Side,
}

fn read_side(text: &[u8]) -> Option<Side>
    ensures { result ≡ side_of text.now }
{
    match text {
        b"L" => Some(Side::L),
        b"R" => Some(Side::R),
        _ => None,
    }
}

fn dash_at(text: &[u8]) -> usize
    ensures { result ≡ position_or_len is_dash text.now }
{
    for (at, byte) in text.iter().enumerate() {
        if *byte == b'-' {
            return at;
        }
    }
    text.len()
}

fn split_at_dash(text: &[u8]) -> (&[u8], &[u8])
    ensures before { result.0.now ≡ before_first is_dash text.now }
    ensures after { result.1.now ≡ after_first is_dash text.now }
{
    let at = dash_at(text);
    if at < text.len() {
        (&text[..at], &text[at + 1..])
    } else {
        (text, &[])
    }
}

impl Location {
    /// The location that a text as `3-17-L` writes: two numbers of 1 to 5 digits, which may have leading zeros,
    /// and a side. None comes exactly where the text isn't of that form.
    pub fn read(text: &[u8]) -> Option<Location>
        ensures location { result ≡ location_of text.now }
        ensures plain { IfSome result (λ location. IsTrue (is_plain_location location)) }
    {
        let (aisle, rest) = split_at_dash(text);
        let (slot, side) = split_at_dash(rest);
        Some(Location {
            aisle: read_number(aisle, 5)? as u32,
            slot: read_number(slot, 5)? as u32,
            side: read_side(side)?,
        })
    }
}

impl fmt::Display for Side {
    ghost output = { λ side. Some (side_text side) };

    fn fmt<W: fmt::Write>(&self, f: &mut fmt::Formatter<W>) -> fmt::Result {
        f.write_str(match self {
            Side::L => "L",
            Side::R => "R",
        })
    }
}

impl fmt::Display for Location {
    ghost output = { λ location. Some (location_text location) };

    fn fmt<W: fmt::Write>(&self, f: &mut fmt::Formatter<W>) -> fmt::Result {
        let aisle = self.aisle;
        let slot = self.slot;
        let side = self.side;
        write!(f, "{aisle}-{slot}-{side}")
    }
}
