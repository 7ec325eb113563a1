ghost use Rattle.std.specs.Prelude.{◌≡◌, ◌-◌, ◌+◌, ◌<◌, ◌≤◌, ◌↔◌, IsTrue, IsSome, IfSome, All};
ghost use Rattle.wp_model.specs.Limits.{greatest_length};
ghost use Rattle.wp_model.specs.Warehouse.{IsLayout, IsUpTo, depot_point, end_of, even_layout, spacing_after};
ghost use Rattle.wp_model.specs.Warehouse.End.{at_back};
ghost use Rattle.wp_graph.specs.Offsets.{aisle_offset};
ghost use Rattle.wp_graph.specs.Sites.{is_end};

use crate::offsets::Offsets;
use std::marker::Model;
use wp_model::{GREATEST_LENGTH, MOST_AISLES, MOST_SLOTS, Point};

/// A warehouse of one block: 1 to 64 parallel aisles of 1 to 200 slots, joined by a front and a back cross aisle, with
/// a length of its own from each aisle to the next one. The depot is the front or the back end of one of the aisles.
#[derive(Clone, Copy, PartialEq, Eq)]
pub struct Layout {
    aisles: u32,
    slots: u32,
    pitch: u32,
    clearance: u32,
    offsets: Offsets,
    depot: u32,
    back: bool,
}

impl Model for Layout {
    ghost use Rattle.wp_model.specs.Warehouse.{Layout as Block, IsLayout, end_of};
    ghost use Rattle.wp_model.specs.Warehouse.End.{at_back};
    ghost use Rattle.wp_graph.specs.Sites.{end_told, is_end};

    ghost Value = { Block };

    ghost view = { λ l. record {
      aisles = l.aisles;
      slots = l.slots;
      pitch = l.pitch;
      clearance = l.clearance;
      spacings = l.offsets;
      depot = l.depot;
      end = end_of l.back;
    } };

    ghost invariant = { λ l. IsLayout (record {
      aisles = l.aisles;
      slots = l.slots;
      pitch = l.pitch;
      clearance = l.clearance;
      spacings = l.offsets;
      depot = l.depot;
      end = end_of l.back;
    }) };

    ghost inverse = { λ l. record {
      aisles = l.aisles;
      slots = l.slots;
      pitch = l.pitch;
      clearance = l.clearance;
      offsets = l.spacings;
      depot = l.depot;
      back = is_end l.end at_back;
    } };

    ghost inverse_ok = { λ a h i. record {
      aisles = a.aisles;
      slots = a.slots;
      pitch = a.pitch;
      clearance = a.clearance;
      offsets = a.offsets;
      depot = a.depot;
      back = end_told a.back i;
    } };
}

fn is_up_to(most: u32, number: u32) -> bool
    ensures { IsTrue result ↔ IsUpTo most number }
{
    1 <= number && number <= most
}

// Whether each of the lengths is in its range.
fn are_lengths(lengths: &[u32]) -> bool
    ensures { IsTrue result ↔ All (IsUpTo greatest_length) lengths.now }
{
    for length in lengths {
        if !is_up_to(GREATEST_LENGTH, *length) {
            return false;
        }
    }
    true
}

impl Layout {
    /// The layout of these numbers, of which the spacings are the lengths from each aisle but the last to the next one,
    /// with the depot at the back end of its aisle or at the front one. None comes exactly where there isn't one
    /// spacing less than there are aisles, or a number is out of its range: 1 to 64 aisles, 1 to 200 slots, 1 to 10,000
    /// for the pitch, the clearance and each spacing, and a depot from 1 to the number of aisles.
    pub fn with(
        aisles: u32,
        slots: u32,
        pitch: u32,
        clearance: u32,
        spacings: &[u32],
        depot: u32,
        back: bool,
    ) -> Option<Layout>
        ensures exact { IsSome result ↔ IsLayout (record {
          aisles = aisles;
          slots = slots;
          pitch = pitch;
          clearance = clearance;
          spacings = spacings.now;
          depot = depot;
          end = end_of back;
        }) }
        ensures value { IfSome result (λ l. l ≡ record {
          aisles = aisles;
          slots = slots;
          pitch = pitch;
          clearance = clearance;
          spacings = spacings.now;
          depot = depot;
          end = end_of back;
        }) }
    {
        let counts = is_up_to(MOST_AISLES, aisles) && is_up_to(MOST_SLOTS, slots);
        let lengths = is_up_to(GREATEST_LENGTH, pitch) && is_up_to(GREATEST_LENGTH, clearance);
        if !counts || !lengths || !is_up_to(aisles, depot) {
            return None;
        }
        if spacings.len() != aisles as usize - 1 || !are_lengths(spacings) {
            return None;
        }
        Some(Layout {
            aisles,
            slots,
            pitch,
            clearance,
            offsets: Offsets::of(spacings),
            depot,
            back,
        })
    }

    /// The layout of these six numbers, with the same length between all neighbouring aisles and the depot in front.
    /// None comes exactly where one is out of its range: 1 to 64 aisles, 1 to 200 slots, 1 to 10,000 for the pitch, the
    /// clearance and the spacing, and a depot from 1 to the number of aisles.
    pub fn new(
        aisles: u32,
        slots: u32,
        pitch: u32,
        clearance: u32,
        spacing: u32,
        depot: u32,
    ) -> Option<Layout>
        ensures exact { IsSome result ↔ (IsUpTo greatest_length spacing
            × IsLayout (even_layout aisles slots pitch clearance spacing depot)) }
        ensures value { IfSome result (λ l. l ≡ even_layout aisles slots pitch clearance spacing
            depot) }
    {
        if !is_up_to(MOST_AISLES, aisles) || !is_up_to(GREATEST_LENGTH, spacing) {
            return None;
        }
        let spacings = [spacing; 63];
        Layout::with(
            aisles,
            slots,
            pitch,
            clearance,
            &spacings[..aisles as usize - 1],
            depot,
            false,
        )
    }

    /// The number of aisles, 1 to 64.
    pub fn aisles(&self) -> u32
        ensures value { result ≡ self.now.aisles }
        ensures valid { IsLayout self.now }
    {
        self.aisles
    }

    /// The number of slots of each aisle, 1 to 200.
    pub fn slots(&self) -> u32
        ensures value { result ≡ self.now.slots }
        ensures valid { IsLayout self.now }
    {
        self.slots
    }

    /// The length between neighbouring slots, 1 to 10,000.
    pub fn pitch(&self) -> u32
        ensures value { result ≡ self.now.pitch }
        ensures valid { IsLayout self.now }
    {
        self.pitch
    }

    /// The length from an end of an aisle to its nearest slot, 1 to 10,000.
    pub fn clearance(&self) -> u32
        ensures value { result ≡ self.now.clearance }
        ensures valid { IsLayout self.now }
    {
        self.clearance
    }

    /// How long the crossings from an aisle to a later one are together, at most 630,000.
    pub fn length_between(&self, aisle: u32, later: u32) -> u32
        requires first { 1 ≤ aisle }
        requires order { aisle ≤ later }
        requires last { later ≤ self.now.aisles }
        ensures value { result ≡ aisle_offset self.now later - aisle_offset self.now aisle }
        ensures valid { IsLayout self.now }
        ensures small { result ≤ 630000 }
    {
        self.offsets.at(later) - self.offsets.at(aisle)
    }

    /// The length from an aisle that isn't the last to the next one, 1 to 10,000.
    pub fn spacing_after(&self, left: u32) -> u32
        requires first { 1 ≤ left }
        requires last { left < self.now.aisles }
        ensures value { result ≡ spacing_after self.now left }
        ensures valid { IsLayout self.now }
    {
        let _ = &self.aisles;
        self.length_between(left, left + 1)
    }

    /// The aisle at one end of which the depot lies.
    pub fn depot(&self) -> u32
        ensures value { result ≡ self.now.depot }
        ensures valid { IsLayout self.now }
    {
        self.depot
    }

    /// Whether the depot lies at the back end of its aisle, and not at the front one.
    pub fn depot_back(&self) -> bool
        ensures value { result ≡ is_end self.now.end at_back }
        ensures valid { IsLayout self.now }
    {
        self.back
    }

    /// The point at which every tour begins and ends.
    pub fn depot_point(&self) -> Point
        ensures value { result ≡ depot_point self.now }
        ensures valid { IsLayout self.now }
    {
        Point {
            aisle: self.depot,
            slot: if self.back { self.slots + 1 } else { 0 },
        }
    }
}
