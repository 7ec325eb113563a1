ghost use Rattle.std.specs.Prelude.{◌≡◌, ◌+◌, ◌-◌, ◌*◌, ◌/◌, ◌^◌, ◌<◌, ◌≤◌, ◌==◌, ◌↔◌, ◌⊎◌, ℕ, [], IsTrue, Contains};
ghost use Rattle.std.specs.Prelude.{length, replicate, slice_index, bit_or};
ghost use Rattle.wp_model.specs.declared.point.Point.{Point as PointData};
ghost use Rattle.std.specs.Int.{bit_at};
ghost use Rattle.wp_model.specs.Limits.{most_aisles};
ghost use Rattle.wp_model.specs.Warehouse.{IsLayout, IsSlot, IsUpTo};
ghost use Rattle.wp_graph.specs.NeededAisles.{IsLastNeededBefore};
ghost use Rattle.wp_graph.specs.PickSets.{AreBareElsewhere, AreSlots, HasBitsOfBoth, HaveSlotIn};
ghost use Rattle.wp_graph.specs.Required.{has_point};

use crate::layout::Layout;
use std::marker::Model;
use wp_model::{MOST_AISLES, Point};

/// How many words of bits an aisle has.
pub const AISLE_WORDS: usize = 4;

/// How many words all aisles have. The first ones stand for no aisle.
const WORDS: usize = 260;

/// A set of slots of one layout. A slot that is picked on both sides counts once. Beside the bits of the slots it keeps
/// a word with those of the needed aisles: the depot's, and those in which it has a slot.
#[derive(Drop)]
pub struct Picks {
    layout: Layout,
    needed: u64,
    words: [u64; 260],
}

impl Model for Picks {
    ghost use Rattle.wp_graph.specs.PickSets.{KeepsSlots, PickSet, is_marked, points_where};

    ghost Value = { PickSet };

    ghost view = { λ p. record { layout = p.layout; points = points_where p.layout (is_marked p.words) } };

    ghost invariant = { λ p. KeepsSlots p.layout p.words p.needed };
}

// Whether a point is a slot of the layout.
fn is_slot(layout: &Layout, point: Point) -> bool
    ensures { IsTrue result ↔ IsSlot layout.now point }
{
    let aisle = 1 <= point.aisle && point.aisle <= layout.aisles();
    aisle && 1 <= point.slot && point.slot <= layout.slots()
}

// The word that has a slot's bit.
fn word_of(layout: &Layout, point: Point) -> usize
    requires { IsSlot layout.now point }
    ensures value { result ≡ 4 * point.aisle + point.slot / 64 }
    ensures within { result < 260 }
{
    let last = AISLE_WORDS * layout.aisles() as usize + layout.slots() as usize / 64;
    let enough = last < WORDS;
    prove!(enough);
    AISLE_WORDS * point.aisle as usize + point.slot as usize / 64
}

// Whether a word has a bit.
fn has_bit(word: u64, at: u32) -> bool
    requires { at < 64 }
    ensures { result ≡ (bit_at word at == 1) }
{
    (word >> at) & 1 == 1
}

// The bit of an aisle in the word of the needed aisles. The last aisle that a layout may have has the lowest one.
fn bit_of(aisle: u32) -> u64
    requires { IsUpTo most_aisles aisle }
    ensures { result ≡ 2 ^ (most_aisles - aisle) }
{
    1 << (MOST_AISLES - aisle)
}

// The bits of the needed aisles before an aisle: that of the one next to it is the lowest.
fn bits_before(needed: u64, aisle: u32) -> u64
    requires some { 1 ≤ aisle }
    requires last { aisle ≤ most_aisles + 1 }
    ensures { result ≡ needed / 2 ^ (most_aisles + 1 - aisle) }
{
    if aisle == 1 {
        0
    } else {
        needed >> (MOST_AISLES + 1 - aisle)
    }
}

// Words without a bit, enough for all aisles of the layout.
fn no_words(layout: &Layout) -> [u64; 260]
    ensures valid { IsLayout layout.now }
    ensures empty { result ≡ replicate 260 0 }
{
    let last = AISLE_WORDS * layout.aisles() as usize + AISLE_WORDS;
    let enough = last <= WORDS;
    prove!(enough);
    [0; WORDS]
}

impl Picks {
    /// No slot of the layout.
    pub fn new(layout: &Layout) -> Picks
        ensures layout { result.layout ≡ layout.now }
        ensures empty { result.points ≡ [] }
    {
        Picks {
            layout: *layout,
            needed: bit_of(layout.depot()),
            words: no_words(layout),
        }
    }

    /// Adds a slot.
    pub fn add(&mut self, point: Point)
        requires { IsSlot self.old.layout point }
        ensures layout { self.new.layout ≡ self.old.layout }
        ensures points { (p : PointData) → Contains self.new.points p
            ↔ (Contains self.old.points p ⊎ (p ≡ point)) }
    {
        let word = word_of(&self.layout, point);
        self.words[word] |= 1 << (point.slot % 64);
        self.needed |= bit_of(point.aisle);
    }

    /// Adds all slots of the other set, which is of the same layout.
    pub fn join(&mut self, other: &Picks)
        requires { self.old.layout ≡ other.now.layout }
        ensures layout { self.new.layout ≡ self.old.layout }
        ensures points { (p : PointData) → Contains self.new.points p
            ↔ (Contains self.old.points p ⊎ Contains other.now.points p) }
    {
        join_words(&mut self.words, &other.words, other.needed);
        self.needed |= other.needed;
    }

    /// Whether a slot is in the set. A point that is no slot of the layout is in none.
    pub fn has(&self, point: Point) -> bool
        ensures exact { IsTrue result ↔ Contains self.now.points point }
        ensures slots { AreSlots self.now.layout self.now.points }
    {
        is_slot(&self.layout, point)
            && has_bit(self.words[word_of(&self.layout, point)], point.slot % 64)
    }

    /// Whether a slot of the set lies in an aisle.
    pub fn has_in(&self, aisle: u32) -> bool
        requires { IsUpTo self.now.layout.aisles aisle }
        ensures exact { IsTrue result ↔ HaveSlotIn self.now.points aisle }
        ensures slots { AreSlots self.now.layout self.now.points }
    {
        for index in 0..AISLE_WORDS {
            if self.word(aisle, index) != 0 {
                return true;
            }
        }
        false
    }

    /// The last needed aisle before an aisle, where there is one. An aisle is needed if the depot lies in it or a slot
    /// of the set.
    pub fn needed_below(&self, aisle: u32) -> Option<u32>
        requires some { 1 ≤ aisle }
        requires last { aisle ≤ self.now.layout.aisles + 1 }
        ensures last { IsLastNeededBefore self.now.layout self.now.points aisle result }
        ensures slots { AreSlots self.now.layout self.now.points }
    {
        let before = bits_before(self.needed, aisle);
        if before == 0 {
            return None;
        }
        Some(aisle - 1 - before.trailing_zeros())
    }
}

impl Picks {
    // The word of an aisle whose bits stand for the places from 64 times its index on.
    pub(crate) fn word(&self, aisle: u32, index: usize) -> u64
        requires aisle { IsUpTo self.now.layout.aisles aisle }
        requires index { index < 4 }
        ensures bits { (k : ℕ) → k < 64 → (bit_at result k == 1)
            ≡ has_point self.now.points aisle (64 * index + k) }
        ensures slots { AreSlots self.now.layout self.now.points }
    {
        let last = AISLE_WORDS * self.layout.aisles() as usize + AISLE_WORDS;
        let enough = last <= WORDS;
        prove!(enough);
        self.words[AISLE_WORDS * aisle as usize + index]
    }
}

// The words of an aisle with the bits of the other's too.
fn join_aisle(words: &mut [u64; 260], other: &[u64; 260], aisle: u32)
    requires { aisle ≤ most_aisles }
    ensures whole { length words.new ≡ 260 }
    ensures here { (at : ℕ) → 4 * aisle ≤ at → at < 4 * aisle + 4
        → slice_index words.new at ≡ bit_or (slice_index words.old at) (slice_index other.now at) }
    ensures before { (at : ℕ) → at < 4 * aisle
        → slice_index words.new at ≡ slice_index words.old at }
    ensures behind { (at : ℕ) → 4 * aisle + 4 ≤ at
        → slice_index words.new at ≡ slice_index words.old at }
{
    let first = AISLE_WORDS * aisle as usize;
    for at in first..first + AISLE_WORDS {
        words[at] |= other[at];
    }
}

// Each word with the bits of the other's too, which has some in its needed aisles alone.
fn join_words(words: &mut [u64; 260], other: &[u64; 260], needed: u64)
    requires { AreBareElsewhere needed other.now }
    ensures whole { length words.new ≡ 260 }
    ensures each { (at : ℕ) → at < 260 → HasBitsOfBoth (slice_index words.old at)
        (slice_index other.now at) (slice_index words.new at) }
{
    let mut rest = needed;
    while rest != 0 {
        let low = rest.trailing_zeros();
        join_aisle(words, other, MOST_AISLES - low);
        rest &= !(1 << low);
    }
}
