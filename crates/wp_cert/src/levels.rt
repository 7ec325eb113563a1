ghost use Rattle.std.specs.Prelude.{◌≡◌, ◌<◌, ◌^◌, ◌++◌, ◌⊎◌, ℕ, All, Contains, length};
ghost use Rattle.wp_model.specs.Tours.{IsShortest};
ghost use Rattle.wp_lengths.specs.Lengths.{IsLengthOf, batch_picks};
ghost use Rattle.wp_cert.specs.Levels.{AreLevels, IsBoth, IsLevel};

use wp_fast::KeptWays;
use wp_graph::{Layout, Picks};
use wp_lengths::Wave;
use wp_pairs::Batch;
use wp_visit::Place;

/// The most orders that a place has to which one more item is added.
const MOST_BEFORE: u32 = 7;

/// In how many aisles an order picks at most that isn't wide.
const FEW_AISLES: u32 = 4;

/// A batch and the slots at which its orders pick, with the ways through each aisle.
#[derive(Drop)]
pub(crate) struct Level {
    pub batch: Batch,
    pub kept: KeptWays,
}

/// For each number of orders, 0 to 7, the level of the last place of so many after which others were measured. A visit
/// goes from a place to those after it, so these are mostly the places on the way to the one that it has place.
#[derive(Drop)]
pub struct Levels {
    // the orders that pick in many aisles
    wide: Batch,
    kept: [Option<Level>; 8],
}

// Where the level of a place is kept.
fn level_of(place: Batch) -> usize
    ensures { result < 8 }
{
    place.len().min(MOST_BEFORE) as usize
}

// The orders of a batch that aren't in another.
fn missing_in(batch: Batch, other: Batch) -> Batch
    ensures within { (order : ℕ) → Contains result order → Contains batch order }
    ensures all { (order : ℕ) → Contains batch order
        → Contains other order ⊎ Contains result order }
{
    let mut missing = batch;
    for order in 0..64 {
        if other.has(order) {
            missing = missing.without(order);
        }
    }
    missing
}

// The length of a shortest tour past what the orders of a level and those of another batch pick.
fn length_with(wave: &Wave, level: &Level, added: Batch) -> u64
    requires level { IsLevel wave.now level.now }
    requires orders { All (λ order. order < length wave.now.orders) added }
    ensures is { IsShortest wave.now.layout (batch_picks wave.now level.now.batch
        ++ batch_picks wave.now added) result }
    ensures small { result < 2 ^ 28 }
{
    match added.least() {
        Some(order) if added.len() == 1 => level.kept.length_with(wave.order(order)),
        _ => level.kept.length_with(&wave.union_of(added)),
    }
}

// The level of a batch, from one of some of its orders.
fn raised(wave: &Wave, level: &Level, batch: Batch) -> Level
    requires level { IsLevel wave.now level.now }
    requires orders { All (λ order. order < length wave.now.orders) batch }
    requires some { (order : ℕ) → Contains level.now.batch order → Contains batch order }
    ensures level { IsLevel wave.now result }
    ensures batch { result.batch ≡ batch }
{
    let missing = wave.union_of(missing_in(batch, level.batch));
    Level {
        batch,
        kept: level.kept.with(&missing),
    }
}

// The level of no order.
fn lowest(wave: &Wave) -> Level
    ensures level { IsLevel wave.now result }
    ensures batch { (order : ℕ) → Contains result.batch order → ⊥ }
{
    Level {
        batch: Batch::empty(),
        kept: KeptWays::new(&wave.layout()),
    }
}

// Whether picks lie in many aisles.
fn are_wide(layout: &Layout, picks: &Picks) -> bool
    requires { picks.now.layout ≡ layout.now }
{
    let mut count: u32 = 0;
    for aisle in 1..layout.aisles() + 1 {
        count = count.saturating_add(u32::from(picks.has_in(aisle)));
    }
    count > FEW_AISLES
}

// The orders of a wave that pick in many aisles.
fn wide_orders(wave: &Wave) -> Batch {
    let layout = wave.layout();
    let mut wide = Batch::empty();
    for order in 0..wave.orders() {
        if are_wide(&layout, wave.order(order)) {
            wide = wide.with(order);
        }
    }
    wide
}

impl Levels {
    /// No level, for the places of a wave.
    pub fn none(wave: &Wave) -> Levels
        ensures { AreLevels wave.now result }
    {
        Levels {
            wide: wide_orders(wave),
            kept: [None, None, None, None, None, None, None, None],
        }
    }

    // The level of a batch, from the highest that is kept of some of its orders.
    fn made_for(&self, wave: &Wave, batch: Batch) -> Level
        requires levels { AreLevels wave.now self.now }
        requires orders { All (λ order. order < length wave.now.orders) batch }
        ensures level { IsLevel wave.now result }
        ensures batch { result.batch ≡ batch }
    {
        for lower in 0..8 {
            if let Some(level) = &self.kept[7 - lower] {
                if level.batch.union(batch).is(batch) {
                    return raised(wave, level, batch);
                }
            }
        }
        raised(wave, &lowest(wave), batch)
    }

    // Keeps the level of a batch.
    fn keep(&mut self, wave: &Wave, batch: Batch)
        requires levels { AreLevels wave.now self.old }
        requires orders { All (λ order. order < length wave.now.orders) batch }
        ensures { AreLevels wave.now self.new }
    {
        let level = self.made_for(wave, batch);
        self.kept[level_of(batch)] = Some(level);
    }

    // Whether the level of a batch is kept.
    fn has(&self, batch: Batch) -> bool {
        match &self.kept[level_of(batch)] {
            Some(level) => level.batch.is(batch),
            None => false,
        }
    }

    // The length of a place that is reached, where the level of the place before it is kept by what was added to it.
    fn measured(&self, wave: &Wave, place: &Place) -> u64
        requires levels { AreLevels wave.now self.now }
        requires orders { All (λ order. order < length wave.now.orders) place.now.batch }
        requires both { IsBoth place.now }
        ensures is { IsLengthOf wave.now place.now.batch result }
        ensures small { result < 2 ^ 28 }
    {
        match &self.kept[level_of(place.before)] {
            Some(level) if level.batch.is(place.before) => { length_with(wave, level, place.added) }
            _ => wave.batch_length(place.batch),
        }
    }

    /// The length of a place that is place. Where an order of the place before it picks in many aisles, a level of
    /// that place is kept from then on, and only what was added is counted; else that would be no less work.
    pub fn length_of(&mut self, wave: &Wave, place: &Place) -> u64
        requires levels { AreLevels wave.now self.old }
        requires orders { All (λ order. order < length wave.now.orders) place.now.batch }
        requires both { IsBoth place.now }
        ensures is { IsLengthOf wave.now place.now.batch result }
        ensures small { result < 2 ^ 28 }
        ensures levels { AreLevels wave.now self.new }
    {
        if !place.before.meets(self.wide) {
            return wave.batch_length(place.batch);
        }
        if !self.has(place.before) {
            self.keep(wave, place.before);
        }
        self.measured(wave, place)
    }
}
