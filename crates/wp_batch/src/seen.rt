ghost use Rattle.std.specs.Prelude.{◌<◌, ◌≤◌, ◌↔◌, IsTrue, All, length};
ghost use Rattle.wp_lengths.specs.Lengths.{IsLengthOf};

use std::alloc::Global;
use wp_lengths::{Length, Places, Wave};
use wp_model::Memory;
use wp_pairs::Batch;

/// How many lengths are kept at most while batches are moved: 1 MiB has room for so many.
const MOST_SEEN: u64 = 65_536;

/// What a batch counts for that has orders of no wave: more than any tour is long.
const NO_LENGTH: u64 = 1 << 40;

/// The lengths of a wave's batches, and a table of those that were asked for. A batch has one entry there that it may
/// lie in, and of the batches that share an entry the last one lies in it. What is told decides which moves are tried,
/// and no promise rests on it.
#[derive(Drop)]
pub struct SeenLengths<'a> {
    wave: &'a Wave,
    places: Places,
    entries: Vec<Length>,
}

// Whether all orders of a batch are below a number.
fn is_below(orders: u32, batch: Batch) -> bool
    requires { orders ≤ 64 }
    ensures { IsTrue result ↔ All (λ order. order < orders) batch }
{
    let mut rest = batch;
    for order in 0..orders {
        rest = rest.without(order);
    }
    if rest.len() > 0 {
        return false;
    }
    true
}

/// The length of a batch whose orders are of the wave. Of another batch nothing is promised.
pub fn length_within(wave: &Wave, batch: Batch) -> u64
    ensures { All (λ order. order < length wave.now.orders) batch
        → IsLengthOf wave.now batch result }
{
    if is_below(wave.orders(), batch) {
        wave.batch_length(batch)
    } else {
        NO_LENGTH
    }
}

impl<'a> SeenLengths<'a> {
    // What the table tells decides which moves are tried, and no promise rests on it.
    /// The lengths of a wave's batches of at most so many orders, of which none was asked for.
    pub fn of(alloc: Global, wave: &'a Wave, capacity: u32) -> Result<SeenLengths<'a>, Memory> {
        let places = Places::of(wave.orders(), capacity);
        let mut entries = Vec::new(alloc);
        for _ in 0..places.count().min(MOST_SEEN) {
            entries.push(Length {
                batch: Batch::empty(),
                length: 0,
            })?;
        }
        Ok(SeenLengths {
            wave,
            places,
            entries,
        })
    }

    // The entry that a batch may lie in. Where there are more places than entries, these are as many as they can be.
    fn entry_of(&self, batch: Batch) -> usize {
        let place = self.places.place_of(batch).unwrap_or(0);
        (place % MOST_SEEN) as usize
    }

    // No promise rests on it: what a move saves is measured where it is kept.
    /// The length of a batch.
    pub fn length_of(&mut self, batch: Batch) -> u64 {
        let entry = self.entry_of(batch);
        match self.entries.get(entry) {
            Some(seen) if seen.batch.is(batch) => seen.length,
            _ => self.look_up(batch, entry),
        }
    }

    // The length of a batch that isn't in its entry, where it lies from then on.
    fn look_up(&mut self, batch: Batch, entry: usize) -> u64 {
        let length = length_within(self.wave, batch);
        if entry < self.entries.len() {
            self.entries[entry] = Length { batch, length };
        }
        length
    }

    // No promise rests on it: the cost of a batching is added up again where it is told.
    /// The sum of the lengths of batches.
    pub fn sum_of(&mut self, batches: &[Batch]) -> u64 {
        let mut sum: u64 = 0;
        for batch in batches {
            sum = sum.saturating_add(self.length_of(*batch));
        }
        sum
    }
}
