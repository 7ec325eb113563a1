ghost use Rattle.std.specs.Prelude.{◌<◌};
ghost use Rattle.wp_lengths.specs.Waves.{WavePicks};
ghost use Rattle.wp_cert.specs.Known.{AreKnown, IsKnown};

use wp_pairs::Batch;

/// The most orders that a batch has which is visited.
const MOST_ORDERS: u32 = 8;

/// A batch, and a number that its length is no less than.
#[derive(Clone, Copy)]
pub struct KnownLength {
    pub batch: Batch,
    pub least: u64,
}

/// For each number of orders, 0 to 8, what is known of the last place of so many that was entered. A visit goes from a
/// place to those after it, so these are mostly the places on the way to the one that it has reached.
#[derive(Drop)]
pub struct KnownLengths {
    kept: [KnownLength; 9],
}

// Where it is kept what is known of a batch of so many orders.
fn slot_of(orders: u32) -> usize
    ensures { result < 9 }
{
    orders.min(MOST_ORDERS) as usize
}

impl KnownLengths {
    /// What is known before a visit: the length of no order isn't below 0.
    pub fn none() -> KnownLengths
        ensures { (wave : WavePicks) → AreKnown wave result }
    {
        let none = KnownLength {
            batch: Batch::empty(),
            least: 0,
        };
        KnownLengths { kept: [none; 9] }
    }

    /// A number that the length of a batch is no less than: 0 where none is kept.
    pub fn of(&self, batch: Batch) -> u64
        ensures { (wave : WavePicks) → AreKnown wave self.now → IsKnown wave batch result }
    {
        let kept = self.kept[slot_of(batch.len())];
        if kept.batch.is(batch) { kept.least } else { 0 }
    }

    /// Keeps a number that the length of a batch of so many orders is no less than.
    pub fn keep(&mut self, orders: u32, batch: Batch, least: u64)
        ensures { (wave : WavePicks) → AreKnown wave self.old → IsKnown wave batch least
            → AreKnown wave self.new }
    {
        self.kept[slot_of(orders)] = KnownLength { batch, least };
    }
}
