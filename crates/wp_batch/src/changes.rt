ghost use Rattle.std.specs.Prelude.{◌≡◌, ◌+◌, ◌<◌, ◌≤◌, ◌↔◌, ◌⊎◌, IsTrue, replicate, slice_index};
ghost use Rattle.wp_batch.specs.Changes.{HasChanged};

/// How many batches a batching has at most.
const MOST_BATCHES: usize = 64;

/// In which round each batch changed last, while all pairs of batches are gone through again and again. Before the
/// first round all have.
#[derive(Clone, Copy)]
pub struct Changes {
    round: u32,
    last: u32,
    changed: [u32; 64],
}

impl Changes {
    /// No round has begun.
    pub fn none() -> Changes
        ensures { result ≡ record { round = 0; last = 0; changed = replicate 64 0 } }
    {
        Changes {
            round: 0,
            last: 0,
            changed: [0; MOST_BATCHES],
        }
    }

    /// Begins a round, if some batch has changed in the one before it.
    pub fn begin_round(&mut self) -> bool
        ensures goes_on { IsTrue result ↔ (self.old.last ≡ self.old.round) }
        ensures next { self.old.round < u32.MAX → self.new.round ≡ self.old.round + 1 }
        ensures last { self.new.last ≡ self.old.last }
        ensures kept { self.new.changed ≡ self.old.changed }
    {
        let goes_on = self.last == self.round;
        self.round = self.round.saturating_add(1);
        goes_on
    }

    // Whether a batch has changed in this round or the one before it.
    fn has_changed(&self, place: usize) -> bool
        ensures { IsTrue result ↔ HasChanged self.now place }
    {
        place >= MOST_BATCHES || self.round <= self.changed[place].saturating_add(1)
    }

    /// Whether one of two batches has changed in this round or the one before it.
    pub fn is_fresh(&self, left: usize, right: usize) -> bool
        ensures { IsTrue result ↔ (HasChanged self.now left ⊎ HasChanged self.now right) }
    {
        self.has_changed(left) || self.has_changed(right)
    }

    /// Two batches change.
    pub fn change(&mut self, left: usize, right: usize)
        ensures left { left < 64 → slice_index self.new.changed left ≡ self.old.round }
        ensures right { right < 64 → slice_index self.new.changed right ≡ self.old.round }
        ensures last { self.new.last ≡ self.old.round }
        ensures round { self.new.round ≡ self.old.round }
    {
        self.last = self.round;
        if left < MOST_BATCHES {
            self.changed[left] = self.round;
        }
        if right < MOST_BATCHES {
            self.changed[right] = self.round;
        }
    }
}
