ghost use Rattle.std.specs.Prelude.{◌≡◌, ◌≤◌, ℕ, replicate};
ghost use Rattle.wp_master.specs.Exchanges.{AreFilled, IsClear};
ghost use Rattle.wp_master.specs.Pivots.{Table as Shown};

/// How many places of a row are listed at most: as many as are stored over 64 orders.
pub(crate) const LISTED: usize = 66;

/// For each of the first places of a row, the first place from it on at which the row isn't 0, or the end of the row
/// where there is none.
#[derive(Clone, Copy)]
pub(crate) struct Filled {
    pub(crate) nexts: [usize; LISTED],
}

// Nothing is listed yet.
fn none_listed() -> [usize; LISTED]
    ensures { result ≡ replicate 66 0 }
{
    [0; LISTED]
}

impl Filled {
    // Nothing is listed yet: each place is as its own next.
    pub(crate) fn none() -> Filled
        ensures { (table : Shown) → (row : ℕ) → AreFilled table row result }
    {
        Filled {
            nexts: none_listed(),
        }
    }

    // The first place from one on at which the row isn't 0, as far as it is listed.
    #[inline(always)]
    pub(crate) fn next(&self, from: usize) -> usize
        ensures not_before { from ≤ result }
        ensures clear { (table : Shown) → (row : ℕ) → AreFilled table row self.now
            → IsClear table row from result }
    {
        if from < LISTED {
            self.nexts[from].max(from)
        } else {
            from
        }
    }

    // Lists the place that is the next from one on.
    pub(crate) fn list(&mut self, from: usize, next: usize)
        ensures { (table : Shown) → (row : ℕ) → AreFilled table row self.old
            → IsClear table row from next → AreFilled table row self.new }
    {
        if from < LISTED {
            self.nexts[from] = next;
        }
    }
}
