ghost use Rattle.std.specs.Prelude.{◌≡◌, false};
ghost use Rattle.wp_store.specs.InMemory.{next_fails, after_call, is_stopped};

use std::marker::Model;

/// Calls that are counted from 1, and which of them are to fail.
#[derive(Drop)]
pub(crate) struct DiskCalls {
    fails: Vec<u64>,
    stop: Option<u64>,
    most: u32,
    size: u64,
    made: u64,
    faults: u64,
}

impl Model for DiskCalls {
    ghost use Rattle.wp_store.specs.InMemory.{PlannedCalls};

    ghost Value = { PlannedCalls };

    ghost view = { λ s. record {
      fails = s.fails.items;
      stop = s.stop;
      most = s.most;
      size = s.size;
      made = s.made;
      faults = s.faults;
    } };
}

impl DiskCalls {
    pub(crate) fn of(fails: Vec<u64>, stop: Option<u64>, most: u32, size: u64) -> DiskCalls
        ensures { result
            ≡ record { fails = fails.items; stop = stop; most = most; size = size; made = 0; faults = 0 } }
    {
        DiskCalls {
            fails,
            stop,
            most,
            size,
            made: 0,
            faults: 0,
        }
    }

    /// The most bytes that the file may have.
    pub(crate) fn size(&self) -> u64
        ensures { result ≡ self.now.size }
    {
        self.size
    }

    /// Whether the next call is to fail.
    pub(crate) fn next_fails(&self) -> bool
        ensures { result ≡ next_fails self.now }
    {
        self.made >= u64::from(self.most)
            || is_stopped(self.stop, self.made)
            || self.fails.contains(&(self.made + 1))
    }

    /// Counts one more call, which failed or didn't. A count at its end stands.
    pub(crate) fn count(&mut self, failed: bool)
        ensures { self.new ≡ after_call self.old failed }
    {
        self.made = self.made.saturating_add(1);
        if failed {
            self.faults = self.faults.saturating_add(1);
        }
    }
}

/// Whether so many calls were made that the next one is after the stop.
fn is_stopped(stop: Option<u64>, made: u64) -> bool
    ensures { result ≡ is_stopped stop made }
{
    match stop {
        Some(most) => made >= most,
        None => false,
    }
}
