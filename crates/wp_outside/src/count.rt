ghost use Rattle.std.specs.Prelude.{◌≡◌, ◌+◌, ◌<◌, OnOk, OnErr};

use std::marker::Model;
use wp_model::Memory;

/// How often something happened to a device. Clauses see a number.
#[derive(Drop)]
pub(crate) struct Count {
    count: u64,
}

impl Model for Count {
    ghost use Rattle.std.specs.Prelude.{ℕ};

    ghost Value = { ℕ };

    ghost view = { λ s. s.count };
}

impl Count {
    pub(crate) fn zero() -> Count
        ensures { result ≡ 0 }
    {
        Count { count: 0 }
    }

    /// Once more. A count at its end cannot rise, which is answered as out of memory.
    pub(crate) fn raise(&mut self) -> Result<(), Memory>
        ensures room { OnOk result (self.old < u64.MAX) }
        ensures risen { OnOk result (self.new ≡ self.old + 1) }
        ensures at_its_end { OnErr result ((self.old ≡ u64.MAX) × (self.new ≡ self.old)) }
    {
        if self.count == u64::MAX {
            return Err(Memory);
        }
        self.count += 1;
        Ok(())
    }
}
