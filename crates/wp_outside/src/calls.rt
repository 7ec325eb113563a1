ghost use Rattle.std.specs.Prelude.{◌≡◌, ◌||◌, is_ok, IfOk};
ghost use Rattle.wp_outside.specs.InMemory.{has_number, is_to_fail, after_call};

use std::marker::Model;
use wp_model::Memory;

/// Calls that are numbered from 1, of which some are to fail.
#[derive(Drop)]
pub(crate) struct Calls {
    fails: Vec<u64>,
    made: u64,
    faults: u64,
}

impl Model for Calls {
    ghost use Rattle.std.specs.Prelude.{◌≤◌};
    ghost use Rattle.wp_outside.specs.InMemory.{NumberedCalls};

    ghost Value = { NumberedCalls };

    ghost view = { λ s. record { fails = s.fails.items; made = s.made; faults = s.faults } };

    ghost invariant = { λ s. s.faults ≤ s.made };
}

impl Calls {
    pub(crate) fn of(fails: Vec<u64>) -> Calls
        ensures { result ≡ record { fails = fails.items; made = 0; faults = 0 } }
    {
        Calls {
            fails,
            made: 0,
            faults: 0,
        }
    }

    /// Numbers the next call, and tells whether it fails: because its number says so, or because it
    /// is lost in any case. There is no number after 2^64 - 1, which is answered as out of memory.
    pub(crate) fn next_fails(&mut self, is_lost: bool) -> Result<bool, Memory>
        ensures numbered { is_ok result ≡ has_number self.old }
        ensures fails { IfOk result (λ fails. fails ≡ (is_to_fail self.old || is_lost)) }
        ensures counted { self.new ≡ after_call self.old (is_to_fail self.old || is_lost) }
    {
        if self.made == u64::MAX {
            return Err(Memory);
        }
        self.made += 1;
        let fails = self.fails.contains(&self.made) || is_lost;
        if fails {
            self.faults += 1;
        }
        Ok(fails)
    }
}
