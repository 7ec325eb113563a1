ghost use Rattle.std.specs.Prelude.{◌≡◌, ◌≤◌, ℕ, List, length, IfOk, []};
ghost use Rattle.wp_outside_tests.specs.declared.turns.counter.Added.{Added};

use std::alloc::Global;
use std::marker::Model;
use wp_model::{Cell, Chain, Memory};
use wp_turn::Turned;

/// An entry of the counter: who added how much.
#[derive(Clone, Copy, PartialEq)]
pub struct Added {
    pub caller: u32,
    pub number: u32,
}

/// What an addition is handed: the number, and the room for its entry.
#[derive(Drop)]
pub struct Addition {
    pub number: u32,
    room: Cell<Added>,
}

impl Addition {
    /// An addition of a number.
    pub fn of(alloc: Global, number: u32) -> Result<Addition, Memory>
        ensures { IfOk result (λ addition. addition.number ≡ number) }
    {
        let room = Cell::new(alloc)?;
        Ok(Addition { number, room })
    }
}

/// A counter that keeps each addition, none of which is greater than the most that it takes. Contracts see that and the
/// additions.
#[derive(Drop)]
pub struct Counter {
    most: u32,
    count: u64,
    added: Chain<Added>,
}

impl Model for Counter {
    ghost Value = { ℕ × List Added };

    ghost view = { λ c. (c.most, c.added) };

    ghost invariant = { λ c. c.count ≡ length c.added };
}

impl Counter {
    /// No additions.
    pub fn new(most: u32) -> Counter
        ensures { result ≡ (most, []) }
    {
        Counter {
            most,
            count: 0,
            added: Chain::new(),
        }
    }

    /// The sum of all that one caller added.
    pub fn count_of(&self, caller: u32) -> u32 {
        let mut chain = &self.added;
        let mut count: u32 = 0;
        while let Some((added, below)) = chain.split_last() {
            if added.caller == caller {
                count = count.saturating_add(1);
            }
            chain = below;
        }
        count
    }

    /// Whether what a caller added are the numbers from 0 up to another, each once and in order.
    pub fn has_in_order(&self, caller: u32, times: u32) -> bool {
        let mut chain = &self.added;
        let mut left = times;
        while let Some((added, below)) = chain.split_last() {
            if added.caller == caller {
                if left == 0 || added.number != left - 1 {
                    return false;
                }
                left -= 1;
            }
            chain = below;
        }
        left == 0
    }
}

impl Turned for Counter {
    type Entry = Added;

    type Setting = u32;

    type Ready = Addition;

    type Out = u64;

    ghost entries = { λ c. c.1 };

    ghost setting = { λ c. c.0 };

    ghost fits = { λ most addition. addition.number ≤ most };

    ghost entry = { λ most before caller addition. record { caller = caller; number = addition.number } };

    ghost answer = { λ most before caller addition. length before };

    fn count(&self) -> u64 {
        self.count
    }

    fn step(&mut self, caller: u32, ready: Addition) -> u64 {
        let Addition { number, room } = ready;
        let before = self.count;
        self.added.push(Added { caller, number }, room);
        self.count += 1;
        before
    }
}
