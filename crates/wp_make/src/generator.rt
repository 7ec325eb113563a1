//! The generator of made numbers, and the lines of orders that are drawn from it.
ghost use Rattle.std.specs.Prelude.{◌≡◌, ◌<◌};
ghost use Rattle.wp_draws.specs.Draws.{draw_at, next_state, state_after};
ghost use Rattle.wp_make.specs.Lines.{line_count, line_from};
ghost use Rattle.wp_model.specs.Warehouse.{IsUpTo};

use std::marker::Model;
use wp_draws::Draws;

/// How many slots a made aisle has.
pub(crate) const SLOTS: u32 = 40;

/// How many lines an order may have.
const MOST_LINES: u32 = 3;

/// How many units a line may want.
const MOST_UNITS: u32 = 5;

/// A generator of lines of orders, which follow from its first state alone. Contracts see its state.
#[derive(Drop)]
pub struct Generator {
    draws: Draws,
}

impl Model for Generator {
    ghost use Rattle.std.specs.Prelude.{ℕ};

    ghost Value = { ℕ };

    ghost view = { λ g. g.draws };
}

/// A line of a made order: the aisle and the slot where its article lies, counted from 1, and 1 to 5 units of it.
#[derive(Clone, Copy, PartialEq, Eq)]
pub struct MadeLine {
    pub aisle: u32,
    pub slot: u32,
    pub quantity: u32,
}

impl Generator {
    /// The generator whose first state is this number.
    pub fn new(number: u64) -> Generator
        ensures { result ≡ number }
    {
        Generator {
            draws: Draws::from_state(number),
        }
    }

    /// The state, which says all numbers that are to come.
    pub fn state(&self) -> u64
        ensures { result ≡ self.now }
    {
        self.draws.state()
    }

    /// The next number, below this one.
    pub fn draw(&mut self, below: u32) -> u32
        requires { 0 < below }
        ensures below { result < below }
        ensures state { self.new ≡ next_state self.old }
        ensures value { result ≡ draw_at self.new below }
    {
        self.draws.below(u64::from(below)) as u32
    }

    /// How many lines the next order has, 1 to 3.
    pub fn draw_line_count(&mut self) -> u32
        ensures count { result ≡ line_count self.old }
        ensures state { self.new ≡ next_state self.old }
    {
        1 + self.draw(MOST_LINES)
    }

    /// The next line of an order, in a warehouse of so many aisles with 40 slots each.
    pub fn draw_line(&mut self, aisles: u32) -> MadeLine
        requires { 0 < aisles }
        ensures line { result ≡ line_from aisles self.old }
        ensures state { self.new ≡ state_after 3 self.old }
        ensures aisle { IsUpTo aisles result.aisle }
        ensures slot { IsUpTo 40 result.slot }
        ensures quantity { IsUpTo 5 result.quantity }
    {
        let aisle = 1 + self.draw(aisles);
        let slot = 1 + self.draw(SLOTS);
        let quantity = 1 + self.draw(MOST_UNITS);
        MadeLine {
            aisle,
            slot,
            quantity,
        }
    }
}
