ghost use Rattle.std.specs.Prelude.{◌≡◌, ◌<◌};
ghost use Rattle.wp_draws.specs.Draws.{draw_at, next_state as state_behind};

use std::marker::Model;

/// The state after a state, by the linear congruential generator of 64 bits with the factor and the increment of MMIX
/// (Knuth, The Art of Computer Programming, volume 2).
pub fn next_state(state: u64) -> u64
    ensures { result ≡ state_behind state }
{
    state
        .wrapping_mul(6364136223846793005)
        .wrapping_add(1442695040888963407)
}

/// Numbers drawn one after the other. They follow from the first state alone. Contracts see the state.
#[derive(Drop)]
pub struct Draws {
    state: u64,
}

impl Model for Draws {
    ghost use Rattle.std.specs.Prelude.{ℕ};

    ghost Value = { ℕ };

    ghost view = { λ d. d.state };
}

impl Draws {
    /// The draws from a state on.
    pub fn from_state(state: u64) -> Draws
        ensures { result ≡ state }
    {
        Draws { state }
    }

    /// The state, which says all numbers that are to come.
    pub fn state(&self) -> u64
        ensures { result ≡ self.now }
    {
        self.state
    }

    /// The next number below this one.
    pub fn below(&mut self, end: u64) -> u64
        requires { 0 < end }
        ensures below { result < end }
        ensures state { self.new ≡ state_behind self.old }
        ensures value { result ≡ draw_at self.new end }
    {
        self.state = next_state(self.state);
        (self.state >> 33) % end
    }
}
