ghost use Rattle.std.specs.Prelude.{replicate};

use std::alloc::Global;
use std::sync::Arc;
use wp_turn::Turned;

/// A value that counts its calls, and that shows whether it was dropped.
#[derive(Drop)]
pub struct Held {
    pub lent: Arc<u8, Global>,
    pub count: u64,
}

impl Turned for Held {
    type Entry = u8;

    type Setting = u8;

    type Ready = u8;

    type Out = u8;

    ghost entries = { λ h. replicate h.count 0 };

    ghost setting = { λ _. 0 };

    ghost fits = { λ _ _. Unit {0} };

    ghost entry = { λ _ _ _ _. 0 };

    ghost answer = { λ _ _ _ ready. ready };

    fn count(&self) -> u64 {
        self.count
    }

    fn step(&mut self, _caller: u32, ready: u8) -> u8 {
        self.count += 1;
        ready
    }
}
