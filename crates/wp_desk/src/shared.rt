ghost use Rattle.std.specs.Prelude.{◌≡◌};
ghost use Rattle.wp_desk.specs.Shared.{answer_of, entry_of};

use wp_machine::{Answer, Entry, Machine, Opening, Ready};
use wp_turn::Turned;

/// The machine, as the value that all desks call in turn.
#[derive(Drop)]
pub(crate) struct Shared<'a> {
    pub(crate) machine: Machine<'a>,
}

impl<'a> Turned for Shared<'a> {
    type Entry = Entry;

    type Setting = Opening;

    type Ready = Ready<'a>;

    type Out = Answer;

    ghost entries = { λ shared. shared.machine.entries };

    ghost setting = { λ shared. shared.machine.opening };

    ghost fits = { λ opening ready. ready.opening ≡ opening };

    ghost entry = { entry_of };

    ghost answer = { answer_of };

    fn count(&self) -> u64 {
        self.machine.count()
    }

    fn step(&mut self, caller: u32, ready: Ready<'a>) -> Answer {
        self.machine.step(caller, ready)
    }
}
