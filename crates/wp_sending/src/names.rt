//! The names of the waves that a machine has submitted.
ghost use Rattle.std.specs.Prelude.{◌≡◌};
ghost use Rattle.wp_model.specs.Step.{is_among};

use wp_machine::Machine;
use wp_model::Name;
use wp_outgoing::WaveNames;

/// The names of the waves that a machine has submitted.
#[derive(Clone, Copy)]
pub struct SubmittedNames<'a, 'b> {
    pub machine: &'b Machine<'a>,
}

impl<'a, 'b> WaveNames for SubmittedNames<'a, 'b> {
    ghost use Rattle.std.specs.Prelude.{map};
    ghost use Rattle.wp_model.specs.History.{state_after};
    ghost use Rattle.wp_outgoing.specs.Names.{name_of};

    ghost names = { λ s. map name_of (state_after s.machine.now).waves };

    fn has(&self, name: &Name) -> bool {
        self.machine.state(name).is_some()
    }
}
