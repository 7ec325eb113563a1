//! What desks ask, one after the other, in whatever order they come.
ghost use Rattle.std.specs.Prelude.{◌≡◌, ◌+◌, ◌<◌, ◌^◌, length, map, IfOk, IsTrue};
ghost use Rattle.std.specs.List.{All};
ghost use Rattle.wp_model.specs.History.{IsLegal, opened};
ghost use Rattle.wp_model.specs.Plain.{is_plain};
ghost use Rattle.wp_model.specs.Sound.{EachStateIsSound};
ghost use Rattle.wp_machine.specs.Machine.{asked_all, asking_of};

use crate::machine::Machine;
use std::alloc::Global;
use wp_floor::Opening;
use wp_model::{Command, Entries, Memory};

/// A desk, 1 to 8, and what it asks for.
#[derive(Drop)]
pub struct Asking {
    pub desk: u32,
    pub command: Command,
}

// A machine answers all that desks ask, one after the other.
fn answer_each(alloc: Global, machine: &mut Machine<'_>, askings: &[Asking]) -> Result<(), Memory>
    requires plain { All (λ asking. IsTrue (is_plain asking.command)) askings.now }
    requires few { length machine.old.entries + length askings.now < 2 ^ 32 }
    ensures { IfOk result (λ _. machine.new ≡ asked_all machine.old askings.now) }
{
    for asking in askings {
        machine.ask(alloc, asking.desk, asking.command.copy(alloc)?)?;
    }
    Ok(())
}

// A machine that answered all that desks ask, one after the other.
fn machine_asked<'a>(
    alloc: Global,
    opening: &'a Opening,
    askings: &[Asking],
) -> Result<Machine<'a>, Memory>
    requires plain { All (λ asking. IsTrue (is_plain asking.command)) askings.now }
    requires few { length askings.now < 2 ^ 32 }
    ensures { IfOk result (λ machine. machine ≡ asked_all (opened opening.now) askings.now) }
{
    let mut machine = Machine::open(alloc, opening)?;
    answer_each(alloc, &mut machine, askings)?;
    Ok(machine)
}

/// The entries of all that desks ask, each answered after the one before it. The lists are all interleavings of all
/// scripts, so whatever order the desks come in, the history is legal, holds just what they asked in this order, and
/// each of its states is sound.
pub fn answer_all(alloc: Global, opening: &Opening, askings: &[Asking]) -> Result<Entries, Memory>
    requires plain { All (λ asking. IsTrue (is_plain asking.command)) askings.now }
    requires few { length askings.now < 2 ^ 32 }
    ensures entries { IfOk result (λ entries. entries
        ≡ (asked_all (opened opening.now) askings.now).entries) }
    ensures asked { IfOk result (λ entries. map asking_of entries ≡ askings.now) }
    ensures legal { IfOk result (λ entries. IsLegal
        (record { opening = opening.now; entries = entries })) }
    ensures sound { IfOk result (λ entries. EachStateIsSound
        (record { opening = opening.now; entries = entries })) }
{
    let machine = machine_asked(alloc, opening, askings)?;
    machine.entries(alloc)
}
