//! The text of waves that are sent out.
ghost use Rattle.std.specs.Prelude.{◌≡◌, ◌≤◌, IfOk, List, length, map};
ghost use Rattle.wp_model.specs.History.{state_after};
ghost use Rattle.wp_model.specs.Limits.{most_entries};
ghost use Rattle.wp_model.specs.State.{Wave};
ghost use Rattle.wp_outgoing.specs.Leaving.{AreOfStock, left_of};
ghost use Rattle.wp_outgoing.specs.Lines.{outgoing_text};
ghost use Rattle.wp_waves.specs.OpenOrders.{AreOpenOrders};
ghost use Rattle.wp_waves.specs.Standing.{taker_in};
ghost use Rattle.wp_waves_out.specs.SentOut.{AreSentOut, AreWaveTerms};

use crate::sent_out::{WaveTerms, waves_out};
use crate::turns::{day_of, turns_of};
use std::alloc::Global;
use std::thread::Threads;
use wp_dispatch::takers_of;
use wp_machine::{Machine, Opening};
use wp_model::{Memory, Name};
use wp_outgoing::{TurnsOut, left_of, print_outgoing};
use wp_outside::Gate;
use wp_planner::Planning;
use wp_waves::OpenOrder;

// Open orders, and the waves that have them, one by one.
#[derive(Clone, Copy)]
struct OpenList<'a> {
    listed: &'a [OpenOrder],
    takers: &'a [Option<Name>],
}

// The text that tells waves that go out, and the open orders that are left.
fn told(
    alloc: Global,
    opening: &Opening,
    open: &OpenList<'_>,
    out: &TurnsOut<'_>,
    desk: u32,
) -> Result<Vec<u8>, Memory>
    requires listed { AreOpenOrders opening.now.orders open.now.listed.now }
    requires count { length open.now.takers.now ≡ length open.now.listed.now }
    requires stock { out.now.stock.now ≡ opening.now.stock }
    requires articles { AreOfStock opening.now.stock out.now.turns.now }
    ensures { IfOk result (λ text. (taken : List Wave)
        → open.now.takers.now ≡ map (taker_in taken) open.now.listed.now
        → text.items ≡ outgoing_text desk out.now.waves.now
        (left_of opening.now taken out.now.turns.now out.now.waves.now open.now.listed.now)) }
{
    let day = day_of(opening);
    let left = left_of(alloc, &day, out, open.listed, open.takers)?;
    print_outgoing(alloc, desk, out.waves, left.as_slice())
}

/// Sends open orders out in waves, after what a machine has answered, and gives the text that tells which go out, in
/// which waves, and which are left: of the open orders that wait for their turn, by rank, each that is covered by what
/// is free in its turn is served, and served orders go out in the first waves, as many as are asked for at most and as
/// the journal has room for. The planning gives the layout, the opening that the machine has too, and the capacity of a
/// batch; a start is a plan's cost by its terms. An `Err` comes from a want of memory, or where the names of a group
/// are taken up to the number 99,999.
pub fn outgoing_text<R: Threads + Sync, G: Gate>(
    planning: &Planning<'_, R, G>,
    alloc: Global,
    machine: &mut Machine<'_>,
    listed: &[OpenOrder],
    terms: &WaveTerms,
) -> Result<Vec<u8>, Memory>
    requires terms { AreWaveTerms terms.now }
    requires same { machine.old.opening ≡ planning.now.opening.now }
    requires few { length machine.old.entries ≤ most_entries }
    requires listed { AreOpenOrders planning.now.opening.now.orders listed.now }
    ensures { IfOk result (λ text. AreSentOut planning.now.layout.now planning.now.terms.now.capacity
        machine.old terms.now listed.now text.items) }
{
    let takers = takers_of(alloc, machine, listed)?;
    let turns = turns_of(alloc, planning.opening, machine, listed, takers.as_slice())?;
    let waves = waves_out(planning, alloc, machine, turns.as_slice(), terms)?;
    let open = OpenList {
        listed,
        takers: takers.as_slice(),
    };
    let out = TurnsOut {
        stock: planning.opening.stock(),
        turns: turns.as_slice(),
        waves: waves.as_slice(),
    };
    told(alloc, planning.opening, &open, &out, terms.desk)
}
