//! Waves that a machine sends out, with their names and starts.
ghost use Rattle.std.specs.Prelude.{◌≡◌, ◌+◌, ◌*◌, ◌≤◌, IfOk, List, length, map};
ghost use Rattle.std.specs.List.{All};
ghost use Rattle.std.specs.List.Sorted.{IsNonDecreasingBy};
ghost use Rattle.wp_model.specs.History.{state_after};
ghost use Rattle.wp_model.specs.Limits.{most_entries, most_wave_orders};
ghost use Rattle.wp_outgoing.specs.Names.{HasShortGroup};
ghost use Rattle.wp_outgoing.specs.Sending.{AreDone};
ghost use Rattle.wp_sending.specs.Sent.{sent_after};
ghost use Rattle.wp_waves.specs.Filling.{waves_kept};
ghost use Rattle.wp_waves.specs.OpenOrders.{AreOpenOrders, IsOpenOrder};
ghost use Rattle.wp_waves.specs.Turns.{AreTurns, one_of, rank_of, served_in};
ghost use Rattle.wp_waves.specs.Waves.{AreWavesOf};
ghost use Rattle.wp_waves.specs.declared.open_orders.OpenOrder.{OpenOrder as OpenOrderData};
ghost use Rattle.wp_waves_out.specs.NamedWaves.{AreSentNamed, MayBeSent, SendsReleased, commands_of};
ghost use Rattle.wp_waves_out.specs.SentOut.{AreWaveTerms, GoOut};
ghost use Rattle.wp_waves_out.specs.Starts.{AreStarts};

use crate::starts::starts_of;
use crate::turns::{day_of, waves_of};
use std::alloc::Global;
use std::thread::Threads;
use wp_dispatch::{printed_desk_files_are_read, waves_of_served_orders_may_be_printed};
use wp_machine::Machine;
use wp_model::{Memory, Name};
use wp_outgoing::{
    WaveOut, names_of, waves_of_served_orders_go_out, waves_of_served_orders_may_be_named,
    waves_with_room, with_names,
};
use wp_outside::Gate;
use wp_planner::Planning;
use wp_savings::{Seeking, Sizes};
use wp_sending::{SubmittedNames, send_out};
use wp_waves::{OpenOrder, OrderTurn};

/// What is asked of waves: how many orders each may have, 1 to 64; how many may go out, up to 500; the desk that sends
/// them out, 1 to 8; and the effort with which orders are sought that go well together.
#[derive(Clone, Copy)]
pub struct WaveTerms {
    pub wave: u32,
    pub most: u32,
    pub desk: u32,
    pub effort: u32,
}

// Waves under their names, and the desk that sends them out.
#[derive(Clone, Copy)]
struct NamedWaves<'a> {
    desk: u32,
    names: &'a [Name],
    waves: &'a [Vec<OpenOrder>],
}

// Sends waves out, and gives their starts.
fn starts_after<R: Threads + Sync, G: Gate>(
    planning: &Planning<'_, R, G>,
    alloc: Global,
    machine: &mut Machine<'_>,
    named: &NamedWaves<'_>,
) -> Result<Vec<u64>, Memory>
    requires same { machine.old.opening ≡ planning.now.opening.now }
    requires names { length named.now.names.now ≡ length named.now.waves.now }
    requires few { All (λ wave. length wave ≤ most_wave_orders) (waves_kept named.now.waves.now) }
    requires room { length machine.old.entries + 2 * length named.now.waves.now ≤ most_entries }
    requires done { AreDone machine.old.opening (state_after machine.old)
        (commands_of named.now.names.now (waves_kept named.now.waves.now)) }
    requires released { SendsReleased machine.old }
    ensures starts { IfOk result (λ starts. AreStarts planning.now.layout.now
        planning.now.opening.now planning.now.terms.now.capacity
        (sent_after machine.old (commands_of named.now.names.now (waves_kept named.now.waves.now)))
        starts.items) }
    ensures count { IfOk result (λ starts. length starts.items ≡ length named.now.waves.now) }
{
    let sent = send_out(alloc, machine, named.desk, named.names, named.waves)?;
    starts_of(planning, alloc, sent.as_slice())
}

// Sends waves out under their names.
fn send_named<R: Threads + Sync, G: Gate>(
    planning: &Planning<'_, R, G>,
    alloc: Global,
    machine: &mut Machine<'_>,
    desk: u32,
    waves: &[Vec<OpenOrder>],
) -> Result<Vec<WaveOut>, Memory>
    requires same { machine.old.opening ≡ planning.now.opening.now }
    requires short { All HasShortGroup (waves_kept waves.now) }
    requires few { All (λ wave. length wave ≤ most_wave_orders) (waves_kept waves.now) }
    requires room { length machine.old.entries + 2 * length waves.now ≤ most_entries }
    requires done { MayBeSent machine.old (waves_kept waves.now) }
    requires released { SendsReleased machine.old }
    ensures { IfOk result (λ out. AreSentNamed planning.now.layout.now planning.now.terms.now.capacity
        machine.old (waves_kept waves.now) out.items) }
{
    let names = names_of(alloc, &SubmittedNames { machine }, waves)?;
    let named = NamedWaves {
        desk,
        names: names.as_slice(),
        waves,
    };
    let starts = starts_after(planning, alloc, machine, &named)?;
    with_names(alloc, names.as_slice(), waves, starts.as_slice())
}

// Waves of the orders that are served in turns, sought in the layout, for batches and waves of the sizes asked for.
fn sought_waves<R: Threads + Sync, G: Gate>(
    planning: &Planning<'_, R, G>,
    alloc: Global,
    turns: &[OrderTurn],
    terms: &WaveTerms,
) -> Result<Vec<Vec<OpenOrder>>, Memory>
    requires terms { AreWaveTerms terms.now }
    requires ranks { IsNonDecreasingBy rank_of (map one_of turns.now) }
    requires known { All (IsOpenOrder planning.now.opening.now.orders) (served_in turns.now) }
    ensures { IfOk result (λ waves. AreWavesOf terms.now.wave (served_in turns.now) (waves_kept waves.items)) }
{
    let sizes = Sizes {
        batch: planning.terms.capacity().most as usize,
        wave: terms.wave as usize,
    };
    let seeking = Seeking {
        layout: planning.layout,
        sizes,
        effort: terms.effort,
    };
    waves_of(alloc, &day_of(planning.opening), turns, &seeking)
}

/// Sends the orders out that are served in turns, in waves: the first ones of right waves, as many as are asked for at
/// most, and as the journal has room for. The laws that it calls say that these may be named, go out, and are printed
/// as a desk file that is read again as their commands.
pub(crate) fn waves_out<R: Threads + Sync, G: Gate>(
    planning: &Planning<'_, R, G>,
    alloc: Global,
    machine: &mut Machine<'_>,
    turns: &[OrderTurn],
    terms: &WaveTerms,
) -> Result<Vec<WaveOut>, Memory>
    requires terms { AreWaveTerms terms.now }
    requires same { machine.old.opening ≡ planning.now.opening.now }
    requires few { length machine.old.entries ≤ most_entries }
    requires turns { (listed : List OpenOrderData)
        × AreOpenOrders machine.old.opening.orders listed
        × AreTurns machine.old.opening (state_after machine.old) listed turns.now }
    ensures { IfOk result (λ out. GoOut planning.now.layout.now planning.now.terms.now.capacity
        machine.old terms.now turns.now out.items) }
{
    waves_of_served_orders_may_be_named();
    waves_of_served_orders_go_out();
    waves_of_served_orders_may_be_printed();
    printed_desk_files_are_read();
    let waves = sought_waves(planning, alloc, turns, terms)?;
    let all = waves.as_slice();
    let going = waves_with_room(all.len() as u64, u64::from(terms.most), machine.count());
    send_named(planning, alloc, machine, terms.desk, &all[..going as usize])
}
