//! Waves that a desk submits and releases, one after the other.
ghost use Rattle.std.specs.Prelude.{◌≡◌, ◌+◌, ◌*◌, ◌≤◌, ◌∷◌, [], true, IfOk, length, map};
ghost use Rattle.std.specs.List.{All};
ghost use Rattle.wp_machine.specs.Outcome.{released_in, tells_holds};
ghost use Rattle.wp_model.specs.History.{state_after};
ghost use Rattle.wp_model.specs.Limits.{most_entries, most_wave_orders};
ghost use Rattle.wp_outgoing.specs.Sending.{AreDone, orders_of, sending_of, sendings_of};
ghost use Rattle.wp_sending.specs.Sent.{asked_after, sent_after};
ghost use Rattle.wp_waves.specs.Filling.{waves_kept};
ghost use Rattle.wp_waves.specs.OpenOrders.{order_of};

use std::alloc::Global;
use wp_machine::{Machine, Outcome, WaveHolds};
use wp_model::{Command, Memory, Name, Names};
use wp_waves::OpenOrder;

// The names of orders.
fn order_names(alloc: Global, orders: &[OpenOrder]) -> Result<Names, Memory>
    requires { length orders.now ≤ most_wave_orders }
    ensures { IfOk result (λ names. names ≡ map order_of orders.now) }
{
    let mut names = Vec::new(alloc);
    for one in orders {
        names.push(one.order)?;
    }
    Ok(Names::of(names))
}

// What a wave holds that went out.
fn wave_of(outcome: Outcome) -> WaveHolds
    requires { tells_holds outcome ≡ true }
    ensures { released_in outcome ≡ result ∷ [] }
{
    match outcome {
        Outcome::Released(wave) => wave,
        Outcome::Plain | Outcome::Refilled(_) => unreachable!(),
    }
}

// A desk submits a wave under its name and releases it, and gives what it holds.
fn send_wave(
    alloc: Global,
    machine: &mut Machine<'_>,
    desk: u32,
    name: &Name,
    orders: &[OpenOrder],
) -> Result<WaveHolds, Memory>
    requires few { length orders.now ≤ most_wave_orders }
    requires room { length machine.old.entries + 2 ≤ most_entries }
    requires done { AreDone machine.old.opening (state_after machine.old)
        (sending_of name.now (map order_of orders.now)) }
    ensures history { IfOk result (λ _. machine.new ≡ asked_after machine.old desk
        (sending_of name.now (map order_of orders.now))) }
    ensures sent { IfOk result (λ sent. sent_after machine.old
        (sending_of name.now (map order_of orders.now)) ≡ sent ∷ []) }
{
    let orders = order_names(alloc, orders)?;
    let wave = *name;
    machine.ask(alloc, desk, Command::Submit { wave, orders })?;
    let answer = machine.ask(alloc, desk, Command::Release { wave })?;
    Ok(wave_of(answer.outcome))
}

/// A desk submits waves under their names and releases them, one after the other, each of which is done; and gives what
/// each of them holds, one by one. `Memory` comes from a want of memory alone.
pub fn send_out(
    alloc: Global,
    machine: &mut Machine<'_>,
    desk: u32,
    names: &[Name],
    waves: &[Vec<OpenOrder>],
) -> Result<Vec<WaveHolds>, Memory>
    requires names { length names.now ≡ length waves.now }
    requires few { All (λ wave. length wave ≤ most_wave_orders) (waves_kept waves.now) }
    requires room { length machine.old.entries + 2 * length waves.now ≤ most_entries }
    requires done { AreDone machine.old.opening (state_after machine.old)
        (sendings_of names.now (orders_of (waves_kept waves.now))) }
    ensures history { IfOk result (λ _. machine.new ≡ asked_after machine.old desk
        (sendings_of names.now (orders_of (waves_kept waves.now)))) }
    ensures sent { IfOk result (λ sent. sent.items ≡ sent_after machine.old
        (sendings_of names.now (orders_of (waves_kept waves.now)))) }
    ensures count { IfOk result (λ sent. length sent.items ≡ length waves.now) }
{
    let mut sent = Vec::new(alloc);
    for place in 0..waves.len() {
        let wave = send_wave(alloc, machine, desk, &names[place], waves[place].as_slice())?;
        sent.push(wave)?;
    }
    Ok(sent)
}
