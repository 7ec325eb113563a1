//! The turns of open orders after what a machine has answered, and waves of those that are served.
ghost use Rattle.std.specs.Prelude.{◌≡◌, ◌<◌, IfOk, map};
ghost use Rattle.std.specs.List.{All};
ghost use Rattle.std.specs.List.Sorted.{IsNonDecreasingBy};
ghost use Rattle.wp_model.specs.History.{state_after};
ghost use Rattle.wp_waves.specs.Filling.{waves_kept};
ghost use Rattle.wp_waves.specs.OpenOrders.{AreOpenOrders, IsOpenOrder};
ghost use Rattle.wp_waves.specs.Standing.{taker_in};
ghost use Rattle.wp_waves.specs.Turns.{AreTurns, one_of, rank_of, served_in};
ghost use Rattle.wp_waves.specs.Waves.{AreWavesOf};

use std::alloc::Global;
use wp_dispatch::free_stock_of;
use wp_grouping::arrange;
use wp_machine::{Machine, Opening};
use wp_model::{Memory, Name};
use wp_savings::{Seeking, keys_for};
use wp_waves::{OpenDay, OpenOrder, OrderTurn, serve, served};

// The day of an opening.
pub(crate) fn day_of(opening: &Opening) -> OpenDay<'_>
    ensures { result ≡ opening.now }
{
    OpenDay::of(opening.stock(), opening.orders(), opening.units())
}

// The turns of open orders after what a machine has answered, where these are the waves that have them.
pub(crate) fn turns_of(
    alloc: Global,
    opening: &Opening,
    machine: &Machine<'_>,
    listed: &[OpenOrder],
    takers: &[Option<Name>],
) -> Result<Vec<OrderTurn>, Memory>
    requires same { machine.now.opening ≡ opening.now }
    requires listed { AreOpenOrders opening.now.orders listed.now }
    requires takers { takers.now ≡ map (taker_in (state_after machine.now).waves) listed.now }
    ensures { IfOk result (λ turns. AreTurns opening.now (state_after machine.now) listed.now turns.items) }
{
    let day = day_of(opening);
    let free = free_stock_of(alloc, machine, day.articles())?;
    serve(alloc, &day, free, listed, takers)
}

// Waves of the orders that are served in turns: those that go well together, as far as such waves are right.
pub(crate) fn waves_of(
    alloc: Global,
    day: &OpenDay<'_>,
    turns: &[OrderTurn],
    seeking: &Seeking<'_>,
) -> Result<Vec<Vec<OpenOrder>>, Memory>
    requires room { 0 < seeking.now.sizes.wave }
    requires ranks { IsNonDecreasingBy rank_of (map one_of turns.now) }
    requires known { All (IsOpenOrder day.now.orders) (served_in turns.now) }
    ensures { IfOk result (λ waves. AreWavesOf seeking.now.sizes.wave (served_in turns.now)
        (waves_kept waves.items)) }
{
    let served = served(alloc, turns)?;
    let keys = keys_for(alloc, day, served.as_slice(), seeking)?;
    arrange(
        alloc,
        served.as_slice(),
        keys.as_slice(),
        seeking.sizes.wave,
    )
}
