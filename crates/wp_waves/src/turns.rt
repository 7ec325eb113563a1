//! Which open orders are served, each in its turn.
ghost use Rattle.std.specs.Prelude.{◌≡◌, ℕ, IfOk, length, map};
ghost use Rattle.std.specs.List.{All};
ghost use Rattle.std.specs.List.Sorted.{IsNonDecreasingBy};
ghost use Rattle.wp_model.specs.State.{State};
ghost use Rattle.wp_waves.specs.OpenOrders.{IsOpenOrder};
ghost use Rattle.wp_waves.specs.Standing.{taker_in};
ghost use Rattle.wp_waves.specs.Turns.{AreInTurn, AreTurns, free_in, one_of, rank_of, served_after, served_in};
ghost use Rattle.wp_waves.specs.Turns.{turns_of, units_free};

use crate::day::OpenDay;
use crate::free_stock::{FreeStock, Shortage};
use crate::open_orders::OpenOrder;
use crate::standings::waiting;
use std::alloc::Global;
use wp_model::{Memory, Name};

/// An open order in its turn: what it is short of, none where it is served.
#[derive(Clone, Copy)]
pub struct OrderTurn {
    pub one: OpenOrder,
    pub short: Option<Shortage>,
}

// Puts open orders into their turns.
fn sort_by_rank(listed: &mut Vec<OpenOrder>) -> Result<(), Memory>
    ensures { IfOk result (λ _. AreInTurn listed.old.items listed.new.items) }
{
    listed.sort_by_key(|one| one.rank)?;
    Ok(())
}

// What comes of open orders, each in its turn.
fn take_turns(
    alloc: Global,
    day: &OpenDay<'_>,
    mut free: FreeStock,
    listed: &[OpenOrder],
) -> Result<Vec<OrderTurn>, Memory>
    requires each { All (IsOpenOrder day.now.orders) listed.now }
    requires count { length free.units.items ≡ length day.now.stock.articles }
    ensures { IfOk result (λ turns. turns.items ≡ turns_of day.now (units_free free) listed.now) }
{
    let mut turns = Vec::new(alloc);
    for one in listed {
        let short = free.serve(day.lines(&one.order));
        turns.push(OrderTurn { one: *one, short })?;
    }
    Ok(turns)
}

/// The turns of open orders, where so much of each article is free, and these are the waves that have the orders, of
/// those that aren't cancelled, one by one.
pub fn serve(
    alloc: Global,
    day: &OpenDay<'_>,
    free: FreeStock,
    listed: &[OpenOrder],
    takers: &[Option<Name>],
) -> Result<Vec<OrderTurn>, Memory>
    requires articles { length free.units.items ≡ length day.now.stock.articles }
    requires each { All (IsOpenOrder day.now.orders) listed.now }
    requires count { length takers.now ≡ length listed.now }
    ensures { IfOk result (λ turns. (state : State)
        → ((article : ℕ) → units_free free article ≡ free_in state article)
        → takers.now ≡ map (taker_in state.waves) listed.now → AreTurns day.now state listed.now turns.items) }
{
    let mut waiting = waiting(alloc, day, listed, takers)?;
    sort_by_rank(&mut waiting)?;
    take_turns(alloc, day, free, waiting.as_slice())
}

// Adds the order of a turn to those that are served, where it is.
fn add_served(served: &mut Vec<OpenOrder>, turn: &OrderTurn) -> Result<(), Memory>
    ensures { IfOk result (λ _. served.new.items
        ≡ served_after turn.now.short turn.now.one served.old.items) }
{
    match turn.short {
        Some(_) => Ok(()),
        None => Ok(served.push(turn.one)?),
    }
}

/// The orders of turns that are served, in the order in which they are served.
pub fn served(alloc: Global, turns: &[OrderTurn]) -> Result<Vec<OpenOrder>, Memory>
    ensures served { IfOk result (λ served. served.items ≡ served_in turns.now) }
    ensures ranks { IsNonDecreasingBy rank_of (map one_of turns.now)
        → IfOk result (λ served. IsNonDecreasingBy rank_of served.items) }
{
    let mut served = Vec::new(alloc);
    for turn in turns {
        add_served(&mut served, turn)?;
    }
    Ok(served)
}
