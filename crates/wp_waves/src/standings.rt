//! Which open orders wait for their turn, and why the others don't.
ghost use Rattle.std.specs.Prelude.{◌≡◌, ◌<◌, ◌^◌, List, IfOk, IsTrue, length, map, None};
ghost use Rattle.std.specs.List.{All};
ghost use Rattle.wp_model.specs.Opening.{is_known_order, line_units};
ghost use Rattle.wp_model.specs.State.{Wave};
ghost use Rattle.wp_waves.specs.OpenOrders.{IsOpenOrder};
ghost use Rattle.wp_waves.specs.Standing.{is_waiting, standing_at_cart, standing_of, taker_in, waiting_of};

use crate::day::OpenDay;
use crate::open_orders::OpenOrder;
use std::alloc::Global;
use wp_model::{Line, Memory, Name};

/// How an open order stands before any has its turn.
#[derive(Clone, Copy)]
pub enum Standing {
    /// It lies in the wave of this name, which isn't cancelled.
    Taken(Name),
    /// It has so many units, which are more than a cart holds.
    OverCart(u32),
    /// It waits for its turn.
    Waiting,
}

// The units of all lines of an order together, which are at most 5,000,000.
fn line_units(lines: &[Line]) -> u32
    requires { line_units lines.now < 2 ^ 32 }
    ensures { result ≡ line_units lines.now }
{
    let mut units = 0;
    for line in lines {
        units += line.quantity;
    }
    units
}

// How an order stands that no wave has.
fn standing_at_cart(day: &OpenDay<'_>, order: &Name) -> Standing
    requires { IsTrue (is_known_order day.now.orders order.now) }
    ensures { result ≡ standing_at_cart day.now order.now }
{
    let Some(cart) = day.units() else {
        return Standing::Waiting;
    };
    let units = line_units(day.lines(order));
    if units > cart {
        Standing::OverCart(units)
    } else {
        Standing::Waiting
    }
}

/// How an open order stands, of which this is the wave that has it, of those that aren't cancelled: the first that
/// holds of being taken by a wave, having more units than a cart holds, and waiting for its turn.
pub fn standing_of(day: &OpenDay<'_>, one: &OpenOrder, taker: &Option<Name>) -> Standing
    requires { IsOpenOrder day.now.orders one.now }
    ensures { (waves : List Wave) → taker.now ≡ taker_in waves one.now
        → result ≡ standing_of day.now waves one.now }
{
    match *taker {
        Some(wave) => Standing::Taken(wave),
        None => standing_at_cart(day, &one.order),
    }
}

// Whether an order waits for its turn.
fn is_waiting(standing: &Standing) -> bool
    ensures { result ≡ is_waiting standing.now }
{
    matches!(standing, Standing::Waiting)
}

/// The open orders that wait for their turn, as they stand in the open file, where these are the waves that have them,
/// of those that aren't cancelled, one by one.
pub fn waiting(
    alloc: Global,
    day: &OpenDay<'_>,
    listed: &[OpenOrder],
    takers: &[Option<Name>],
) -> Result<Vec<OpenOrder>, Memory>
    requires each { All (IsOpenOrder day.now.orders) listed.now }
    requires count { length takers.now ≡ length listed.now }
    ensures each { IfOk result (λ waiting. All (IsOpenOrder day.now.orders) waiting.items) }
    ensures waiting { IfOk result (λ waiting. (waves : List Wave) → takers.now
        ≡ map (taker_in waves) listed.now
        → waiting.items ≡ waiting_of day.now waves listed.now) }
{
    let mut waiting = Vec::new(alloc);
    for place in 0..listed.len() {
        let one = &listed[place];
        if is_waiting(&standing_of(day, one, &takers[place])) {
            waiting.push(*one)?;
        }
    }
    Ok(waiting)
}
