//! Which open orders are left, and why.
ghost use Rattle.std.specs.Prelude.{◌≡◌, ◌<◌, List, IfOk, IfSome, length, map};
ghost use Rattle.std.specs.List.{All};
ghost use Rattle.std.specs.Str.{bytes_eq};
ghost use Rattle.wp_model.specs.State.{Wave};
ghost use Rattle.wp_outgoing.specs.Leaving.{AreOfStock, goes_out, left_of, left_why};
ghost use Rattle.wp_outgoing.specs.Leaving.{short_in, short_why, why_left};
ghost use Rattle.wp_waves.specs.OpenFile.{is_open};
ghost use Rattle.wp_waves.specs.OpenOrders.{IsOpenOrder};
ghost use Rattle.wp_waves.specs.Standing.{taker_in};

use crate::left::{LeftOrder, LeftWhy, add_left};
use crate::lines::WaveOut;
use std::alloc::Global;
use wp_model::{Memory, Name};
use wp_tables::Stock;
use wp_waves::{OpenDay, OpenOrder, OrderTurn, Shortage, Standing, standing_of};

/// What the turns of open orders came to: the turns, with the stock whose articles they name, and the waves that go
/// out.
#[derive(Clone, Copy)]
pub struct TurnsOut<'a> {
    pub stock: &'a Stock,
    pub turns: &'a [OrderTurn],
    pub waves: &'a [WaveOut],
}

// Whether an open order is that of a name.
fn is_order(one: &OpenOrder, order: &Name) -> bool
    ensures { result ≡ bytes_eq one.now.order order.now }
{
    one.order == *order
}

// What the turn of an order came to.
fn short_of(turns: &[OrderTurn], order: &Name) -> Option<Shortage>
    ensures { result ≡ short_in turns.now order.now }
{
    for turn in turns {
        if is_order(&turn.one, order) {
            return turn.short;
        }
    }
    None
}

// Whether an order is one of a wave's.
fn has_order(wave: &[OpenOrder], order: &Name) -> bool
    ensures { result ≡ is_open wave.now order.now }
{
    wave.iter().any(|one| is_order(one, order))
}

// Whether an order goes out with one of these waves.
fn goes_out(waves: &[WaveOut], order: &Name) -> bool
    ensures { result ≡ goes_out waves.now order.now }
{
    waves
        .iter()
        .any(|wave| has_order(wave.orders.as_slice(), order))
}

// Why an order is left of which too little is free.
fn short_why(stock: &Stock, short: Shortage) -> LeftWhy
    requires { short.article < length stock.now.articles }
    ensures { result ≡ short_why stock.now short }
{
    LeftWhy::Short {
        article: stock.article(short.article),
        wanted: short.wanted,
        free: short.free,
    }
}

// Why an open order is left, from how it stands, what its turn came to, and whether it goes out.
fn left_why(
    stock: &Stock,
    standing: &Standing,
    short: Option<Shortage>,
    goes: bool,
) -> Option<LeftWhy>
    requires { IfSome short (λ s. s.article < length stock.now.articles) }
    ensures { result ≡ left_why stock.now standing.now short goes }
{
    match (standing, short) {
        (Standing::Taken(wave), _) => Some(LeftWhy::Taken(*wave)),
        (Standing::OverCart(units), _) => Some(LeftWhy::OverCart(*units)),
        (Standing::Waiting, Some(short)) => Some(short_why(stock, short)),
        (Standing::Waiting, None) if goes => None,
        (Standing::Waiting, None) => Some(LeftWhy::Later),
    }
}

// Why an open order is left, of which this is the wave that has it, of those that aren't cancelled.
fn why_left(
    day: &OpenDay<'_>,
    out: &TurnsOut<'_>,
    one: &OpenOrder,
    taker: &Option<Name>,
) -> Option<LeftWhy>
    requires stock { out.now.stock.now ≡ day.now.stock }
    requires is { IsOpenOrder day.now.orders one.now }
    requires articles { AreOfStock day.now.stock out.now.turns.now }
    ensures { (taken : List Wave) → taker.now ≡ taker_in taken one.now
        → result ≡ why_left day.now taken out.now.turns.now out.now.waves.now one.now }
{
    let standing = standing_of(day, one, taker);
    let short = short_of(out.turns, &one.order);
    let goes = goes_out(out.waves, &one.order);
    left_why(out.stock, &standing, short, goes)
}

/// The open orders that are left, as they stand in the open file, where these are the waves that have them, of those
/// that aren't cancelled, one by one: each that lies in such a wave, has more units than a cart holds, was short in its
/// turn, or goes out with none of the waves. `Memory` comes from a want of memory alone.
pub fn left_of(
    alloc: Global,
    day: &OpenDay<'_>,
    out: &TurnsOut<'_>,
    listed: &[OpenOrder],
    takers: &[Option<Name>],
) -> Result<Vec<LeftOrder>, Memory>
    requires stock { out.now.stock.now ≡ day.now.stock }
    requires each { All (IsOpenOrder day.now.orders) listed.now }
    requires articles { AreOfStock day.now.stock out.now.turns.now }
    requires count { length takers.now ≡ length listed.now }
    ensures { IfOk result (λ left. (taken : List Wave)
        → takers.now ≡ map (taker_in taken) listed.now
        → left.items ≡ left_of day.now taken out.now.turns.now out.now.waves.now listed.now) }
{
    let mut left = Vec::new(alloc);
    for place in 0..listed.len() {
        let one = &listed[place];
        let why = why_left(day, out, one, &takers[place]);
        add_left(&mut left, one.order, why)?;
    }
    Ok(left)
}
