ghost use Rattle.std.specs.Prelude.{◌≡◌, ◌<◌, ◌≤◌, ◌↔◌, ℕ, All, IfSome, IsSome, IsTrue};
ghost use Rattle.wp_model.specs.HoldLists.{IsBefore, IsHoldWithin, Rises};
ghost use Rattle.wp_model.specs.Limits.{most_wave_orders};
ghost use Rattle.wp_planner.specs.Loads.{IsCartOf};
ghost use Rattle.wp_planner.specs.Released.{HasHold, IsListed, IsReleased};

use crate::loads::loaded_cart;
use std::marker::Model;
use wp_machine::{Opening, WaveHolds};
use wp_model::{Hold, MOST_WAVE_ORDERS};
use wp_pairs::Cart;

/// A wave that went out, and the opening in whose stock it holds units. Where carts hold so many units, the cart with
/// what each of its orders loads is made with it.
#[derive(Drop)]
pub(crate) struct ReleasedWave<'a> {
    opening: &'a Opening,
    wave: &'a WaveHolds,
    cart: Option<Cart>,
}

impl<'a> Model for ReleasedWave<'a> {
    ghost use Rattle.wp_planner.specs.Loads.{IsCartOf};
    ghost use Rattle.wp_planner.specs.Released.{IsReleased, Released};

    ghost Value = { Released };

    ghost view = { λ r. record { opening = r.opening.now; wave = r.wave.now } };

    ghost invariant = { λ r. IsReleased r.opening.now r.wave.now × IsCartOf r.opening.now.units r.wave.now r.cart };
}

// Whether a wave may have so many orders.
fn is_wave_size(orders: u32) -> bool
    ensures { IsTrue result ↔ ((1 ≤ orders) × (orders ≤ most_wave_orders)) }
{
    1 <= orders && orders <= MOST_WAVE_ORDERS
}

// Whether a hold is of some units, for one of so many orders, in one of so many rows.
fn is_within(hold: &Hold, orders: u32, rows: u32) -> bool
    ensures { IsTrue result ↔ IsHoldWithin orders rows hold.now }
{
    hold.order < orders && hold.row < rows && 0 < hold.quantity
}

// Whether that is so of each hold.
fn are_within(holds: &[Hold], orders: u32, rows: u32) -> bool
    ensures { IsTrue result ↔ All (IsHoldWithin orders rows) holds.now }
{
    holds.iter().all(|hold| is_within(hold, orders, rows))
}

// Whether a hold is for an earlier order than another, or for the same one in an earlier row.
fn is_before(first: &Hold, second: &Hold) -> bool
    ensures { IsTrue result ↔ IsBefore first.now second.now }
{
    first.order < second.order || (first.order == second.order && first.row < second.row)
}

// Whether holds are listed by order and then by row, each at a place of its own.
fn are_rising(holds: &[Hold]) -> bool
    ensures { IsTrue result ↔ Rises holds.now }
{
    for place in 1..holds.len() {
        if !is_before(&holds[place - 1], &holds[place]) {
            return false;
        }
    }
    true
}

// Whether a hold is for an order.
fn has_hold(holds: &[Hold], order: u32) -> bool
    ensures { IsTrue result ↔ HasHold holds.now order }
{
    holds.iter().any(|hold| hold.order == order)
}

// Whether each of so many orders has a hold.
fn are_filled(holds: &[Hold], orders: u32) -> bool
    ensures { IsTrue result ↔ ((order : ℕ) → order < orders → HasHold holds.now order) }
{
    for order in 0..orders {
        if !has_hold(holds, order) {
            return false;
        }
    }
    true
}

// Whether all holds are for one of so many orders in one of so many rows, are listed by order and then by row, and each
// order has one.
fn are_listed(holds: &[Hold], orders: u32, rows: u32) -> bool
    ensures { IsTrue result ↔ (All (IsHoldWithin orders rows) holds.now × Rises holds.now
        × ((order : ℕ) → order < orders → HasHold holds.now order)) }
{
    are_within(holds, orders, rows) && are_rising(holds) && are_filled(holds, orders)
}

// Whether a wave has 1 to 64 orders, each of which holds units, and all that it holds is held for one of them in one of
// so many rows, and is listed by order and then by row.
fn is_listed(wave: &WaveHolds, rows: u32) -> bool
    ensures { IsTrue result ↔ IsListed rows wave.now }
{
    let orders = wave.orders.len();
    is_wave_size(orders) && are_listed(wave.holds.as_slice(), orders, rows)
}

impl<'a> ReleasedWave<'a> {
    /// A wave as one that went out. None comes exactly where it isn't one that can have gone out.
    pub(crate) fn of(opening: &'a Opening, wave: &'a WaveHolds) -> Option<ReleasedWave<'a>>
        ensures there { IsSome result ↔ IsReleased opening.now wave.now }
        ensures is { IfSome result (λ released. released ≡ record {
          opening = opening.now;
          wave = wave.now;
        }) }
    {
        if !is_listed(wave, opening.stock().rows()) {
            return None;
        }
        match opening.units() {
            None => Some(ReleasedWave {
                opening,
                wave,
                cart: None,
            }),
            Some(units) => {
                let cart = Some(loaded_cart(units, wave)?);
                Some(ReleasedWave {
                    opening,
                    wave,
                    cart,
                })
            }
        }
    }

    /// The opening in whose stock it holds units.
    pub(crate) fn opening(&self) -> &Opening
        ensures { result.now ≡ self.now.opening }
    {
        self.opening
    }

    /// What it holds.
    pub(crate) fn wave(&self) -> &WaveHolds
        ensures wave { result.now ≡ self.now.wave }
        ensures released { IsReleased self.now.opening self.now.wave }
    {
        self.wave
    }

    /// The cart with what each order loads. None comes exactly where carts hold any number of units.
    pub(crate) fn cart(&self) -> Option<Cart>
        ensures { IsCartOf self.now.opening.units self.now.wave result }
    {
        self.cart
    }
}
