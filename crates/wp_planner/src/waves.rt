ghost use Rattle.std.specs.Prelude.{IfOk};
ghost use Rattle.wp_planner.specs.Released.{IsWaveOf, LiesIn};

use crate::released::ReleasedWave;
use crate::slots::order_picks;
use std::alloc::Global;
use wp_graph::Layout;
use wp_lengths::Wave;
use wp_model::Memory;

/// The orders of a wave that went out, each with the slots of the layout at which it holds units. Orders keep their
/// places, and a slot counts once, whichever of its sides the rows lie on. Where carts hold so many units, the wave has
/// such a cart, in which each order loads what it holds.
pub(crate) fn wave_of(
    alloc: Global,
    layout: &Layout,
    released: &ReleasedWave<'_>,
) -> Result<Wave, Memory>
    requires { LiesIn layout.now released.now.opening.stock }
    ensures { IfOk result (IsWaveOf layout.now released.now.opening released.now.wave) }
{
    let _aisles = layout.aisles();
    let rows = released.opening().stock().as_rows();
    let wave = released.wave();
    let holds = wave.holds.as_slice();
    let picks = order_picks(alloc, layout, rows, holds, wave.orders.len())?;
    match released.cart() {
        Some(cart) => Ok(Wave::taking_with_cart(alloc, *layout, picks, cart)),
        None => Ok(Wave::taking(alloc, *layout, picks)),
    }
}
