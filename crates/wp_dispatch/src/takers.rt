//! The waves that have open orders.
ghost use Rattle.std.specs.Prelude.{◌≡◌, IfOk, map};
ghost use Rattle.wp_model.specs.History.{state_after};
ghost use Rattle.wp_waves.specs.Standing.{taker_in};

use std::alloc::Global;
use wp_machine::Machine;
use wp_model::{Memory, Name};
use wp_waves::OpenOrder;

/// The names of the waves that have open orders, of those that aren't cancelled, one by one. `Memory` comes from a
/// want of memory alone.
pub fn takers_of(
    alloc: Global,
    machine: &Machine<'_>,
    listed: &[OpenOrder],
) -> Result<Vec<Option<Name>>, Memory>
    ensures { IfOk result (λ takers. takers.items
        ≡ map (taker_in (state_after machine.now).waves) listed.now) }
{
    let mut takers = Vec::with_capacity(alloc, listed.len())?;
    for one in listed {
        takers.push(machine.taker(&one.order))?;
    }
    Ok(takers)
}
