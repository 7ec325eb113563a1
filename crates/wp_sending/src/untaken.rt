//! The open orders where there is no open file.
ghost use Rattle.std.specs.Prelude.{◌≡◌, IfOk};
ghost use Rattle.wp_model.specs.History.{state_after};
ghost use Rattle.wp_sending.specs.Untaken.{with_untaken};
ghost use Rattle.wp_waves.specs.OpenFile.{open_without, whole_group};
ghost use Rattle.wp_waves.specs.OpenOrders.{AreOpenOrders};

use std::alloc::Global;
use wp_machine::{Machine, Opening};
use wp_model::{Memory, Name};
use wp_waves::OpenOrder;

// The group in which all orders leave.
fn whole_group() -> Name
    ensures { result ≡ whole_group }
{
    Name::new(b"W").unwrap()
}

// Adds an order in that group, where no wave has it.
fn add_untaken(
    listed: &mut Vec<OpenOrder>,
    order: Name,
    group: Name,
    taker: &Option<Name>,
) -> Result<(), Memory>
    ensures { IfOk result (λ _. listed.new.items ≡ with_untaken listed.old.items order group taker.now) }
{
    match taker {
        Some(_) => Ok(()),
        None => Ok(listed.push(OpenOrder {
            order,
            group,
            rank: 0,
        })?),
    }
}

/// The open orders where there is no open file: all orders of the opening that lie in no wave which isn't cancelled,
/// after what a machine has answered, as they stand in the order file, in the group `W` and of rank 0. `Memory` comes
/// from a want of memory alone.
pub fn untaken_orders(
    alloc: Global,
    opening: &Opening,
    machine: &Machine<'_>,
) -> Result<Vec<OpenOrder>, Memory>
    ensures listed { IfOk result (λ listed. listed.items
        ≡ open_without (state_after machine.now).waves opening.now.orders) }
    ensures read { IfOk result (λ listed. AreOpenOrders opening.now.orders listed.items) }
{
    let _stock = opening.stock();
    let orders = opening.orders();
    let group = whole_group();
    let mut listed = Vec::new(alloc);
    for number in 0..orders.count() {
        let order = orders.name(number);
        add_untaken(&mut listed, order, group, &machine.taker(&order))?;
    }
    Ok(listed)
}
