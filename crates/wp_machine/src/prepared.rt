//! What a command's step needs, prepared beforehand.
ghost use Rattle.std.specs.Prelude.{◌≡◌, IfOk, IsTrue};
ghost use Rattle.wp_model.specs.Plain.{is_plain};
ghost use Rattle.wp_model.specs.Tables.{IsReadOpening, row_number_from};
ghost use Rattle.wp_model.specs.declared.command.Command.TheVariants as command;
ghost use Rattle.wp_floor.specs.Floor.{order_number};
ghost use Rattle.wp_machine.specs.Prepared.{IsPreparedFor};

use std::alloc::Global;
use wp_floor::{Claim, NewWave, Opening, Rooms, size_fault};
use wp_model::{Command, Location, Memory, Name, Names, Reply};

/// What a command's step needs: its names looked up, and the memory that it may take.
#[derive(Drop)]
pub enum Prepared {
    /// A submit of no orders or of too many, which is refused whatever was submitted before.
    Refuse(Reply),
    Submit(NewWave),
    Allot(Name),
    Release(Name),
    Cancel(Name),
    Pick(Name, Claim),
    Missing(Name, Claim, Rooms),
    Receive {
        location: Location,
        row: Option<u32>,
        article: Name,
        quantity: u32,
    },
}

// What a submit needs.
fn prepared_submit(
    alloc: Global,
    opening: &Opening,
    name: &Name,
    orders: &Names,
) -> Result<Prepared, Memory>
    requires { IsReadOpening opening.now }
    ensures { IfOk result (IsPreparedFor opening.now (command.Submit name.now orders.now)) }
{
    match size_fault(orders) {
        Some(fault) => Ok(Prepared::Refuse(fault)),
        None => Ok(Prepared::Submit(NewWave::prepare(alloc, opening, name, orders)?)),
    }
}

// What a desk says of units that are held, with the order's number and the row at the location.
fn claim_of(opening: &Opening, order: &Name, location: &Location, quantity: u32) -> Claim
    ensures { result ≡ record {
      order = order.now;
      number = order_number opening.now order.now;
      location = location.now;
      row = row_number_from 0 opening.now.stock.rows location.now;
      quantity = quantity;
    } }
{
    Claim {
        order: *order,
        number: opening.orders().find(order),
        location: *location,
        row: opening.stock().row_at(*location),
        quantity,
    }
}

/// Looks the names of a command up, and takes the memory that its step may need.
pub fn prepared_for(alloc: Global, opening: &Opening, command: &Command) -> Result<Prepared, Memory>
    requires { IsTrue (is_plain command.now) }
    ensures { IfOk result (IsPreparedFor opening.now command.now) }
{
    let stock = opening.stock();
    match command {
        Command::Submit { wave, orders } => prepared_submit(alloc, opening, wave, orders),
        Command::Allot { wave } => Ok(Prepared::Allot(*wave)),
        Command::Release { wave } => Ok(Prepared::Release(*wave)),
        Command::Cancel { wave } => Ok(Prepared::Cancel(*wave)),
        Command::Pick {
            wave,
            order,
            location,
            quantity,
        } => Ok(Prepared::Pick(*wave, claim_of(opening, order, location, *quantity))),
        Command::Missing {
            wave,
            order,
            location,
            quantity,
        } => {
            let claim = claim_of(opening, order, location, *quantity);
            let rooms = Rooms::for_refill(alloc, opening, &claim)?;
            Ok(Prepared::Missing(*wave, claim, rooms))
        }
        Command::Receive {
            location,
            article,
            quantity,
        } => Ok(Prepared::Receive {
            location: *location,
            row: stock.row_at(*location),
            article: *article,
            quantity: *quantity,
        }),
    }
}
