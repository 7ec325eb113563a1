//! What a command is answered, and what is told beside the reply.
ghost use Rattle.std.specs.Prelude.{◌≡◌, ◌+◌, ◌<◌, ◌^◌};
ghost use Rattle.wp_model.specs.declared.command.Command.{Command as CommandData};
ghost use Rattle.wp_model.specs.declared.command.Command.TheVariants as command;
ghost use Rattle.wp_machine.specs.Answering.{IsAnswer};
ghost use Rattle.wp_floor.specs.Floor.{IsFloor, order_number, state_of, wave_count};
ghost use Rattle.wp_floor.specs.HeldUnits.{IsRowAt};
ghost use Rattle.wp_machine.specs.Prepared.{IsPreparedFor};
ghost use Rattle.wp_floor.specs.MissingUnits.{HaveRoomsAt};

use crate::outcome::{Answer, Outcome, Refill, WaveHolds};
use crate::prepared::Prepared;
use wp_book::Room;
use wp_floor::{Claim, Floor, HeldOrders, Missed, Opening, Released, Rooms};
use wp_model::{Name, Reply};

// An answer that tells nothing beside its reply.
fn plain(number: u64, reply: Reply) -> Answer
    ensures { result ≡ record { number = number; reply = reply; outcome = Outcome.Plain } }
{
    Answer {
        number,
        reply,
        outcome: Outcome::Plain,
    }
}

// The answer of a wave that went out: it tells all that the wave holds.
fn released(number: u64, wave: Name, sheet: HeldOrders) -> Answer
    ensures { result ≡ record {
      number = number;
      reply = Reply.Released;
      outcome = Outcome.Released
          (record { number = number; wave = wave; orders = sheet.orders; holds = sheet.room.holds });
    } }
{
    let HeldOrders { orders, room } = sheet;
    Answer {
        number,
        reply: Reply::Released,
        outcome: Outcome::Released(WaveHolds {
            number,
            wave,
            orders,
            holds: room.into_holds(),
        }),
    }
}

// The answer of units that are held elsewhere: it tells what is held in their place.
fn refilled(number: u64, wave: Name, claim: &Claim, room: Room) -> Answer
    ensures { result ≡ record {
      number = number;
      reply = Reply.Refilled claim.now.quantity;
      outcome = Outcome.Refilled (record { number = number; wave = wave; order = claim.now.order; holds = room.holds });
    } }
{
    Answer {
        number,
        reply: Reply::Refilled(claim.quantity),
        outcome: Outcome::Refilled(Refill {
            number,
            wave,
            order: claim.order,
            holds: room.into_holds(),
        }),
    }
}

// Answers a release.
fn answer_release(floor: &mut Floor, opening: &Opening, number: u64, name: Name) -> Answer
    requires { IsFloor opening.now floor.old }
    ensures { IsAnswer opening.now number (command.Release name) floor.old floor.new result }
{
    match floor.release(opening, &name) {
        Released::Out(sheet) => released(number, name, sheet),
        Released::Refused(reply) => plain(number, reply),
    }
}

// A loss as a desk tells it: the wave's name, the claim of the units that are missing, and room for what may be held in
// their place.
#[derive(Drop)]
struct ToldLoss {
    name: Name,
    claim: Claim,
    rooms: Rooms,
}

// Answers a loss.
fn answer_missing(floor: &mut Floor, opening: &Opening, number: u64, loss: ToldLoss) -> Answer
    requires floor { IsFloor opening.now floor.old }
    requires row { IsRowAt (state_of floor.old).rows loss.claim.location loss.claim.row }
    requires order { loss.claim.number ≡ order_number opening.now loss.claim.order }
    requires quantity { 0 < loss.claim.quantity }
    requires rooms { HaveRoomsAt (state_of floor.old).rows loss.claim.row loss.claim.quantity loss.rooms }
    ensures { IsAnswer opening.now number (command.Missing loss.name loss.claim.order loss.claim.location
        loss.claim.quantity) floor.old floor.new result }
{
    let ToldLoss { name, claim, rooms } = loss;
    match floor.missing(opening, &name, &claim, rooms) {
        Missed::Refilled(room) => refilled(number, name, &claim, room),
        Missed::Answered(reply) => plain(number, reply),
    }
}

/// Answers a command by what was prepared for it, as the entry with a number. It takes no memory.
pub fn answer_prepared(
    floor: &mut Floor,
    opening: &Opening,
    number: u64,
    prepared: Prepared,
) -> Answer
    requires floor { IsFloor opening.now floor.old }
    requires prepared { (asked : CommandData) × IsPreparedFor opening.now asked prepared }
    requires few { wave_count floor.old + 1 < 2 ^ 32 }
    ensures { (asked : CommandData) → IsPreparedFor opening.now asked prepared
        → IsAnswer opening.now number asked floor.old floor.new result }
{
    match prepared {
        Prepared::Refuse(reply) => plain(number, reply),
        Prepared::Submit(new) => plain(number, floor.submit(opening, new)),
        Prepared::Allot(name) => plain(number, floor.allot(opening, &name)),
        Prepared::Release(name) => answer_release(floor, opening, number, name),
        Prepared::Cancel(name) => plain(number, floor.cancel(opening, &name)),
        Prepared::Pick(name, claim) => plain(number, floor.pick(opening, &name, &claim)),
        Prepared::Missing(name, claim, rooms) => {
            answer_missing(floor, opening, number, ToldLoss { name, claim, rooms })
        }
        Prepared::Receive {
            location,
            row,
            article,
            quantity,
        } => plain(
            number,
            floor.receive(opening, &location, row, &article, quantity),
        ),
    }
}
