//! Units that are missing: they are written off, and held elsewhere where that can be.
ghost use Rattle.std.specs.Prelude.{◌≡◌, ◌≤◌, ◌<◌, true, false, List, Some, length, IfSome, IfNone};
ghost use Rattle.wp_model.specs.Book.{held_for};
ghost use Rattle.wp_model.specs.Demand.{free_units};
ghost use Rattle.wp_model.specs.State.{Wave};
ghost use Rattle.wp_model.specs.Step.{at_released, is_live, says_refilled, write_off};
ghost use Rattle.wp_model.specs.declared.command.Command.TheVariants as command;
ghost use Rattle.wp_model.specs.declared.reply.Reply.TheVariants as replies;
ghost use Rattle.wp_model.specs.declared.reply.WaveState.TheVariants as states;
ghost use Rattle.wp_floor.specs.Floor.{HasAnswered, HasStepped, IsAt, IsFloor, order_number, state_at, state_in};
ghost use Rattle.wp_floor.specs.Floor.{state_of};
ghost use Rattle.wp_floor.specs.Floor.{wave_of};
ghost use Rattle.wp_floor.specs.HeldUnits.{IsRowAt, KnowsOrder, held_of};
ghost use Rattle.wp_floor.specs.ReceivedUnits.{AllHaveArticles};
ghost use Rattle.wp_floor.specs.MissingUnits.{HasRefilled, HaveRefillSpace, HaveRoomsAt, IfAnswered, IfRefilled};
ghost use Rattle.wp_floor.specs.MissingUnits.{IsHeldElsewhere, TellsRefill};

use crate::floor::Floor;
use crate::held::{Claim, HeldUnits, claimed};
use crate::holding::Rooms;
use crate::opening::Opening;
use crate::picking::settle;
use crate::waves::KeptWave;
use wp_allot::{Want, gathered};
use wp_book::{Room, StockBook};
use wp_model::{Name, Reply};

/// What a loss comes to: as many units are held elsewhere, and are listed; or it is answered, since the units are
/// lost or the claim is refused.
#[derive(Drop)]
pub enum Missed {
    Refilled(Room),
    Answered(Reply),
}

// Holds as many units as were lost for their order, at other rows of their article, and lists them. None comes where
// those rows don't cover them, and changes nothing.
fn hold_elsewhere(
    book: &mut StockBook,
    number: u32,
    lost: HeldUnits,
    quantity: u32,
    rooms: Rooms,
) -> Option<Room>
    requires quantity { 0 < quantity }
    requires rooms { HaveRefillSpace book.old.rows lost.article quantity rooms }
    ensures held { IfSome result (IsHeldElsewhere number lost quantity book.old book.new) }
    ensures few { IfNone result (free_units book.old.rows lost.article (Some lost.row) < quantity) }
    ensures same { IfNone result (book.new ≡ book.old) }
{
    let Rooms { room, mut sheet } = rooms;
    let wants = [Want {
        order: lost.order,
        article: lost.article,
        quantity: u64::from(quantity),
    }];
    let except = Some(lost.row);
    if gathered::short_article(book, &wants, except).is_some() {
        return None;
    }
    gathered::allot(book, number, &wants, except, room, &mut sheet);
    Some(sheet)
}

// The units are written off, and held elsewhere where that can be.
fn write_off(
    book: &mut StockBook,
    opening: &Opening,
    number: u32,
    wave: &mut KeptWave,
    lost: HeldUnits,
    quantity: u32,
    rooms: Rooms,
) -> Missed
    requires quantity { 0 < quantity }
    requires held { quantity ≤ held_for book.old number lost.order lost.row }
    requires article { lost.article < length opening.now.stock.articles }
    requires rooms { HaveRefillSpace book.old.rows lost.article quantity rooms }
    ensures live { state_in wave.old.stage ≡ states.Released
        → is_live (state_in wave.new.stage) ≡ true }
    ensures refilled { IfRefilled result (λ room. (waves : List Wave)
        → IsAt opening.now book.old waves number wave.old
        → state_in wave.old.stage ≡ states.Released → lost.order < length wave.old.orders
        → HasRefilled opening.now (write_off opening.now (state_at book.old waves) number (wave_of wave.old) quantity
        (held_of lost)) book.old book.new waves
        number wave.old wave.new quantity room) }
    ensures stays { IfAnswered result (λ why. says_refilled why ≡ false) }
    ensures lost { IfAnswered result (λ why. (waves : List Wave)
        → IsAt opening.now book.old waves number wave.old
        → state_in wave.old.stage ≡ states.Released → lost.order < length wave.old.orders
        → HasAnswered opening.now (write_off opening.now (state_at book.old waves) number (wave_of wave.old) quantity
        (held_of lost)) book.old book.new waves
        number wave.old wave.new why) }
{
    book.take(number, lost.order, lost.row, quantity);
    let sheet = hold_elsewhere(book, number, lost, quantity, rooms);
    settle(book, number, wave);
    match sheet {
        Some(sheet) => Missed::Refilled(sheet),
        None => Missed::Answered(Reply::Lost {
            article: opening.stock().article(lost.article),
            units: quantity,
        }),
    }
}

/// Missing: units that are held are written off, and as many are held for their order at other rows of their article,
/// where these cover them.
pub fn missing_wave(
    book: &mut StockBook,
    opening: &Opening,
    number: u32,
    wave: &mut KeptWave,
    claim: &Claim,
    rooms: Rooms,
) -> Missed
    requires row { IsRowAt book.old.rows claim.now.location claim.now.row }
    requires order { KnowsOrder opening.now wave.old claim.now }
    requires quantity { 0 < claim.now.quantity }
    requires articles { AllHaveArticles opening.now book.old.rows }
    requires rooms { HaveRoomsAt book.old.rows claim.now.row claim.now.quantity rooms }
    ensures live { is_live (state_in wave.new.stage) ≡ is_live (state_in wave.old.stage) }
    ensures refilled { IfRefilled result (λ room. (waves : List Wave)
        → IsAt opening.now book.old waves number wave.old
        → HasRefilled opening.now (at_released (state_at book.old waves) number
        (wave_of wave.old) claim.now.order claim.now.location claim.now.quantity
        (write_off opening.now (state_at book.old waves) number (wave_of wave.old) claim.now.quantity)
        (state_in wave.old.stage))
        book.old book.new waves number wave.old wave.new claim.now.quantity room) }
    ensures stays { IfAnswered result (λ why. says_refilled why ≡ false) }
    ensures answered { IfAnswered result (λ why. (waves : List Wave)
        → IsAt opening.now book.old waves number wave.old
        → HasAnswered opening.now (at_released (state_at book.old waves) number
        (wave_of wave.old) claim.now.order claim.now.location claim.now.quantity
        (write_off opening.now (state_at book.old waves) number (wave_of wave.old) claim.now.quantity)
        (state_in wave.old.stage))
        book.old book.new waves number wave.old wave.new why) }
{
    match claimed(book, number, wave, claim) {
        Ok(held) => write_off(book, opening, number, wave, held, claim.quantity, rooms),
        Err(refusal) => Missed::Answered(refusal),
    }
}

impl Floor {
    /// Missing: units that are held for an order at a location are written off, and as many are held for it elsewhere,
    /// where other rows of the article cover them.
    pub fn missing(&mut self, opening: &Opening, name: &Name, claim: &Claim, rooms: Rooms) -> Missed
        requires floor { IsFloor opening.now self.old }
        requires row { IsRowAt (state_of self.old).rows claim.now.location claim.now.row }
        requires order { claim.now.number ≡ order_number opening.now claim.now.order }
        requires quantity { 0 < claim.now.quantity }
        requires rooms { HaveRoomsAt (state_of self.old).rows claim.now.row claim.now.quantity
            rooms }
        ensures out { IfRefilled result (λ room. HasStepped opening.now
            (command.Missing name.now claim.now.order claim.now.location claim.now.quantity) self.old self.new
            (replies.Refilled claim.now.quantity)) }
        ensures told { IfRefilled result (λ room. TellsRefill (state_of self.old)
            (state_of self.new) name.now room) }
        ensures stays { IfAnswered result (λ why. says_refilled why ≡ false) }
        ensures refused { IfAnswered result (λ why. HasStepped opening.now
            (command.Missing name.now claim.now.order claim.now.location claim.now.quantity) self.old self.new why) }
    {
        let Some(mut found) = self.waves.take_out(name) else {
            return Missed::Answered(Reply::UnknownWave);
        };
        let done = missing_wave(
            &mut self.book,
            opening,
            found.number,
            &mut found.wave,
            claim,
            rooms,
        );
        self.waves.put_back(found);
        done
    }
}
