//! Pick: units that are gone, and waves of which nothing is left.
ghost use Rattle.std.specs.Prelude.{◌≡◌, ◌≤◌, ◌<◌, true, List, length};
ghost use Rattle.wp_book.specs.Calls.{HoldsNone};
ghost use Rattle.wp_floor.specs.Floor.{HasAnswered, HasStepped, IsAt, IsFloor, order_number, state_at, state_in};
ghost use Rattle.wp_floor.specs.Floor.{state_of};
ghost use Rattle.wp_floor.specs.Floor.{wave_of};
ghost use Rattle.wp_floor.specs.HeldUnits.{IsRowAt, KnowsOrder, held_of};
ghost use Rattle.wp_model.specs.Book.{held_for};
ghost use Rattle.wp_model.specs.Opening.{Opening as OpeningData};
ghost use Rattle.wp_model.specs.State.{Wave};
ghost use Rattle.wp_model.specs.Step.{at_released, is_live, pick};
ghost use Rattle.wp_model.specs.declared.command.Command.TheVariants as command;
ghost use Rattle.wp_model.specs.declared.reply.WaveState.TheVariants as states;

use crate::floor::Floor;
use crate::held::{Claim, HeldUnits, claimed};
use crate::opening::Opening;
use crate::waves::{KeptWave, Stage};
use wp_book::StockBook;
use wp_model::{Name, Reply};

/// A wave that holds nothing more is done.
pub fn settle(book: &StockBook, number: u32, wave: &mut KeptWave)
    ensures none { HoldsNone book.now number → wave.new ≡ record wave.old { stage = Stage.Done } }
    ensures some { (HoldsNone book.now number → ⊥) → wave.new ≡ wave.old }
    ensures live { state_in wave.old.stage ≡ states.Released
        → is_live (state_in wave.new.stage) ≡ true }
{
    if book.holds_none(number) {
        wave.stage = Stage::Done;
    }
}

// The units that are held are gone.
fn take_picked(
    book: &mut StockBook,
    number: u32,
    wave: &mut KeptWave,
    held: HeldUnits,
    quantity: u32,
) -> Reply
    requires { quantity ≤ held_for book.old number held.order held.row }
    ensures live { state_in wave.old.stage ≡ states.Released
        → is_live (state_in wave.new.stage) ≡ true }
    ensures answered { (opening : OpeningData) (waves : List Wave)
        → IsAt opening book.old waves number wave.old → state_in wave.old.stage ≡ states.Released
        → held.order < length wave.old.orders
        → HasAnswered opening (pick (state_at book.old waves) number (wave_of wave.old) quantity (held_of held))
        book.old book.new waves number wave.old
        wave.new result }
{
    book.take(number, held.order, held.row, quantity);
    wave.picked = true;
    settle(book, number, wave);
    Reply::Picked
}

/// Pick: units that are held are gone.
pub fn pick_wave(book: &mut StockBook, number: u32, wave: &mut KeptWave, claim: &Claim) -> Reply
    requires row { IsRowAt book.old.rows claim.now.location claim.now.row }
    requires order { (opening : OpeningData) × KnowsOrder opening wave.old claim.now }
    ensures live { is_live (state_in wave.new.stage) ≡ is_live (state_in wave.old.stage) }
    ensures answered { (opening : OpeningData) (waves : List Wave)
        → IsAt opening book.old waves number wave.old
        → HasAnswered opening (at_released (state_at book.old waves) number
        (wave_of wave.old) claim.now.order claim.now.location claim.now.quantity
        (pick (state_at book.old waves) number (wave_of wave.old) claim.now.quantity) (state_in wave.old.stage))
        book.old book.new waves number wave.old wave.new result }
{
    match claimed(book, number, wave, claim) {
        Ok(held) => take_picked(book, number, wave, held, claim.quantity),
        Err(refusal) => refusal,
    }
}

impl Floor {
    /// Pick: units that are held for an order at a location are gone.
    pub fn pick(&mut self, opening: &Opening, name: &Name, claim: &Claim) -> Reply
        requires floor { IsFloor opening.now self.old }
        requires row { IsRowAt (state_of self.old).rows claim.now.location claim.now.row }
        requires order { claim.now.number ≡ order_number opening.now claim.now.order }
        ensures { HasStepped opening.now (command.Pick name.now claim.now.order claim.now.location
            claim.now.quantity) self.old self.new result }
    {
        let Some(mut found) = self.waves.take_out(name) else {
            return Reply::UnknownWave;
        };
        let reply = pick_wave(&mut self.book, found.number, &mut found.wave, claim);
        self.waves.put_back(found);
        reply
    }
}
