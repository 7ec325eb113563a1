//! Cancel: waves that are given up.
ghost use Rattle.std.specs.Prelude.{◌≡◌, true, false, List};
ghost use Rattle.wp_floor.specs.Floor.{HasAnswered, HasStepped, IsAt, IsFloor, state_at, state_in, wave_of};
ghost use Rattle.wp_floor.specs.Takers.{HasPut, HaveTakers, frees};
ghost use Rattle.wp_model.specs.Opening.{Opening as OpeningData};
ghost use Rattle.wp_model.specs.State.{Wave};
ghost use Rattle.wp_model.specs.Step.{cancel, give_up, is_live};
ghost use Rattle.wp_model.specs.declared.command.Command.TheVariants as command;

use crate::floor::{Floor, put_takers};
use crate::opening::Opening;
use crate::waves::{KeptWave, Stage};
use wp_book::StockBook;
use wp_model::{Name, Reply, WaveState};

// A wave is given up, and all that it holds goes back to free.
fn give_up(book: &mut StockBook, number: u32, wave: &mut KeptWave) -> Reply
    ensures cancelled { (frees result ≡ true) × (state_in wave.new.stage ≡ WaveState.Cancelled) }
    ensures answered { (opening : OpeningData) (waves : List Wave)
        → IsAt opening book.old waves number wave.old
        → HasAnswered opening (give_up (state_at book.old waves) number (wave_of wave.old)) book.old book.new waves
        number wave.old wave.new result }
{
    book.unhold(number);
    wave.stage = Stage::Cancelled;
    Reply::Cancelled
}

/// Cancel: a wave of which nothing was picked is given up.
pub fn cancel_wave(book: &mut StockBook, number: u32, wave: &mut KeptWave) -> Reply
    ensures cancelled { frees result ≡ true → (is_live (state_in wave.old.stage) ≡ true)
        × (state_in wave.new.stage ≡ WaveState.Cancelled) }
    ensures same { frees result ≡ false → wave.new ≡ wave.old }
    ensures answered { (opening : OpeningData) (waves : List Wave)
        → IsAt opening book.old waves number wave.old
        → HasAnswered opening (cancel (state_at book.old waves) number (wave_of wave.old) (state_in wave.old.stage))
        book.old book.new waves number
        wave.old wave.new result }
{
    match wave.stage.state() {
        WaveState::Submitted => give_up(book, number, wave),
        WaveState::Allotted => give_up(book, number, wave),
        WaveState::Released => {
            if wave.picked {
                Reply::Picking
            } else {
                give_up(book, number, wave)
            }
        }
        WaveState::Cancelled => Reply::WrongState(WaveState::Cancelled),
        WaveState::Done => Reply::WrongState(WaveState::Done),
    }
}

// The orders of a wave that was given up are free.
fn free_orders(takers: &mut [Option<Name>], wave: &KeptWave, reply: &Reply)
    requires { (opening : OpeningData) × HaveTakers opening wave.now takers.old }
    ensures freed { (opening : OpeningData) → HaveTakers opening wave.now takers.old
        → frees reply.now ≡ true
        → HasPut opening wave.now.orders None takers.old takers.new }
    ensures same { frees reply.now ≡ false → takers.new ≡ takers.old }
{
    if let Reply::Cancelled = reply {
        put_takers(takers, wave, &None);
    }
}

impl Floor {
    /// Cancel: a wave of which nothing was picked is given up, and its orders are free.
    pub fn cancel(&mut self, opening: &Opening, name: &Name) -> Reply
        requires { IsFloor opening.now self.old }
        ensures { HasStepped opening.now (command.Cancel name.now) self.old self.new result }
    {
        let Some(mut found) = self.waves.take_out(name) else {
            return Reply::UnknownWave;
        };
        let reply = cancel_wave(&mut self.book, found.number, &mut found.wave);
        free_orders(&mut self.takers, &found.wave, &reply);
        self.waves.put_back(found);
        reply
    }
}
