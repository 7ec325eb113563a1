//! Allot: waves for which stock is held.
ghost use Rattle.std.specs.Prelude.{◌≡◌, List};
ghost use Rattle.wp_floor.specs.Floor.{AreSameRows, HasAnswered, HasPapers, HasStepped, IsAt, IsFloor, state_at};
ghost use Rattle.wp_floor.specs.Floor.{state_in, wave_of};
ghost use Rattle.wp_model.specs.State.{Wave};
ghost use Rattle.wp_model.specs.Step.{allot, is_live};
ghost use Rattle.wp_model.specs.declared.command.Command.TheVariants as command;

use crate::floor::Floor;
use crate::holding::{Unmet, hold_stock};
use crate::opening::Opening;
use crate::waves::{KeptWave, Stage};
use std::mem;
use wp_book::StockBook;
use wp_model::{Name, Reply};

/// Allot: stock is held for a wave that was submitted, where free stock covers it.
pub fn allot_wave(
    book: &mut StockBook,
    opening: &Opening,
    number: u32,
    wave: &mut KeptWave,
) -> Reply
    requires papers { HasPapers opening.now wave.old.stage book.old number wave.old }
    requires rows { AreSameRows opening.now book.old.rows }
    ensures live { is_live (state_in wave.new.stage) ≡ is_live (state_in wave.old.stage) }
    ensures answered { (waves : List Wave) → IsAt opening.now book.old waves number wave.old
        → HasAnswered opening.now (allot opening.now (state_at book.old waves) number (wave_of wave.old)
        (state_in wave.old.stage)) book.old book.new waves
        number wave.old wave.new result }
{
    match mem::replace(&mut wave.stage, Stage::Done) {
        Stage::Submitted(needs) => match hold_stock(book, opening, number, needs) {
            Ok(sheet) => {
                wave.stage = Stage::Allotted(sheet);
                Reply::Allotted
            }
            Err(Unmet { needs, why }) => {
                wave.stage = Stage::Submitted(needs);
                why
            }
        },
        other => {
            let state = other.state();
            wave.stage = other;
            Reply::WrongState(state)
        }
    }
}

impl Floor {
    /// Allot: stock is held for a wave that was submitted, where free stock covers it.
    pub fn allot(&mut self, opening: &Opening, name: &Name) -> Reply
        requires { IsFloor opening.now self.old }
        ensures { HasStepped opening.now (command.Allot name.now) self.old self.new result }
    {
        let Some(mut found) = self.waves.take_out(name) else {
            return Reply::UnknownWave;
        };
        let reply = allot_wave(&mut self.book, opening, found.number, &mut found.wave);
        self.waves.put_back(found);
        reply
    }
}
