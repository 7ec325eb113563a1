//! Waves that go out.
ghost use Rattle.std.specs.Prelude.{◌≡◌, true, false, List};
ghost use Rattle.wp_model.specs.State.{Wave};
ghost use Rattle.wp_model.specs.Step.{is_live, release, says_released};
ghost use Rattle.wp_floor.specs.Floor.{AreSameRows, HasAnswered, HasPapers, HasStepped, IsAt, IsFloor, state_at};
ghost use Rattle.wp_floor.specs.Floor.{state_in, state_of, wave_of};
ghost use Rattle.wp_model.specs.declared.command.Command.TheVariants as command;
ghost use Rattle.wp_model.specs.declared.reply.Reply.TheVariants as replies;
ghost use Rattle.wp_floor.specs.ReleasedWaves.{HasReleased, IfOut, IfRefused, TellsHolds};

use crate::floor::Floor;
use crate::holding::{Unmet, hold_stock};
use crate::opening::Opening;
use crate::waves::{HeldOrders, KeptWave, Stage};
use std::mem;
use wp_book::StockBook;
use wp_model::{Name, Reply};

/// What a release comes to: the wave went out with its sheet, or the release is refused.
#[derive(Drop)]
pub enum Released {
    Out(HeldOrders),
    Refused(Reply),
}

/// Release: a wave goes out with all that it holds, once it was allotted or where free stock covers it.
pub fn release_wave(
    book: &mut StockBook,
    opening: &Opening,
    number: u32,
    wave: &mut KeptWave,
) -> Released
    requires papers { HasPapers opening.now wave.old.stage book.old number wave.old }
    requires rows { AreSameRows opening.now book.old.rows }
    ensures live { is_live (state_in wave.new.stage) ≡ is_live (state_in wave.old.stage) }
    ensures out { IfOut result (λ sheet. (waves : List Wave)
        → IsAt opening.now book.old waves number wave.old
        → HasReleased opening.now book.old book.new waves number wave.old wave.new sheet) }
    ensures stays { IfRefused result (λ why. says_released why ≡ false) }
    ensures refused { IfRefused result (λ why. (waves : List Wave)
        → IsAt opening.now book.old waves number wave.old
        → HasAnswered opening.now (release opening.now (state_at book.old waves) number (wave_of wave.old)
        (state_in wave.old.stage)) book.old book.new waves
        number wave.old wave.new why) }
{
    match mem::replace(&mut wave.stage, Stage::Released) {
        Stage::Submitted(needs) => match hold_stock(book, opening, number, needs) {
            Ok(sheet) => Released::Out(sheet),
            Err(Unmet { needs, why }) => {
                wave.stage = Stage::Submitted(needs);
                Released::Refused(why)
            }
        },
        Stage::Allotted(sheet) => Released::Out(sheet),
        other => {
            let state = other.state();
            wave.stage = other;
            Released::Refused(Reply::WrongState(state))
        }
    }
}

impl Floor {
    /// Release: a wave goes out with all that it holds, once it was allotted or where free stock covers it.
    pub fn release(&mut self, opening: &Opening, name: &Name) -> Released
        requires { IsFloor opening.now self.old }
        ensures out { IfOut result (λ sheet. HasStepped opening.now
            (command.Release name.now) self.old self.new replies.Released) }
        ensures told { IfOut result (λ sheet. TellsHolds (state_of self.new) name.now sheet) }
        ensures stays { IfRefused result (λ why. says_released why ≡ false) }
        ensures refused { IfRefused result (λ why. HasStepped opening.now
            (command.Release name.now) self.old self.new why) }
    {
        let Some(mut found) = self.waves.take_out(name) else {
            return Released::Refused(Reply::UnknownWave);
        };
        let done = release_wave(&mut self.book, opening, found.number, &mut found.wave);
        self.waves.put_back(found);
        done
    }
}
