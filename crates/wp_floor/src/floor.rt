//! How the state is kept.
ghost use Rattle.std.specs.Prelude.{◌≡◌, ◌<◌, length, replicate, None, IfOk, IfSome};
ghost use Rattle.wp_model.specs.Opening.{Opening as OpeningData};
ghost use Rattle.wp_model.specs.State.{opening_state};
ghost use Rattle.wp_floor.specs.Floor.{IsFloor, state_of, wave_count};
ghost use Rattle.wp_floor.specs.Takers.{HasPut, HaveTakers, IsPutAt};

use crate::opening::Opening;
use crate::waves::{KeptWave, Waves};
use std::alloc::Global;
use wp_book::StockBook;
use wp_model::{Memory, Name};

/// The stock book, the waves, and for each order of the opening the wave that has it.
#[derive(Drop)]
pub struct Floor {
    pub(crate) book: StockBook,
    pub(crate) waves: Waves,
    pub(crate) takers: Vec<Option<Name>>,
}

// The order with a number, where there is one, now has this taker, or none.
fn put_taker(takers: &mut [Option<Name>], number: Option<u32>, taker: &Option<Name>)
    requires { IfSome number (λ number. number < length takers.old) }
    ensures { IsPutAt number taker.now takers.old takers.new }
{
    if let Some(number) = number {
        takers[number as usize] = *taker;
    }
}

/// The orders of a wave now have this taker, or none.
pub fn put_takers(takers: &mut [Option<Name>], wave: &KeptWave, taker: &Option<Name>)
    requires { (opening : OpeningData) × HaveTakers opening wave.now takers.old }
    ensures { (opening : OpeningData) → HaveTakers opening wave.now takers.old
        → HasPut opening wave.now.orders taker.now takers.old takers.new }
{
    for number in wave.numbers.as_slice() {
        put_taker(takers, *number, taker);
    }
}

// So many orders, each with no wave that has it.
fn no_takers(alloc: Global, orders: u32) -> Result<Vec<Option<Name>>, Memory>
    ensures { IfOk result (λ takers. takers.items ≡ replicate orders None) }
{
    let takers = vec![in alloc; None; orders as usize]?;
    Ok(takers)
}

impl Floor {
    /// All stock is free, and there is no wave.
    pub fn open(alloc: Global, opening: &Opening) -> Result<Floor, Memory>
        ensures floor { IfOk result (IsFloor opening.now) }
        ensures state { IfOk result (λ floor. state_of floor ≡ opening_state opening.now) }
        ensures none { IfOk result (λ floor. wave_count floor ≡ 0) }
    {
        let book = StockBook::open(alloc, opening.stock())?;
        let waves = Waves::open(alloc)?;
        let takers = no_takers(alloc, opening.orders().count())?;
        Ok(Floor {
            book,
            waves,
            takers,
        })
    }
}
