//! What is held for an order of a wave at a row.
ghost use Rattle.std.specs.Prelude.{◌≡◌, ◌<◌, ◌≤◌, ◌^◌, length, option_map, IfOk, IfErr};
ghost use Rattle.wp_model.specs.Opening.{Opening as OpeningData};
ghost use Rattle.wp_model.specs.Step.{place_from};
ghost use Rattle.wp_floor.specs.HeldUnits.{IsClaimRefused, IsClaimed, IsEnoughHeld, IsHeldAt, IsRowAt, KnowsOrder};
ghost use Rattle.wp_floor.specs.HeldUnits.{held_of, held_there, unless_released};

use crate::waves::KeptWave;
use wp_book::StockBook;
use wp_model::{Location, Name, Reply, WaveState};

/// Units that are held: for the order at a place of a wave, at a row of an article.
#[derive(Clone, Copy, PartialEq, Eq)]
pub struct HeldUnits {
    pub order: u32,
    pub row: u32,
    pub article: u32,
    pub units: u32,
}

// The place of a claim's order among the orders of a wave.
fn place_of(wave: &KeptWave, claim: &Claim) -> Option<u32>
    requires { (opening : OpeningData) × KnowsOrder opening wave.now claim.now }
    ensures { result ≡ place_from 0 wave.now.orders claim.now.order }
{
    let numbers = wave.numbers.as_slice();
    for place in 0..numbers.len() {
        if numbers[place] == claim.number {
            return Some(place as u32);
        }
    }
    None
}

// The units that a wave holds at a row for the order at a place, where there are any.
fn held_at_row(book: &StockBook, number: u32, order: u32, row: u32) -> Option<HeldUnits>
    requires { row < length book.now.rows }
    ensures { IsHeldAt book.now number order row result }
{
    let article = book.row(row).article;
    let units = book.held_at(number, order, row);
    if units == 0 {
        return None;
    }
    Some(HeldUnits {
        order,
        row,
        article,
        units,
    })
}

/// What a desk says of units that are held: for an order at a location, with the order's number and the row in the
/// opening.
#[derive(Clone, Copy, PartialEq, Eq)]
pub struct Claim {
    pub order: Name,
    pub number: Option<u32>,
    pub location: Location,
    pub row: Option<u32>,
    pub quantity: u32,
}

// What a wave holds where a claim says.
fn find_held(book: &StockBook, number: u32, wave: &KeptWave, claim: &Claim) -> Option<HeldUnits>
    requires row { IsRowAt book.now.rows claim.now.location claim.now.row }
    requires order { (opening : OpeningData) × KnowsOrder opening wave.now claim.now }
    ensures { option_map held_of result ≡ held_there book.now number wave.now claim.now.order
        claim.now.location }
{
    let place = place_of(wave, claim)?;
    let row = claim.row?;
    held_at_row(book, number, place, row)
}

/// What a wave holds where a claim says; refused where it holds nothing there, or less than the claim's quantity.
pub fn enough_held(
    book: &StockBook,
    number: u32,
    wave: &KeptWave,
    claim: &Claim,
) -> Result<HeldUnits, Reply>
    requires row { IsRowAt book.now.rows claim.now.location claim.now.row }
    requires order { (opening : OpeningData) × KnowsOrder opening wave.now claim.now }
    ensures { IsEnoughHeld (held_there book.now number wave.now claim.now.order claim.now.location)
        claim.now.location claim.now.quantity result }
{
    match find_held(book, number, wave, claim) {
        None => Err(Reply::NotHeld(claim.location)),
        Some(held) if held.units < claim.quantity => Err(Reply::TooMuch(held.units)),
        Some(held) => Ok(held),
    }
}

// The refusal of a wave that isn't released.
fn wrong_state(state: WaveState) -> Option<Reply>
    ensures { result ≡ unless_released state }
{
    match state {
        WaveState::Released => None,
        other => Some(Reply::WrongState(other)),
    }
}

/// The units that a released wave holds where a claim says; or the refusal of the claim.
pub fn claimed(
    book: &StockBook,
    number: u32,
    wave: &KeptWave,
    claim: &Claim,
) -> Result<HeldUnits, Reply>
    requires row { IsRowAt book.now.rows claim.now.location claim.now.row }
    requires order { (opening : OpeningData) × KnowsOrder opening wave.now claim.now }
    ensures found { IfOk result (IsClaimed book.now number wave.now claim.now.order
        claim.now.location claim.now.quantity) }
    ensures refused { IfErr result (IsClaimRefused book.now number wave.now claim.now.order
        claim.now.location claim.now.quantity) }
{
    match wrong_state(wave.stage.state()) {
        Some(refusal) => Err(refusal),
        None => enough_held(book, number, wave, claim),
    }
}
