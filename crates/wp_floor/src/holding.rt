//! Holding stock for a wave.
ghost use Rattle.std.specs.Prelude.{◌≡◌, ◌<◌, ◌≤◌, None, length, IfOk, IfErr, IfSome, All};
ghost use Rattle.wp_allot.specs.Wants.{AreGathered, holds_at_most, wanted_places};
ghost use Rattle.wp_allot.specs.declared.want.Want.{Want as WantData};
ghost use Rattle.wp_model.specs.Tables.{IsReadStock};
ghost use Rattle.wp_floor.specs.Floor.{AreNeedsOf, AreSameRows, HaveSpace, most_wants};
ghost use Rattle.wp_floor.specs.MissingUnits.{HaveSpaceAt, IsRefillSize};
ghost use Rattle.wp_floor.specs.WaveStock.{IsHeld, IsRefusedShort, short_reply};

use crate::held::Claim;
use crate::opening::Opening;
use crate::waves::{HeldOrders, Needs};
use std::alloc::Global;
use wp_allot::gathered::{self, most_holds};
use wp_allot::{Short, Want};
use wp_book::{Room, StockBook};
use wp_model::{Memory, Reply};
use wp_tables::Stock;

/// Room for what is held for a wave, and for the list of it.
#[derive(Drop)]
pub struct Rooms {
    pub(crate) room: Room,
    pub(crate) sheet: Room,
}

// The most holds that units of a row's article take, where they are wanted again.
fn refill_size(stock: &Stock, row: u32, quantity: u32) -> u32
    requires read { IsReadStock stock.now }
    requires row { row < length stock.now.rows }
    requires quantity { 0 < quantity }
    ensures { IsRefillSize stock.now.rows row quantity result }
{
    let wants = [Want {
        order: 0,
        article: stock.row(row).article,
        quantity: u64::from(quantity),
    }];
    most_holds(stock, &wants) as u32
}

impl Rooms {
    // Empty rooms, each for so many holds.
    fn new(alloc: Global, size: u32) -> Result<Rooms, Memory>
        ensures { IfOk result (HaveSpace size) }
    {
        let room = Room::new(alloc, size)?;
        let sheet = Room::new(alloc, size)?;
        Ok(Rooms { room, sheet })
    }

    /// Empty room for all that may be held for wants.
    pub fn for_wants(alloc: Global, stock: &Stock, wants: &[Want]) -> Result<Rooms, Memory>
        requires read { IsReadStock stock.now }
        requires gathered { AreGathered wants.now }
        requires within { All (λ (want : WantData). want.article < length stock.now.articles)
            wants.now }
        requires few { length wants.now ≤ most_wants }
        ensures { IfOk result (HaveSpace (holds_at_most
            (wanted_places stock.now.rows wants.now) wants.now)) }
    {
        Rooms::new(alloc, most_holds(stock, wants) as u32)
    }

    /// Empty room for all that may be held in place of the units of a claim, should they be lost.
    pub fn for_refill(alloc: Global, opening: &Opening, claim: &Claim) -> Result<Rooms, Memory>
        requires read { IsReadStock opening.now.stock }
        requires row { IfSome claim.now.row (λ row. row < length opening.now.stock.rows) }
        requires quantity { 0 < claim.now.quantity }
        ensures { IfOk result (HaveSpaceAt opening.now.stock.rows claim.now.row
            claim.now.quantity) }
    {
        let size = match claim.row {
            Some(row) => refill_size(opening.stock(), row, claim.quantity),
            None => 0,
        };
        Rooms::new(alloc, size)
    }
}

// The refusal of a wave that wants more of an article than is free.
fn refuse_short(opening: &Opening, short: Short) -> Reply
    requires { short.article < length opening.now.stock.articles }
    ensures { result ≡ short_reply opening.now short }
{
    Reply::Short {
        article: opening.stock().article(short.article),
        wanted: short.wanted,
        free: short.free,
    }
}

/// What a submitted wave needs that can't go out, and why.
#[derive(Drop)]
pub struct Unmet {
    pub needs: Needs,
    pub why: Reply,
}

/// Holds stock for a wave where free stock covers what it wants, and lists it; else names the first article of which
/// there isn't enough, gives back what the wave needs, and changes nothing.
pub fn hold_stock(
    book: &mut StockBook,
    opening: &Opening,
    number: u32,
    needs: Needs,
) -> Result<HeldOrders, Unmet>
    requires needs { AreNeedsOf opening.now needs.orders needs }
    requires rows { AreSameRows opening.now book.old.rows }
    ensures held { IfOk result (λ sheet. IsHeld number needs.wants.items book.old book.new
        needs.rooms.sheet sheet.room) }
    ensures orders { IfOk result (λ sheet. sheet.orders ≡ needs.orders) }
    ensures short { IfErr result (λ unmet. IsRefusedShort opening.now needs.wants.items book.old
        book.new unmet.why) }
    ensures back { IfErr result (λ unmet. unmet.needs ≡ needs) }
{
    if let Some(short) = gathered::short_article(book, needs.wants.as_slice(), None) {
        let why = refuse_short(opening, short);
        return Err(Unmet { needs, why });
    }
    let Needs {
        orders,
        wants,
        rooms,
    } = needs;
    let Rooms { room, mut sheet } = rooms;
    gathered::allot(book, number, wants.as_slice(), None, room, &mut sheet);
    Ok(HeldOrders {
        orders,
        room: sheet,
    })
}
