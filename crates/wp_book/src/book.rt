ghost use Rattle.std.specs.Prelude.{◌≡◌, ◌≤◌, ◌<◌, ◌+◌, ◌^◌, ◌%◌, ◌↔◌, ℕ, IsTrue, IfOk, IfSome, Some, [], length};
ghost use Rattle.std.specs.Prelude.{replicate, slice_get};
ghost use Rattle.wp_model.specs.Book.{IsBook, held_for};
ghost use Rattle.wp_model.specs.Demand.{free_units, offer_of};
ghost use Rattle.wp_model.specs.Limits.{most_on_hand};
ghost use Rattle.wp_book.specs.ArticleRows.{rows_of};
ghost use Rattle.wp_book.specs.Calls.{CanHold, HasGivenBack, HasHeld, HasReceived, HasTaken, HoldsNone, free_book};
ghost use Rattle.wp_book.specs.Kept.{chain_count};

use crate::holds::{
    chain_holds_none, give_back_chain, hold_in_rows, take_from_chain, units_in_chain,
};
use crate::room::{KeptHolds, Room};
use crate::rows::CountedRows;
use std::alloc::Global;
use std::marker::Model;
use wp_model::{Chain, Memory, Row};
use wp_tables::Stock;

const CHAINS: usize = 512;

/// The rows of a warehouse as they stand, numbered from 0 in the order of their locations, and the units that are held
/// in them for waves, by the wave's number. In every book what is on hand in a row is free or held, and what is held is
/// the sum of all holds there. Contracts see the rows and the holdings. All calls but `open` take no memory.
#[derive(Drop)]
pub struct StockBook {
    rows: CountedRows,
    chains: Vec<Chain<KeptHolds>>,
}

impl Model for StockBook {
    ghost use Rattle.wp_model.specs.Book as book;

    ghost Value = { book.Book };

    ghost use Rattle.wp_book.specs.Kept.{AreChained, book_of};

    ghost view = { λ b. book_of b.rows b.chains.items };

    ghost invariant = { λ b. AreChained b.rows b.chains.items };
}

// So many chains of nothing.
fn empty_chains(alloc: Global) -> Result<Vec<Chain<KeptHolds>>, Memory>
    ensures { IfOk result (λ chains. chains.items ≡ replicate chain_count []) }
{
    let mut chains = Vec::with_capacity(alloc, CHAINS)?;
    for _ in 0..CHAINS {
        chains.push(Chain::new())?;
    }
    Ok(chains)
}

// The place of the chain that has what is held for a wave.
fn chain_of(wave: u32) -> usize
    ensures { result ≡ wave % chain_count }
{
    wave as usize % CHAINS
}

impl StockBook {
    /// The book of a stock, all of it free.
    pub fn open(alloc: Global, stock: &Stock) -> Result<StockBook, Memory>
        ensures { IfOk result (λ book. book ≡ free_book stock.now) }
    {
        let rows = CountedRows::open(alloc, stock)?;
        let chains = empty_chains(alloc)?;
        Ok(StockBook { rows, chains })
    }

    /// How many rows there are.
    pub fn rows(&self) -> u32
        ensures rows { result ≡ length self.now.rows }
        ensures book { IsBook self.now }
    {
        self.rows.len()
    }

    /// The row with a number.
    pub fn row(&self, row: u32) -> Row
        requires { row < length self.now.rows }
        ensures { slice_get self.now.rows row ≡ Some result }
    {
        self.rows.row(row)
    }

    /// How many rows are of an article.
    pub fn places(&self, article: u32) -> u32
        ensures { result ≡ length (rows_of article self.now.rows) }
    {
        self.rows.places(article)
    }

    /// The number of the row at a place among an article's rows, counted from 0, in row order.
    pub fn place(&self, article: u32, k: u32) -> u32
        requires { k < length (rows_of article self.now.rows) }
        ensures { slice_get (rows_of article self.now.rows) k ≡ Some result }
    {
        self.rows.place(article, k)
    }

    /// The free units of an article, without those of the excepted row.
    pub fn free_of(&self, article: u32, except: Option<u32>) -> u64
        ensures { result ≡ free_units self.now.rows article except }
    {
        self.rows.free_of(article, except)
    }

    /// The units that are held for the order at a place of a wave, at a row; 0 where there are none.
    pub fn held_at(&self, wave: u32, order: u32, row: u32) -> u32
        ensures { result ≡ held_for self.now wave order row }
    {
        let chain = &self.chains[chain_of(wave)];
        units_in_chain(chain, wave, order, row)
    }

    /// Whether the wave holds no unit.
    pub fn holds_none(&self, wave: u32) -> bool
        ensures { IsTrue result ↔ HoldsNone self.now wave }
    {
        let chain = &self.chains[chain_of(wave)];
        chain_holds_none(chain, wave)
    }

    /// The units of the room's holds go from free to held, for a wave.
    pub fn hold(&mut self, wave: u32, mut room: Room)
        requires { CanHold self.old room.holds }
        ensures { HasHeld wave room.holds self.old self.new }
    {
        room.sort();
        let (holds, cell) = room.into_parts();
        hold_in_rows(&mut self.rows, holds.as_slice());
        let chain = &mut self.chains[chain_of(wave)];
        chain.push(KeptHolds { wave, holds }, cell);
    }

    /// All units that are held for a wave go back to free.
    pub fn unhold(&mut self, wave: u32)
        ensures { HasGivenBack wave self.old self.new }
    {
        let chain = &mut self.chains[chain_of(wave)];
        give_back_chain(&mut self.rows, chain, wave);
    }

    /// Units that are held for an order of a wave at a row are gone: what is held for it, what is held in the row and
    /// what is on hand there go down.
    pub fn take(&mut self, wave: u32, order: u32, row: u32, quantity: u32)
        requires { quantity ≤ held_for self.old wave order row }
        ensures { HasTaken wave order row quantity self.old self.new }
    {
        if quantity > 0 {
            self.rows.take(row, quantity);
            let chain = &mut self.chains[chain_of(wave)];
            take_from_chain(chain, wave, order, row, quantity);
        }
    }

    /// Units come to a row: what is on hand and what is free go up.
    pub fn receive(&mut self, row: u32, quantity: u32)
        requires row { row < length self.old.rows }
        requires room { IfSome (slice_get self.old.rows row)
            (λ r. r.on_hand + quantity ≤ most_on_hand) }
        ensures { HasReceived row quantity self.old self.new }
    {
        self.rows.receive(row, quantity);
    }
}
