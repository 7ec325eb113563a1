ghost use Rattle.std.specs.Prelude.{◌≡◌, ◌≤◌, ◌<◌, ◌+◌, ℤ, ◌<ℤ◌, pos, IfOk, IfErr, IfSome, IfNone, IsTrue, ◌↔◌, length};
ghost use Rattle.wp_master.specs.Pivots.{AreWhole, AreWideEntries, IsPivot, IsStart, entry_of};
ghost use Rattle.wp_master.specs.Spots.{IsNowhere, spot_of};
ghost use Rattle.wp_master.specs.declared.spot.Spot.TheVariants as spot;

use crate::grid::{Grid, unit_entry};
use crate::pool::Pool;
use crate::spot::Spot;
use crate::start::{start_grid, start_spots};
use crate::wide::TooWide;
use std::alloc::Global;
use std::marker::Model;
use wp_model::Memory;

/// Whole numbers over one denominator, in rows of one width. Contracts see the number of rows, the width, each entry by
/// its row and place, and the denominator, which is above 0. Each row but the last has its unit column at some place:
/// the denominator in that row and 0 in all others. These columns aren't stored.
#[derive(Drop)]
pub struct Table {
    stored: Grid,
    spots: Vec<Spot>,
    spare: usize,
}

impl Model for Table {
    ghost use Rattle.wp_master.specs.Pivots.{Table as Shown};
    ghost use Rattle.wp_master.specs.Spots.{AreSpots, shown};

    ghost Value = { Shown };

    ghost view = { λ t. shown t.stored t.spots.items };

    ghost invariant = { λ t. AreSpots t.stored.rows t.stored.width t.spots.items t.spare };
}

// The spot of a place.
fn spot_at(spots: &[Spot], place: usize) -> Spot
    requires { place < length spots.now }
    ensures { result ≡ spot_of spots.now place }
{
    spots[place]
}

// Whether a spot is that of a row's unit column.
fn is_basic(at: Spot, row: usize) -> bool
    ensures { IsTrue result ↔ (at ≡ spot.Basic row) }
{
    match at {
        Spot::Stored(_) => false,
        Spot::Basic(own) => own == row,
    }
}

// The place that has the unit column of a row.
fn basic_place(spots: &[Spot], row: usize) -> Option<usize>
    ensures some { IfSome result (λ place. (place < length spots.now)
        × (spot_of spots.now place ≡ spot.Basic row)) }
    ensures none { IfNone result (IsNowhere spots.now row (length spots.now)) }
{
    for place in 0..spots.len() {
        if is_basic(spot_at(spots, place), row) {
            return Some(place);
        }
    }
    None
}

impl Table {
    /// The number of rows.
    pub fn rows(&self) -> usize
        ensures { result ≡ self.now.rows }
    {
        self.stored.rows()
    }

    /// The number of places in each row, above 0.
    pub fn width(&self) -> usize
        ensures value { result ≡ self.now.width }
        ensures above { 0 < result }
    {
        self.spots.len()
    }

    /// The denominator of all entries, above 0.
    pub fn denominator(&self) -> i128
        ensures value { result ≡ self.now.denominator }
        ensures above { pos 0 <ℤ result }
    {
        self.stored.denominator()
    }

    /// An entry, by its row and place.
    pub fn entry(&self, row: usize, place: usize) -> i128
        requires row { row < self.now.rows }
        requires place { place < self.now.width }
        ensures { result ≡ entry_of self.now row place }
    {
        match spot_at(self.spots.as_slice(), place) {
            Spot::Stored(slot) => self.stored.entry(row, slot),
            Spot::Basic(own) => unit_entry(self.stored.denominator(), own, row),
        }
    }

    /// The table after a pivot on the entry in a row at a place. An `Err` names two entries, or twice an entry and an
    /// entry, whose product leaves an `i128`.
    pub fn pivot(self, row: usize, place: usize) -> Result<Table, TooWide>
        requires not_last { row + 1 < self.rows }
        requires not_first { 1 ≤ place }
        requires within { place < self.width }
        requires above { pos 0 <ℤ entry_of self row place }
        requires whole { AreWhole self row place }
        ensures made { IfOk result (λ next. IsPivot row place self next) }
        ensures wide { IfErr result (λ wide. AreWideEntries self wide.left wide.right) }
    {
        let Table {
            mut stored,
            mut spots,
            spare,
        } = self;
        let Spot::Stored(slot) = spot_at(spots.as_slice(), place) else {
            return Ok(Table {
                stored,
                spots,
                spare,
            });
        };
        let leaving = basic_place(spots.as_slice(), row).unwrap();
        stored.lay_unit(spare, row);
        let stored = stored.pivot(row, slot)?;
        spots[leaving] = Spot::Stored(spare);
        spots[place] = Spot::Basic(row);
        Ok(Table {
            stored,
            spots,
            spare: slot,
        })
    }

    /// The start table of a pool: a row per column, and a last row. `Memory` comes only where memory is wanting.
    pub fn start(alloc: Global, pool: &Pool) -> Result<Table, Memory>
        ensures { IfOk result (λ table. IsStart pool.now table) }
    {
        let spots = start_spots(alloc, pool)?;
        let stored = start_grid(alloc, pool)?;
        Ok(Table {
            stored,
            spots,
            spare: pool.orders() as usize + 1,
        })
    }
}
