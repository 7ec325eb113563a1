ghost use Rattle.std.specs.Prelude.{◌≡◌, ◌≢◌, ◌≤◌, ◌<◌, ◌+◌, ◌*◌, ℤ, ◌*ℤ◌, ◌-ℤ◌, ◌<ℤ◌, pos, IfOk, IfErr, IsTrue};
ghost use Rattle.std.specs.Prelude.{length};
ghost use Rattle.wp_master.specs.Exchanges.{AreExchanged, AreFactors, AreFilled, IsClear, IsEntryExchanged, IsPut};
ghost use Rattle.wp_master.specs.Exchanges.{IsRowExchanged, IsRowWhole, IsRowWide, exchange_by};
ghost use Rattle.wp_master.specs.Pivots.{AreWhole, AreWideEntries, IsPivot, IsWideFor, entry_of};
ghost use Rattle.wp_master.specs.Spots.{IsLaid, unit_entry};

use crate::divisor::Divisor;
use crate::filled::Filled;
use crate::wide::{TooWide, cross};
use std::marker::Model;

/// Whole numbers over one denominator, in rows of one width, each of them stored. Contracts see the number of rows, the
/// width, each entry by its row and place, and the denominator, which is above 0.
#[derive(Drop)]
pub(crate) struct Grid {
    pub(crate) rows: usize,
    pub(crate) width: usize,
    pub(crate) entries: Vec<i128>,
    pub(crate) denominator: i128,
}

impl Model for Grid {
    ghost use Rattle.wp_master.specs.Pivots.{IsTable, Table as Shown};

    ghost Value = { Shown };

    ghost view = { λ g. record {
      rows = g.rows;
      width = g.width;
      entries = g.entries.items;
      denominator = g.denominator;
    } };

    ghost invariant = { λ g. IsTable (record {
      rows = g.rows;
      width = g.width;
      entries = g.entries.items;
      denominator = g.denominator;
    }) };
}

/// What the entries of a row are exchanged by: the pivot and its place, the entry of the row at that place, and the
/// denominator.
#[derive(Clone, Copy)]
pub(crate) struct Factors {
    place: usize,
    pivot: i128,
    beside: i128,
    over: Divisor,
}

// The quotient of a number and a denominator, of which it is a multiple.
#[inline(always)]
fn divided(value: i128, over: &Divisor) -> i128
    requires above { pos 0 <ℤ over.now.denominator }
    requires whole { (x : ℤ) × (over.now.denominator *ℤ x ≡ value) }
    ensures { over.now.denominator *ℤ result ≡ value }
{
    if over.denominator == 1 {
        return value;
    }
    match over.quotient(value) {
        Some(quotient) => quotient,
        None => divided_at_length(value, over.denominator),
    }
}

// The same by a division.
fn divided_at_length(value: i128, denominator: i128) -> i128
    requires above { pos 0 <ℤ denominator }
    requires whole { (x : ℤ) × (denominator *ℤ x ≡ value) }
    ensures { denominator *ℤ result ≡ value }
{
    value / denominator
}

// The entry in a row of the unit column of a row, over a denominator.
pub(crate) fn unit_entry(denominator: i128, own: usize, row: usize) -> i128
    ensures { result ≡ unit_entry denominator own row }
{
    if row == own { denominator } else { 0 }
}

impl Factors {
    // Whether they plainly leave an entry as it is, which stands in a column in which the pivot's row has another.
    #[inline(always)]
    fn leave(&self, own: i128, above: i128) -> bool
        ensures { IsTrue result → self.now.over.denominator *ℤ own
            ≡ (self.now.pivot *ℤ own) -ℤ (self.now.beside *ℤ above) }
    {
        if self.beside != 0 && above != 0 {
            return false;
        }
        own == 0 || self.pivot == self.over.denominator
    }

    // What they make of an entry: pivot * own - beside * above over the denominator, where the pivot's row has this
    // above in its column.
    #[inline(always)]
    fn exchanged(&self, own: i128, above: i128) -> Result<i128, TooWide>
        requires above_0 { pos 0 <ℤ self.now.over.denominator }
        requires whole { (x : ℤ) × (self.now.over.denominator *ℤ x
            ≡ (self.now.pivot *ℤ own) -ℤ (self.now.beside *ℤ above)) }
        ensures is { IfOk result (λ entry. self.now.over.denominator *ℤ entry
            ≡ (self.now.pivot *ℤ own) -ℤ (self.now.beside *ℤ above)) }
        ensures wide { IfErr result (λ wide. IsWideFor self.now.pivot own self.now.beside above
            wide.left wide.right) }
    {
        if self.leave(own, above) {
            return Ok(own);
        }
        let value = cross(self.pivot, own, self.beside, above)?;
        Ok(divided(value, &self.over))
    }
}

impl Grid {
    // The number of rows.
    pub(crate) fn rows(&self) -> usize
        ensures { result ≡ self.now.rows }
    {
        self.rows
    }

    // The denominator of all entries, above 0.
    pub(crate) fn denominator(&self) -> i128
        ensures value { result ≡ self.now.denominator }
        ensures above { pos 0 <ℤ result }
    {
        self.denominator
    }

    // An entry, by its row and place.
    pub(crate) fn entry(&self, row: usize, place: usize) -> i128
        requires row { row < self.now.rows }
        requires place { place < self.now.width }
        ensures { result ≡ entry_of self.now row place }
    {
        self.entries[row * self.width + place]
    }

    // Puts an entry into a row at a place.
    fn put(&mut self, row: usize, place: usize, entry: i128)
        requires row { row < self.old.rows }
        requires place { place < self.old.width }
        ensures { IsPut self.old row place entry self.new }
    {
        self.entries[row * self.width + place] = entry;
    }

    // Lays the unit column of a row at a place.
    pub(crate) fn lay_unit(&mut self, place: usize, own: usize)
        requires { place < self.old.width }
        ensures { IsLaid self.old place own self.old.rows self.new }
    {
        let denominator = self.denominator;
        for row in 0..self.rows {
            self.put(row, place, unit_entry(denominator, own, row));
        }
    }

    // The first place from one on at which a row isn't 0, where that from the place behind it on is known.
    fn next_filled(&self, row: usize, place: usize, behind: usize) -> usize
        requires row { row < self.now.rows }
        requires place { place < self.now.width }
        requires behind { IsClear self.now row (place + 1) behind }
        ensures { IsClear self.now row place result }
    {
        if self.entry(row, place) == 0 {
            behind
        } else {
            place
        }
    }

    // The places at which a row isn't 0.
    fn filled(&self, row: usize) -> Filled
        requires { row < self.now.rows }
        ensures { AreFilled self.now row result }
    {
        let mut filled = Filled::none();
        let mut next = self.width;
        for back in 0..self.width {
            let place = self.width - 1 - back;
            next = self.next_filled(row, place, next);
            filled.list(place, next);
        }
        filled
    }

    // Exchanges an entry of a row by the row's factors.
    #[inline(always)]
    fn exchange_entry(
        &mut self,
        i: usize,
        row: usize,
        j: usize,
        by: &Factors,
    ) -> Result<(), TooWide>
        requires i { i < self.old.rows }
        requires row { row < self.old.rows }
        requires j { j < self.old.width }
        requires above { pos 0 <ℤ by.now.over.denominator }
        requires whole { (x : ℤ) × (by.now.over.denominator *ℤ x
            ≡ exchange_by by.now.pivot by.now.beside self.old row i j) }
        ensures exchanged { IfOk result (λ _. IsEntryExchanged self.old by.now row i j self.new) }
        ensures wide { IfErr result (λ wide. IsWideFor by.now.pivot
            (entry_of self.old i j) by.now.beside (entry_of self.old row j) wide.left wide.right) }
    {
        let own = self.entry(i, j);
        let above = self.entry(row, j);
        let entry = by.exchanged(own, above)?;
        self.put(i, j, entry);
        Ok(())
    }

    // Exchanges the entries of a row other than the pivot's.
    fn exchange_all(&mut self, i: usize, row: usize, by: &Factors) -> Result<(), TooWide>
        requires i { i < self.old.rows }
        requires row { row < self.old.rows }
        requires other { i ≢ row }
        requires by { AreFactors self.old row i by.now }
        requires whole { IsRowWhole self.old row by.now.place i }
        ensures exchanged { IfOk result (λ _. IsRowExchanged self.old self.new row by.now.place i
            self.old.width) }
        ensures wide { IfErr result (λ wide. IsRowWide self.old row by.now.place i wide.left
            wide.right) }
    {
        for j in 0..self.width {
            self.exchange_entry(i, row, j, by)?;
        }
        Ok(())
    }

    // The same where the pivot is the denominator: then entries change only at the places at which the pivot's row
    // isn't 0.
    fn exchange_filled(
        &mut self,
        i: usize,
        row: usize,
        filled: &Filled,
        by: &Factors,
    ) -> Result<(), TooWide>
        requires i { i < self.old.rows }
        requires row { row < self.old.rows }
        requires other { i ≢ row }
        requires by { AreFactors self.old row i by.now }
        requires same { by.now.pivot ≡ self.old.denominator }
        requires filled { AreFilled self.old row filled.now }
        requires whole { IsRowWhole self.old row by.now.place i }
        ensures exchanged { IfOk result (λ _. IsRowExchanged self.old self.new row by.now.place i
            self.old.width) }
        ensures wide { IfErr result (λ wide. IsRowWide self.old row by.now.place i wide.left
            wide.right) }
    {
        let mut j = filled.next(0);
        while j < self.width {
            self.exchange_entry(i, row, j, by)?;
            j = filled.next(j + 1);
        }
        Ok(())
    }

    // Exchanges the entries of a row other than the pivot's.
    fn exchange_row(
        &mut self,
        i: usize,
        row: usize,
        place: usize,
        over: &Divisor,
        filled: &Filled,
    ) -> Result<(), TooWide>
        requires i { i < self.old.rows }
        requires row { row < self.old.rows }
        requires place { place < self.old.width }
        requires other { i ≢ row }
        requires over { over.now.denominator ≡ self.old.denominator }
        requires filled { AreFilled self.old row filled.now }
        requires whole { IsRowWhole self.old row place i }
        ensures exchanged { IfOk result (λ _. IsRowExchanged self.old self.new row place i
            self.old.width) }
        ensures wide { IfErr result (λ wide. IsRowWide self.old row place i wide.left wide.right) }
    {
        let by = Factors {
            place,
            pivot: self.entry(row, place),
            beside: self.entry(i, place),
            over: *over,
        };
        if by.pivot != self.denominator {
            return self.exchange_all(i, row, &by);
        }
        if by.beside == 0 {
            return Ok(());
        }
        self.exchange_filled(i, row, filled, &by)
    }

    // Exchanges the entries of all rows but the pivot's.
    fn exchange(&mut self, row: usize, place: usize) -> Result<(), TooWide>
        requires row { row < self.old.rows }
        requires place { place < self.old.width }
        requires whole { AreWhole self.old row place }
        ensures exchanged { IfOk result (λ _. AreExchanged self.old self.new row place
            self.old.rows) }
        ensures wide { IfErr result (λ wide. AreWideEntries self.old wide.left wide.right) }
    {
        let over = Divisor::of(self.denominator);
        let filled = self.filled(row);
        for i in 0..self.rows {
            if i != row {
                self.exchange_row(i, row, place, &over, &filled)?;
            }
        }
        Ok(())
    }

    // The grid after a pivot on the entry in a row at a place. An `Err` names two entries, or twice an entry and an
    // entry, whose product leaves an `i128`.
    pub(crate) fn pivot(mut self, row: usize, place: usize) -> Result<Grid, TooWide>
        requires not_last { row + 1 < self.rows }
        requires not_first { 1 ≤ place }
        requires within { place < self.width }
        requires above { pos 0 <ℤ entry_of self row place }
        requires whole { AreWhole self row place }
        ensures made { IfOk result (λ next. IsPivot row place self next) }
        ensures wide { IfErr result (λ wide. AreWideEntries self wide.left wide.right) }
    {
        self.exchange(row, place)?;
        self.denominator = self.entry(row, place);
        Ok(self)
    }
}
