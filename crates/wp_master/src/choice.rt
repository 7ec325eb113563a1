ghost use Rattle.std.specs.Prelude.{◌≡◌, ◌<◌, ◌≤◌, ◌+◌, ◌↔◌, IfOk, IfErr, IfSome, IfNone, IsTrue};
ghost use Rattle.wp_master.specs.Choices.{HasRisen, IsLeaving, IsRisingBefore, IsRisingPlace, Precedes, scaled_entry};
ghost use Rattle.wp_master.specs.Pivots.{AreWideEntries};

use crate::table::Table;
use crate::wide::{TooWide, product};

impl Table {
    // Of two places, the one at which the last row is lower, where it is below 0 there.
    fn lower_place(&self, best: Option<usize>, last: usize, place: usize) -> Option<usize>
        requires last { self.now.rows ≡ last + 1 }
        requires not_first { 1 ≤ place }
        requires within { place < self.now.width }
        requires best { IsRisingBefore self.now last place best }
        ensures { IsRisingBefore self.now last (place + 1) result }
    {
        let entry = self.entry(last, place);
        let lower = match best {
            None => entry < 0,
            Some(known) => entry < self.entry(last, known),
        };
        if lower { Some(place) } else { best }
    }

    /// A place, but for the first of all, at which the last row is lowest, where it is below 0. None comes exactly
    /// where it is nowhere below 0.
    pub fn rising_place(&self) -> Option<usize>
        requires { 0 < self.now.rows }
        ensures some { IfSome result (λ place. IsRisingPlace self.now place) }
        ensures none { IfNone result (HasRisen self.now) }
    {
        let last = self.rows() - 1;
        let mut best = None;
        for place in 1..self.width() {
            best = self.lower_place(best, last, place);
        }
        best
    }

    // The entry of a row times the entry of another row at a place.
    fn scaled(&self, row: usize, j: usize, other: usize, place: usize) -> Result<i128, TooWide>
        requires row { row < self.now.rows }
        requires j { j < self.now.width }
        requires other { other < self.now.rows }
        requires place { place < self.now.width }
        ensures is { IfOk result (λ value. value ≡ scaled_entry self.now row j other place) }
        ensures wide { IfErr result (λ wide. AreWideEntries self.now wide.left wide.right) }
    {
        let own = self.entry(row, j);
        let there = self.entry(other, place);
        product(own, there)
    }

    /// Whether a row over its entry at a place is lexicographically below another row over its entry there. Both
    /// entries are meant to be above 0. An `Err` names two entries whose product leaves an `i128`.
    pub fn precedes(&self, row: usize, other: usize, place: usize) -> Result<bool, TooWide>
        requires row { row < self.now.rows }
        requires other { other < self.now.rows }
        requires place { place < self.now.width }
        ensures is { IfOk result (λ yes. IsTrue yes ↔ Precedes self.now row other place) }
        ensures wide { IfErr result (λ wide. AreWideEntries self.now wide.left wide.right) }
    {
        for j in 0..self.width() {
            let left = self.scaled(row, j, other, place)?;
            let right = self.scaled(other, j, row, place)?;
            if left != right {
                return Ok(left < right);
            }
        }
        Ok(false)
    }

    // The row to leave of those before a row and this row.
    fn better(
        &self,
        best: Option<usize>,
        row: usize,
        place: usize,
    ) -> Result<Option<usize>, TooWide>
        requires row { row < self.now.rows }
        requires place { place < self.now.width }
        requires best { IsLeaving self.now place row best }
        ensures is { IfOk result (λ next. IsLeaving self.now place (row + 1) next) }
        ensures wide { IfErr result (λ wide. AreWideEntries self.now wide.left wide.right) }
    {
        if self.entry(row, place) <= 0 {
            return Ok(best);
        }
        let Some(known) = best else {
            return Ok(Some(row));
        };
        if self.precedes(row, known, place)? {
            Ok(Some(row))
        } else {
            Ok(Some(known))
        }
    }

    /// Of the rows before one whose entry at a place is above 0, the one that over that entry comes lexicographically
    /// first. None comes exactly where there is none. An `Err` names two entries whose product leaves an `i128`.
    pub fn leaving_row(&self, before: usize, place: usize) -> Result<Option<usize>, TooWide>
        requires before { before ≤ self.now.rows }
        requires place { place < self.now.width }
        ensures is { IfOk result (λ best. IsLeaving self.now place before best) }
        ensures wide { IfErr result (λ wide. AreWideEntries self.now wide.left wide.right) }
    {
        let mut best = None;
        for row in 0..before {
            best = self.better(best, row, place)?;
        }
        Ok(best)
    }
}
