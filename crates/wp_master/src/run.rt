ghost use Rattle.std.specs.Prelude.{◌≡◌, ◌<◌, ◌+◌, ◌^◌, ℕ, IfOk, IfErr, length, slice_index};
ghost use Rattle.wp_master.specs.Choices.{HasRisen, IsRisingPlace};
ghost use Rattle.wp_master.specs.Faults.{IsCause, IsOfCovered};
ghost use Rattle.wp_master.specs.Pairs.{AreLastRow};
ghost use Rattle.wp_master.specs.Pivots.{AreWideEntries, IsWithinTurns, column_place, last_row, places};
ghost use Rattle.wp_master.specs.Pools.{AreCovered};
ghost use Rattle.wp_master.specs.Runs.{AreDuals, IsDual, IsPair, IsReached, IsReachedAtAll};

use crate::fault::MasterFault;
use crate::pair::Pair;
use crate::pool::Pool;
use crate::table::Table;
use crate::wide::TooWide;
use std::alloc::Global;
use wp_model::Memory;

// The places of so many columns.
fn column_places(alloc: Global, columns: usize) -> Result<Vec<usize>, Memory>
    requires { columns < 2 ^ 63 }
    ensures count { IfOk result (λ basis. length basis.items ≡ columns) }
    ensures each { IfOk result (λ basis. (row : ℕ) → row < columns → slice_index basis.items row
        ≡ column_place row) }
{
    let mut basis = Vec::new(alloc);
    for column in 0..columns {
        basis.push(1 + column)?;
    }
    Ok(basis)
}

// A table that pivots lead to from the start table of a pool, and for each of its rows but the last the place that the
// row has in the basis.
#[derive(Drop)]
pub(crate) struct Run {
    table: Table,
    basis: Vec<usize>,
}

impl Run {
    // The start table of a pool.
    pub(crate) fn start(alloc: Global, pool: &Pool) -> Result<Run, Memory>
        ensures { IfOk result (λ run. IsReached pool.now 0 run.table run.basis.items) }
    {
        let basis = column_places(alloc, pool.len())?;
        let table = Table::start(alloc, pool)?;
        Ok(Run { table, basis })
    }

    // The run with a pivot more, at a place at which the last row is below 0.
    fn turned(self, pool: &Pool, place: usize) -> Result<Run, TooWide>
        requires reached { IsReachedAtAll pool.now self.table self.basis.items }
        requires covered { AreCovered pool.now pool.now.orders }
        requires rising { IsRisingPlace self.table place }
        ensures next { IfOk result (λ next. (made : ℕ)
            → IsReached pool.now made self.table self.basis.items
            → IsReached pool.now (made + 1) next.table next.basis.items) }
        ensures wide { IfErr result (λ wide. AreWideEntries self.table wide.left wide.right) }
    {
        let Run { table, mut basis } = self;
        let row = table.leaving_row(pool.len(), place)?.unwrap();
        let table = table.pivot(row, place)?;
        basis[row] = place;
        Ok(Run { table, basis })
    }

    // The run with pivots until the last row has risen, at most so many.
    pub(crate) fn risen(self, pool: &Pool, turns: u64) -> Result<Run, MasterFault>
        requires start { IsReached pool.now 0 self.table self.basis.items }
        requires covered { AreCovered pool.now pool.now.orders }
        ensures reached { IfOk result (λ run. IsReachedAtAll pool.now run.table run.basis.items) }
        ensures few { IfOk result (λ run. IsWithinTurns pool.now turns run.table) }
        ensures risen { IfOk result (λ run. HasRisen run.table) }
        ensures cause { IfErr result (λ fault. IsCause pool.now turns fault) }
        ensures covered { IfErr result (λ fault. IsOfCovered pool.now fault) }
    {
        let mut run = self;
        let mut made = 0;
        loop {
            let Some(place) = run.table.rising_place() else {
                return Ok(run);
            };
            if made == turns {
                return Err(MasterFault::Turns { made });
            }
            run = run.turned(pool, place)?;
            made += 1;
        }
    }
}

impl Run {
    // The weights of the columns: what the last row has at their places.
    fn weights(&self, alloc: Global, pool: &Pool) -> Result<Vec<i128>, Memory>
        requires rows { self.now.table.rows ≡ last_row pool.now + 1 }
        requires width { self.now.table.width ≡ places pool.now }
        ensures count { IfOk result (λ weights. length weights.items ≡ last_row pool.now) }
        ensures each { IfOk result (λ weights. AreLastRow pool.now self.now.table weights.items
            self.now.table.denominator) }
    {
        let mut weights = Vec::new(alloc);
        for column in 0..pool.len() {
            weights.push(self.table.entry(pool.len(), 1 + column))?;
        }
        Ok(weights)
    }

    // The dual of a place: the first entry of the row that has it in the basis, or 0 where no row has it.
    fn dual(&self, place: usize) -> i128
        requires rows { self.now.table.rows ≡ length self.now.basis.items + 1 }
        requires width { 0 < self.now.table.width }
        ensures { IsDual self.now.table self.now.basis.items place result }
    {
        for row in 0..self.basis.len() {
            if self.basis[row] == place {
                return self.table.entry(row, 0);
            }
        }
        0
    }

    // The duals of the orders.
    fn duals(&self, alloc: Global, pool: &Pool) -> Result<Vec<i128>, Memory>
        requires rows { self.now.table.rows ≡ length self.now.basis.items + 1 }
        requires width { 0 < self.now.table.width }
        ensures count { IfOk result (λ duals. length duals.items ≡ pool.now.orders) }
        ensures each { IfOk result (λ duals. AreDuals pool.now self.now.table self.now.basis.items
            duals.items) }
    {
        let mut duals = Vec::new(alloc);
        for order in 0..pool.orders() as usize {
            duals.push(self.dual(1 + pool.len() + order))?;
        }
        Ok(duals)
    }

    // The weights and the duals, over the denominator.
    pub(crate) fn pair(&self, alloc: Global, pool: &Pool) -> Result<Pair, Memory>
        requires reached { IsReachedAtAll pool.now self.now.table self.now.basis.items }
        requires risen { HasRisen self.now.table }
        ensures { IfOk result (λ pair. IsPair pool.now self.now.table pair.weights.items
            pair.duals.items pair.denominator) }
    {
        let weights = self.weights(alloc, pool)?;
        let duals = self.duals(alloc, pool)?;
        Ok(Pair {
            weights,
            duals,
            denominator: self.table.denominator(),
        })
    }
}
