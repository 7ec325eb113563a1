//! The free units of each article.
ghost use Rattle.std.specs.Prelude.{◌≡◌, ℕ, ◌<◌, ◌^◌, IfOk, length, replicate};
ghost use Rattle.wp_model.specs.History.{state_after};
ghost use Rattle.wp_dispatch.specs.FreeUnits.{HasAdded, units_with};
ghost use Rattle.wp_waves.specs.Turns.{free_in, units_free};

use std::alloc::Global;
use wp_machine::Machine;
use wp_model::{Memory, Row};
use wp_waves::FreeStock;

// No unit of so many articles.
fn no_units(alloc: Global, articles: u32) -> Result<Vec<u64>, Memory>
    ensures { IfOk result (λ units. units.items ≡ replicate articles 0) }
{
    let units = vec![in alloc; 0; articles as usize]?;
    Ok(units)
}

// Adds the free units of a row to those of its article.
fn add_row(units: &mut [u64], row: &Row)
    requires within { row.now.article < length units.old }
    requires room { units_with row.now units.old < 2 ^ 64 }
    ensures { HasAdded row.now units.old units.new }
{
    units[row.article as usize] += u64::from(row.free);
}

/// The free units of each of so many articles, which are all that the stock has, in the order of the stock file.
/// `Memory` comes from a want of memory alone.
pub fn free_stock_of(
    alloc: Global,
    machine: &Machine<'_>,
    articles: u32,
) -> Result<FreeStock, Memory>
    requires { articles ≡ length machine.now.opening.stock.articles }
    ensures articles { IfOk result (λ free. length free.units.items ≡ articles) }
    ensures free { IfOk result (λ free. (article : ℕ)
        → units_free free article ≡ free_in (state_after machine.now) article) }
{
    let _history = machine.count();
    let mut units = no_units(alloc, articles)?;
    for row in 0..machine.rows() {
        add_row(&mut units, &machine.row(row));
    }
    Ok(FreeStock::of(units))
}
