ghost use Rattle.std.specs.Prelude.{◌≡◌, ◌<ℤ◌, pos, length, IfOk, IfErr};
ghost use Rattle.wp_master.specs.Faults.{IsCause, IsOfCovered};
ghost use Rattle.wp_master.specs.Pairs.{AreNumbers, AreOfRun, CoverOrders, FitColumns, length_of, sum_of};
ghost use Rattle.wp_master.specs.Pools.{AreCovered};

use crate::fault::MasterFault;
use crate::pair::Pair;
use crate::pool::Pool;
use crate::run::Run;
use std::alloc::Global;

/// Solves the linear program of a pool, to cover each order at the least length, in whole numbers by the simplex method
/// (Edmonds, 1967; Bareiss, 1968), with at most so many pivots. The weights cover each order, the duals fit each
/// column, and both have one sum, so that neither can be better. `NoCover` names the least order that no column holds;
/// `Turns` comes only after all pivots that are allowed, where a further one is left to make; `Wide` names two entries,
/// or twice an entry and an entry, whose product leaves an `i128`; `Memory` comes only where memory is wanting.
pub fn solve(alloc: Global, pool: &Pool, turns: u64) -> Result<Pair, MasterFault>
    ensures above { IfOk result (λ pair. pos 0 <ℤ pair.denominator) }
    ensures weights { IfOk result (λ pair. AreNumbers
        (length pool.now.columns) pair.weights.items) }
    ensures duals { IfOk result (λ pair. AreNumbers pool.now.orders pair.duals.items) }
    ensures cover { IfOk result (λ pair. CoverOrders pool.now pair.weights.items pair.denominator) }
    ensures fit { IfOk result (λ pair. FitColumns pool.now pair.duals.items pair.denominator) }
    ensures equal { IfOk result (λ pair. sum_of pool.now pair.duals.items
        ≡ length_of pool.now pair.weights.items) }
    ensures run { IfOk result (λ pair. AreOfRun pool.now turns pair.weights.items
        pair.denominator) }
    ensures cause { IfErr result (λ fault. IsCause pool.now turns fault) }
    ensures exactly { IfErr result (λ fault. IsOfCovered pool.now fault) }
    ensures covered { IfOk result (λ _. AreCovered pool.now pool.now.orders) }
{
    if let Some(order) = pool.first_uncovered() {
        return Err(MasterFault::NoCover(order));
    }
    let run = Run::start(alloc, pool)?.risen(pool, turns)?;
    Ok(run.pair(alloc, pool)?)
}
