//! A crew for some lengths.
ghost use Rattle.std.specs.Prelude.{◌≤◌, ◌^◌, All, IfOk, length};
ghost use Rattle.wp_crew.specs.Crews.{AreNumberedByFirst, IsCrew, IsNearTheMean, NoneIsBelow};
ghost use Rattle.wp_crew.specs.Turns.{AreFew, IsBalanced};

use crate::deal::deal;
use crate::loads::{greatest, least_longest, loads_of};
use crate::numbers::number_pickers;
use std::alloc::Global;
use wp_outside::Memory;

/// Which picker walks each length, and how far each walks.
#[derive(Drop)]
pub struct Crew {
    /// The picker of each length, from 0.
    pub picker_of: Vec<u32>,
    /// How far each picker walks.
    pub loads: Vec<u64>,
    /// The longest load.
    pub longest: u64,
    /// What no crew's longest load is below.
    pub least: u64,
}

// The picker of each length, after they were dealt and the pickers numbered by the place of their first length.
fn dealt(alloc: Global, lengths: &[u64], pickers: u32) -> Result<Vec<u32>, Memory>
    requires few { AreFew lengths.now }
    requires some { 1 ≤ pickers }
    requires most { pickers ≤ 100 }
    ensures balanced { IfOk result (λ picker_of. IsBalanced lengths.now pickers picker_of.items) }
    ensures numbered { IfOk result (λ picker_of. AreNumberedByFirst picker_of.items) }
{
    let mut picker_of = deal(alloc, lengths, pickers)?;
    number_pickers(alloc, &mut picker_of, pickers)?;
    Ok(picker_of)
}

/// Deals lengths to pickers, so that the longest load is short: the crew is settled, as none of the lengths of a picker
/// with the longest load could go to another one without making that load as long. The lengths are dealt in falling
/// order, each to the picker with the least load (Graham, SIAM Journal on Applied Mathematics 17, 1969). Pickers are
/// numbered by the place of their first length, those without one last. There are 1 to 100 pickers and at most
/// 1,000,000 lengths, each 1 to 2^40. `Memory` comes where memory runs out.
pub fn assign(alloc: Global, lengths: &[u64], pickers: u32) -> Result<Crew, Memory>
    requires some { 1 ≤ pickers }
    requires most { pickers ≤ 100 }
    requires count { length lengths.now ≤ 1000000 }
    requires each { All (λ one. (1 ≤ one) × (one ≤ 2 ^ 40)) lengths.now }
    ensures crew { IfOk result (λ crew. IsCrew lengths.now pickers crew.picker_of.items
        crew.loads.items crew.longest crew.least) }
    ensures least { IfOk result (λ crew. NoneIsBelow lengths.now pickers crew.least) }
    ensures near { IfOk result (λ crew. IsNearTheMean lengths.now pickers crew.picker_of.items
        crew.loads.items crew.longest) }
{
    let picker_of = dealt(alloc, lengths, pickers)?;
    let loads = loads_of(alloc, lengths, &picker_of, pickers)?;
    let longest = greatest(&loads);
    let least = least_longest(lengths, pickers);
    Ok(Crew {
        picker_of,
        loads,
        longest,
        least,
    })
}
