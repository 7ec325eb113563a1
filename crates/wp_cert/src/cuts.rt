//! The cuts of a tree, as they are met.
ghost use Rattle.std.specs.Prelude.{◌≡◌, ◌≤◌, ◌↔◌, ◌++◌, ◌∷◌, [], All, IfErr, IfNone, IfOk, IfSome, IsSome};
ghost use Rattle.std.specs.Prelude.{IsTrue, false};
ghost use Rattle.wp_cuts.specs.Cuts.{IsRankCut};
ghost use Rattle.wp_cert.specs.Paths.{ButForMemory};
ghost use Rattle.wp_cert.specs.Terms.{AreCuts, cuts_in};
ghost use Rattle.wp_cert.specs.Refusals.{IsBadCuts};

use crate::tree::{CertWhy, WrittenCut, WrittenCuts};
use std::alloc::Global;
use wp_cuts::RankCut;
use wp_model::Memory;

/// The most cuts that a tree has.
const MOST_CUTS: usize = 64;

// The cut of so many orders that is written; none where that isn't one.
fn rank_cut(alloc: Global, count: u32, written: &WrittenCut) -> Result<Option<RankCut>, Memory>
    requires { count ≤ 64 }
    ensures exact { IfOk result (λ cut. IsSome cut ↔ IsRankCut count written.now) }
    ensures value { IfOk result (λ cut. IfSome cut (λ kept. kept ≡ written.now)) }
{
    let orders = Vec::from_slice(alloc, written.orders())?;
    let parts = Vec::from_slice(alloc, written.parts())?;
    Ok(RankCut::of(count, written.divisor(), orders, parts))
}

// Keeps the cut of so many orders that is written, and tells whether it is one.
fn keep_cut(
    alloc: Global,
    count: u32,
    written: &WrittenCut,
    cuts: &mut Vec<RankCut>,
) -> Result<bool, Memory>
    requires { count ≤ 64 }
    ensures kept { IfOk result (λ is. IsTrue is
        → (cuts.new.items ≡ cuts.old.items ++ written.now ∷ []) × IsRankCut count written.now) }
    ensures none { IfOk result (λ is. is ≡ false → IsRankCut count written.now → ⊥) }
{
    match rank_cut(alloc, count, written)? {
        Some(cut) => {
            cuts.push(cut)?;
            Ok(true)
        }
        None => Ok(false),
    }
}

// The cuts of so many orders that are written; none where one of them isn't one.
fn all_cuts(
    alloc: Global,
    count: u32,
    written: &[WrittenCut],
) -> Result<Option<Vec<RankCut>>, Memory>
    requires { count ≤ 64 }
    ensures all { IfOk result (λ cuts. IfSome cuts (λ kept. All (IsRankCut count) written.now)) }
    ensures value { IfOk result (λ cuts. IfSome cuts (λ kept. kept.items ≡ written.now)) }
    ensures none { IfOk result (λ cuts. IfNone cuts (All (IsRankCut count) written.now → ⊥)) }
{
    let mut cuts = Vec::new(alloc);
    for cut in written {
        let is_cut = keep_cut(alloc, count, cut, &mut cuts)?;
        if !is_cut {
            return Ok(None);
        }
    }
    Ok(Some(cuts))
}

/// The cuts of a tree, which are at most 64 cuts of so many orders: else `BadCuts`; or `Memory` where memory is wanting.
/// A tree without cuts has none.
pub fn cuts_of(
    alloc: Global,
    count: u32,
    given: &Option<WrittenCuts>,
) -> Result<Vec<RankCut>, CertWhy>
    requires { count ≤ 64 }
    ensures value { IfOk result (λ cuts. cuts.items ≡ cuts_in given.now) }
    ensures valid { IfOk result (λ cuts. AreCuts count (cuts_in given.now)) }
    ensures bad { IfErr result (ButForMemory (IsBadCuts count given.now)) }
{
    let Some(written) = given else {
        return Ok(Vec::new(alloc));
    };
    if written.len() as usize > MOST_CUTS {
        return Err(CertWhy::BadCuts);
    }
    match all_cuts(alloc, count, written.as_slice()) {
        Ok(Some(cuts)) => Ok(cuts),
        Ok(None) => Err(CertWhy::BadCuts),
        Err(Memory) => Err(CertWhy::Memory),
    }
}
