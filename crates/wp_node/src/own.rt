ghost use Rattle.std.specs.Prelude.{◌≡◌, IfOk, length, sum};
ghost use Rattle.wp_cert.specs.Terms.{plain_terms};
ghost use Rattle.wp_cert.specs.Trees.{IsRightOwn};
ghost use Rattle.wp_lengths.specs.Duals.{AreDuals};
ghost use Rattle.wp_price.specs.ShortMarks.{AreShortMarks};
ghost use Rattle.wp_node.specs.Owns.{as_own};
ghost use Rattle.wp_node.specs.Raises.{IsStart};

use crate::raise::raise_all;
use std::alloc::Global;
use std::thread::Threads;
use wp_cert::Own;
use wp_lengths::{Batching, DualWave, Marks, OrderDuals, PairedWave};
use wp_model::Memory;
use wp_outside::Gate;
use wp_price::{Workers, are_feasible, short_marks};

/// What a node of the search has of its own, as a certificate has it, but that its duals are known to be within their
/// range.
#[derive(Drop)]
pub struct NodeOwn {
    pub duals: OrderDuals,
    pub marks: Marks,
    pub tight: Batching,
}

impl NodeOwn {
    /// The same for a certificate, with no other price. It takes no memory.
    pub fn into_own(self, alloc: Global) -> Own
        ensures { result ≡ as_own self }
    {
        Own::plain(alloc, self.duals.into_listing(), self.marks, self.tight)
    }
}

// What a node has of its own, from feasible duals on: they are raised until they are tight.
fn own_from<R: Threads + Sync, G: Gate>(
    workers: &Workers<'_, R, G>,
    paired: &PairedWave<'_>,
    feasible: OrderDuals,
) -> Result<NodeOwn, Memory>
    requires { IsStart paired.now.wave.now paired.now.pairs.now feasible }
    ensures right { IfOk result (λ own. IsRightOwn (plain_terms paired.now.wave.now)
        paired.now.pairs.now (sum feasible) (as_own own)) }
    ensures duals { IfOk result (λ own. AreDuals own.duals) }
    ensures short { IfOk result (λ own. AreShortMarks paired.now.wave.now paired.now.pairs.now
        own.duals own.marks) }
{
    let mut duals = feasible;
    let tight = raise_all(workers, paired, &mut duals)?;
    let given = DualWave {
        wave: paired.wave,
        pairs: paired.pairs,
        duals: &duals,
    };
    let marks = short_marks(workers, &given)?;
    let _count = duals.len();
    Ok(NodeOwn {
        duals,
        marks,
        tight: Batching::of(tight),
    })
}

/// What a node has of its own, from duals that are tried first: they are taken where they are feasible, and raised come
/// to no less than those above the node. Else those above are raised.
pub fn own_of<R: Threads + Sync, G: Gate>(
    workers: &Workers<'_, R, G>,
    paired: &PairedWave<'_>,
    above: &OrderDuals,
    tried: OrderDuals,
) -> Result<NodeOwn, Memory>
    requires start { IsStart paired.now.wave.now paired.now.pairs.now above.now }
    requires count { length tried ≡ length paired.now.wave.now.orders }
    ensures right { IfOk result (λ own. IsRightOwn (plain_terms paired.now.wave.now)
        paired.now.pairs.now (sum above.now) (as_own own)) }
    ensures duals { IfOk result (λ own. AreDuals own.duals) }
    ensures short { IfOk result (λ own. AreShortMarks paired.now.wave.now paired.now.pairs.now
        own.duals own.marks) }
{
    let given = DualWave {
        wave: paired.wave,
        pairs: paired.pairs,
        duals: &tried,
    };
    if are_feasible(workers, &given)? {
        let own = own_from(workers, paired, tried)?;
        if above.total() <= own.duals.total() {
            return Ok(own);
        }
    }
    own_from(workers, paired, above.copy(workers.alloc)?)
}
