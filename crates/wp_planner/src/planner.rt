ghost use Rattle.std.specs.Prelude.{◌≡◌, ◌≤◌, IfOk, length};
ghost use Rattle.wp_search.specs.Plans.{IsGoodPlan};
ghost use Rattle.wp_machine.specs.declared.outcome.WaveHolds.{WaveHolds as Holds};
ghost use Rattle.wp_model.specs.Opening.{Opening as OpeningData};
ghost use Rattle.wp_model.specs.Warehouse.{Layout as Block};
ghost use Rattle.wp_planner.specs.Plans.{IsCertified, IsPlanFor, IsPlanOf};
ghost use Rattle.wp_planner.specs.Released.{IsWaveOf, LiesIn};
ghost use Rattle.wp_planner.specs.Roots.{IsRootFor};
ghost use Rattle.wp_planner.specs.Terms.{budget_of};

use crate::bracket::root_of;
use crate::released::ReleasedWave;
use crate::terms::Terms;
use crate::waves::wave_of;
use std::alloc::Global;
use std::thread::Threads;
use wp_graph::Layout;
use wp_lengths::Wave;
use wp_lp::Root;
use wp_machine::{Opening, WaveHolds};
use wp_model::Memory;
use wp_node::pays;
use wp_outside::Gate;
use wp_pairs::Capacity;
use wp_search::{Planned, plan_wave};

/// How many lengths are kept at most where the budget doesn't pay for duals of a node's own.
const MOST_KEPT: u64 = 50_000;

/// What the waves of a day are planned with: the layout, the opening whose stock lies in it, the terms, and the threads
/// and the gate of the workers that price them.
#[derive(Drop)]
pub struct Planning<'a, R, G> {
    pub rt: &'a R,
    pub layout: &'a Layout,
    pub opening: &'a Opening,
    pub terms: &'a Terms,
    pub gate: &'a G,
    pub ghost lies: { LiesIn layout.now opening.now.stock },
}

/// A wave, its plan, and a bracket of its linear bound where the terms ask for one.
#[derive(Drop)]
pub struct WavePlan {
    pub wave: Wave,
    pub planned: Planned,
    pub root: Option<Root>,
}

// What is searched for while a wave's lengths are kept: its plan, and the bracket.
#[derive(Drop)]
struct FoundPlan {
    planned: Planned,
    root: Option<Root>,
}

// Up to how many orders the batches have of which no more than so many lengths are to be kept.
fn orders_within(wave: &Wave, capacity: Capacity, most: u64) -> u32
    ensures { result ≤ capacity.most }
{
    let visits = u64::from(4 * wave.orders() + 4);
    let mut kept = 0;
    for size in 1..capacity.most + 1 {
        let within = Capacity { most: size };
        if pays(wave.orders(), within, most.saturating_mul(visits)) {
            kept = size;
        }
    }
    kept
}

// Up to how many orders the batches have whose lengths are kept while a wave is planned: those of all batches are asked
// for again and again where the budget pays for duals of a node's own. Where it doesn't, the start asks for the lengths
// of batches of few orders more often than it takes to keep them, as long as these aren't too many.
fn kept_orders(wave: &Wave, capacity: Capacity, budget: u64) -> u32
    ensures { result ≤ capacity.most }
{
    if pays(wave.orders(), capacity, budget) {
        capacity.most
    } else {
        orders_within(wave, capacity, MOST_KEPT)
    }
}

// The plan of a wave, and the bracket of its linear bound. Where the wave is one that went out, the text of the plan's
// certificate tells its bound.
fn searched<R: Threads + Sync, G: Gate>(
    planning: &Planning<'_, R, G>,
    alloc: Global,
    wave: &Wave,
) -> Result<FoundPlan, Memory>
    ensures plan { IfOk result (λ found. IsGoodPlan wave.now planning.now.terms.now.capacity
        (budget_of (length wave.now.orders) planning.now.terms.now) found.planned) }
    ensures root { IfOk result (λ found. IsRootFor planning.now.terms.now wave.now found.root) }
    ensures certified { (layout : Block) (opening : OpeningData) (released : Holds)
        → IsWaveOf layout opening released wave.now
        → IfOk result (λ found. IsCertified layout planning.now.terms.now wave.now found.planned) }
{
    let capacity = planning.terms.capacity();
    let budget = planning.terms.budget_for(wave.orders());
    let workers = planning.terms.workers();
    let planned = plan_wave(
        planning.rt,
        alloc,
        wave,
        capacity.most,
        budget,
        workers,
        planning.gate,
    )?;
    let root = root_of(planning, alloc, wave, &planned)?;
    Ok(FoundPlan { planned, root })
}

// The plan of a wave that went out: a good plan, for the terms' capacity and what they spend on it, of the wave whose
// orders pick at the slots of the layout at which they hold units, and whose batches fit a cart of the opening's units,
// if it has them; and a bracket of its linear bound, where the terms ask for one. The text of its certificate tells its
// bound. The workers that price it pass the gate.
fn plan_of<R: Threads + Sync, G: Gate>(
    planning: &Planning<'_, R, G>,
    alloc: Global,
    released: &ReleasedWave<'_>,
) -> Result<WavePlan, Memory>
    requires { released.now.opening ≡ planning.now.opening.now }
    ensures { IfOk result (IsPlanOf planning.now.layout.now planning.now.opening.now
        released.now.wave planning.now.terms.now) }
{
    let mut wave = wave_of(alloc, planning.layout, released)?;
    let budget = planning.terms.budget_for(wave.orders());
    let kept = kept_orders(&wave, planning.terms.capacity(), budget);
    wave.keep_lengths_by(planning.rt, alloc, kept, planning.terms.workers())?;
    let FoundPlan { planned, root } = searched(planning, alloc, &wave)?;
    wave.keep_lengths(alloc, 0)?;
    Ok(WavePlan {
        wave,
        planned,
        root,
    })
}

/// The plan of a wave that goes out. None comes exactly where a wave isn't one that does. The workers that price it
/// pass the gate.
pub fn plan_for<R: Threads + Sync, G: Gate>(
    planning: &Planning<'_, R, G>,
    alloc: Global,
    wave: &WaveHolds,
) -> Result<Option<WavePlan>, Memory>
    ensures { IfOk result (IsPlanFor planning.now.layout.now planning.now.opening.now
        planning.now.terms.now wave.now) }
{
    let Some(released) = ReleasedWave::of(planning.opening, wave) else {
        return Ok(None);
    };
    let plan = plan_of(planning, alloc, &released)?;
    Ok(Some(plan))
}
