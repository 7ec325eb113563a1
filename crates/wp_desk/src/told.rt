ghost use Rattle.std.specs.Prelude.{◌≡◌, [], ◌∷◌, ◌++◌, IfOk, IsOk};
ghost use Rattle.wp_desk.specs.Work.{ArePlanned, planned_waves};
ghost use Rattle.wp_machine.specs.Outcome.{refill_in, released_in};

use crate::day_run::Planned;
use crate::desk::DeskRun;
use crate::planner::Planner;
use std::alloc::Global;
use wp_machine::{Outcome, Refill, WaveHolds};
use wp_model::Memory;
use wp_outside::{Gate, Moment};

/// What steps told: the waves that went out, each with its plan, and the refills.
#[derive(Drop)]
pub(crate) struct Told<T> {
    pub(crate) plans: Vec<Planned<T>>,
    pub(crate) refills: Vec<Refill>,
}

// Nothing was told yet.
pub(crate) fn nothing_told<P: Planner>(alloc: Global) -> Told<P::Plan>
    ensures plans { result.plans.items ≡ [] }
    ensures refills { result.refills.items ≡ [] }
{
    Told {
        plans: Vec::new(alloc),
        refills: Vec::new(alloc),
    }
}

// Plans a wave that this desk sent out, and keeps it with its plan.
fn keep_plan<R, P: Planner, G: Gate>(
    run: &DeskRun<'_, R, P, G>,
    plans: &mut Vec<Planned<P::Plan>>,
    desk: u32,
    wave: WaveHolds,
) -> Result<(), Memory>
    requires planned { ArePlanned (P.plans run.now.planner.now) plans.old.items }
    ensures waves { IfOk result (λ _. planned_waves plans.new.items ≡ planned_waves plans.old.items
        ++ wave
        ∷ []) }
    ensures planned { IfOk result (λ _. ArePlanned (P.plans run.now.planner.now) plans.new.items) }
{
    run.gate.pass(desk, Moment::BeforePlan);
    let plan = run.planner.plan(run.alloc, &wave)?;
    run.gate.pass(desk, Moment::AfterPlan);
    plans.push(Planned { wave, plan })?;
    Ok(())
}

// Keeps what a step of this desk told: a wave that went out with its plan, or a refill.
pub(crate) fn keep_outcome<R, P: Planner, G: Gate>(
    run: &DeskRun<'_, R, P, G>,
    told: &mut Told<P::Plan>,
    desk: u32,
    outcome: Outcome,
) -> Result<(), Memory>
    requires planned { ArePlanned (P.plans run.now.planner.now) told.old.plans.items }
    ensures waves { IfOk result (λ _. planned_waves told.new.plans.items
        ≡ planned_waves told.old.plans.items
        ++ released_in outcome) }
    ensures planned { IfOk result (λ _. ArePlanned
        (P.plans run.now.planner.now) told.new.plans.items) }
    ensures refills { IfOk result (λ _. told.new.refills.items ≡ told.old.refills.items
        ++ refill_in outcome) }
{
    match outcome {
        Outcome::Released(wave) => keep_plan(run, &mut told.plans, desk, wave),
        Outcome::Refilled(refill) => {
            told.refills.push(refill)?;
            Ok(())
        }
        Outcome::Plain => Ok(()),
    }
}

// What was told to some desks, and then what was told to one more, where there was memory for both.
pub(crate) fn both_told<P: Planner>(
    some: Result<Told<P::Plan>, Memory>,
    one: Result<Told<P::Plan>, Memory>,
) -> Result<Told<P::Plan>, Memory>
    ensures both { IfOk result (λ both. IfOk some (λ told. IfOk one (λ more.
        (both.plans.items ≡ told.plans.items ++ more.plans.items)
        × (both.refills.items ≡ told.refills.items ++ more.refills.items)))) }
    ensures there { IfOk result (λ _. IsOk some × IsOk one) }
{
    let mut told = some?;
    let mut more = one?;
    told.plans.append(&mut more.plans)?;
    told.refills.append(&mut more.refills)?;
    Ok(told)
}
