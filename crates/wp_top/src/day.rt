//! A day of all desks.
ghost use Rattle.std.specs.Prelude.{◌≡◌, ◌<◌, IfOk, length};
ghost use Rattle.wp_model.specs.Tables.{AreReadScripts, IsReadOpening};
ghost use Rattle.wp_planner.specs.Plans.{IsPlanFor};
ghost use Rattle.wp_planner.specs.Released.{LiesIn};
ghost use Rattle.wp_planner.specs.Sent.{sent_waves};
ghost use Rattle.wp_top.specs.Planned.{AreMadeBy, HasCrew, IsToldOf};
ghost use Rattle.wp_desk.specs.GoingOn.{new_entries, released_after};
ghost use Rattle.wp_top.specs.Sections.{refills_told};
ghost use Rattle.wp_top.specs.Runs.{IsHistoryOf};
ghost use Rattle.wp_turn.specs.Rule.{most_opened};

use crate::reading::Warehouse;
use std::alloc::Global;
use std::sync::Wait;
use std::thread::Threads;
use wp_desk::{DayRun, run_desks};
use wp_machine::{Machine, Opening, WaveHolds};
use wp_model::Memory;
use wp_outside::Gate;
use wp_planner::{DayCrew, DayPlanner, Planning, PlansWaves, Terms, WavePlan, crew_for, plan_for};
use wp_tables::Scripts;

/// What a run is run with: its threads, the allocator that gives all memory, and the gate that desks and workers pass.
#[derive(Drop)]
pub struct Resources<'a, R, G> {
    pub rt: &'a R,
    pub alloc: Global,
    pub gate: &'a G,
}

/// What the files of a day say: the warehouse, and the scripts of the desks.
#[derive(Drop)]
pub struct DayFiles {
    pub warehouse: Warehouse,
    pub scripts: Scripts,
}

/// A day that is planned: what the desks give, and the crew to which all batches are dealt, where the words have
/// pickers.
#[derive(Drop)]
pub struct DayPlans<'a> {
    pub run: DayRun<'a, Option<WavePlan>>,
    pub crew: Option<DayCrew>,
}

// Runs the scripts of all desks, after what the machine has answered. Each wave that goes out is planned by these
// calls.
fn run_planned<'a, R: Threads + Wait + Sync, C: PlansWaves, G: Gate>(
    resources: &Resources<'_, R, G>,
    opening: &'a Opening,
    machine: Machine<'a>,
    scripts: &Scripts,
    calls: C,
) -> Result<DayRun<'a, Option<WavePlan>>, Memory>
    requires takes { C.takes_any calls }
    requires opened { machine.opening ≡ opening.now }
    requires few { length machine.entries < most_opened }
    ensures history { IsReadOpening opening.now
        → IfOk result (λ day. IsHistoryOf opening.now scripts.now machine.entry day.machine) }
    ensures waves { IfOk result (λ day. sent_waves day.plans.items
        ≡ released_after machine.entry (new_entries machine.entry day.machine)) }
    ensures plans { IfOk result (λ day. AreMadeBy (C.makes calls) day.plans.items) }
    ensures refills { IfOk result (λ day. day.refills.items
        ≡ refills_told machine.entry day.machine) }
{
    let Resources { rt, alloc, gate } = *resources;
    let planner = DayPlanner::by(calls);
    run_desks(rt, alloc, opening, machine, scripts, &planner, gate)
}

/// Runs the scripts of all desks, after what the machine has answered from the opening on. Each wave that goes out now
/// is planned. All desks, and the workers that price their waves, pass the gate.
pub fn run_day<'a, R: Threads + Wait + Sync, G: Gate>(
    resources: &Resources<'_, R, G>,
    warehouse: &'a Warehouse,
    machine: Machine<'a>,
    terms: &Terms,
    scripts: &Scripts,
) -> Result<DayRun<'a, Option<WavePlan>>, Memory>
    requires opened { machine.opening ≡ warehouse.now.opening }
    requires few { length machine.entries < most_opened }
    ensures history { IfOk result (λ day. IsHistoryOf warehouse.now.opening scripts.now
        machine.entry day.machine) }
    ensures told { IfOk result (IsToldOf warehouse.now.layout terms.now machine.entry) }
{
    let Resources { rt, gate, .. } = *resources;
    let Warehouse { layout, opening } = warehouse;
    let plan = |alloc: Global, wave: &WaveHolds|
        requires { LiesIn layout.now opening.now.stock }
        ensures { IfOk result (IsPlanFor layout.entry.now opening.entry.now terms.entry.now
            wave.entry.now) }
    {
        let planning = Planning {
            rt,
            layout,
            opening,
            terms,
            gate,
        };
        plan_for(&planning, alloc, wave)
    };
    run_planned(resources, opening, machine, scripts, plan)
}

/// Runs a day, after what the machine has answered, and deals the batches of the waves that go out, where the terms
/// have pickers.
pub fn plan_day<'a, R: Threads + Wait + Sync, G: Gate>(
    resources: &Resources<'_, R, G>,
    files: &'a DayFiles,
    machine: Machine<'a>,
    terms: &Terms,
) -> Result<DayPlans<'a>, Memory>
    requires read { AreReadScripts files.now.scripts }
    requires opened { machine.opening ≡ files.now.warehouse.opening }
    requires few { length machine.entries < most_opened }
    ensures history { IfOk result (λ day. IsHistoryOf files.now.warehouse.opening files.now.scripts
        machine.entry day.run.machine) }
    ensures told { IfOk result (λ day. IsToldOf files.now.warehouse.layout terms.now machine.entry
        day.run) }
    ensures dealt { IfOk result (λ day. HasCrew terms.now day.run day.crew) }
{
    let run = run_day(resources, &files.warehouse, machine, terms, &files.scripts)?;
    let crew = crew_for(resources.alloc, run.plans.as_slice(), terms.pickers())?;
    Ok(DayPlans { run, crew })
}
