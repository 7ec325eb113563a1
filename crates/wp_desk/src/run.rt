//! A day: all desks run, and then the machine has what they asked for, after what it had answered before, in one
//! history.
ghost use Rattle.std.specs.Prelude.{◌≡◌, ◌<◌, ℕ, List, IfOk, length, map};
ghost use Rattle.std.specs.List.{All};
ghost use Rattle.std.specs.List.Sorted.{IsPermutation};
ghost use Rattle.wp_desk.specs.Days.{HasDay};
ghost use Rattle.wp_desk.specs.GoingOn.{GoesOnFrom, new_entries, refills_after, released_after};
ghost use Rattle.wp_desk.specs.Work.{AreOfDesks, ArePlanned, EndsWith, desks_of, start_of, planned_waves};
ghost use Rattle.wp_model.specs.Sound.{EachStateIsSound};
ghost use Rattle.wp_model.specs.History.{History, IsLegal, part_of, script_of};
ghost use Rattle.wp_model.specs.declared.entry.Entry.{Entry as EntryData};
ghost use Rattle.wp_turn.specs.Rule.{most_opened};

use crate::day_run::{DayRun, Planned};
use crate::desk::{Day, DeskRun};
use crate::desks::{Desks, DesksWork, run_all};
use crate::planner::Planner;
use crate::shared::Shared;
use crate::told::Told;
use std::alloc::Global;
use std::sync::Wait;
use std::thread::Threads;
use wp_machine::{Machine, Opening, Refill};
use wp_model::Memory;
use wp_outside::Gate;
use wp_tables::Scripts;
use wp_turn::Turn;

impl<'a> Day<'a> {
    // The machine again, once all desks are back.
    fn close(self, desks: Desks<'a>) -> Machine<'a>
        requires all { AreOfDesks self.turn (desks_of self.turn) desks.passes.list }
        ensures { EndsWith (start_of self.entry.turn) desks.entry.passes.list result }
    {
        let Day { opening: _, turn } = self;
        let Desks { passes } = desks;
        match turn.close(passes) {
            Ok(Shared { machine }) => machine,
            Err(_) => unreachable!(),
        }
    }
}

// Plans in the order of their waves' entries.
fn sort_plans<P: Planner>(plans: &mut Vec<Planned<P::Plan>>, planner: &P)
    requires planned { ArePlanned (P.plans planner.now) plans.old.items }
    ensures waves { (start : History) (entries : List EntryData)
        → IsPermutation (released_after start entries) (planned_waves plans.old.items)
        → planned_waves plans.new.items ≡ released_after start entries }
    ensures planned { ArePlanned (P.plans planner.now) plans.new.items }
{
    plans.sort_unstable_by_key(|planned| planned.wave.number);
}

// Refills in the order of their entries.
fn sort_refills(refills: &mut Vec<Refill>)
    ensures { (start : History) (entries : List EntryData)
        → IsPermutation (refills_after start entries) refills.old.items
        → refills.new.items ≡ refills_after start entries }
{
    refills.sort_unstable_by_key(|refill| refill.number);
}

// What a day gives, where there was memory for all that was told.
fn day_of<'a, P: Planner>(
    machine: Machine<'a>,
    told: Result<Told<P::Plan>, Memory>,
    planner: &P,
) -> Result<DayRun<'a, P::Plan>, Memory>
    requires planned { IfOk told (λ told. ArePlanned (P.plans planner.now) told.plans.items) }
    ensures day { IfOk result (HasDay (P.plans planner.now) machine.entry told) }
    ensures legal { IfOk result (λ day. IsLegal day.machine) }
    ensures sound { IfOk result (λ day. EachStateIsSound day.machine) }
{
    let _legal = machine.count();
    let Told {
        mut plans,
        mut refills,
    } = told?;
    sort_plans(&mut plans, planner);
    sort_refills(&mut refills);
    Ok(DayRun {
        machine,
        plans,
        refills,
    })
}

/// Runs the scripts of all desks, each in a thread of its own. The machine may have answered commands before, fewer
/// than 2,147,483,648. The machine that comes back has one legal history, and each state of it is sound. It has the
/// entries from before, and after them new ones: of these each desk's part is its script, and there is nothing else.
/// Each wave that a new entry sent out has one plan, related to it as the planner says, and each refill of a new entry
/// is told; both in the order of their entries. An `Err` comes from a want of memory alone, once all desks have ended,
/// and the machine is then gone. A desk passes the gate before each of its commands, and before and after it plans a
/// wave that it sent out.
pub fn run_desks<'a, R: Threads + Wait + Sync, P: Planner, G: Gate>(
    rt: &R,
    alloc: Global,
    opening: &'a Opening,
    machine: Machine<'a>,
    scripts: &Scripts,
    planner: &P,
    gate: &G,
) -> Result<DayRun<'a, P::Plan>, Memory>
    requires opened { machine.opening ≡ opening.now }
    requires few { length machine.entries < most_opened }
    ensures opening { IfOk result (λ day. day.machine.opening ≡ opening.now) }
    ensures goes_on { IfOk result (λ day. GoesOnFrom machine.entry day.machine) }
    ensures legal { IfOk result (λ day. IsLegal day.machine) }
    ensures parts { IfOk result (λ day. (desk : ℕ)
        → part_of desk (new_entries machine.entry day.machine) ≡ script_of scripts.now desk) }
    ensures sound { IfOk result (λ day. EachStateIsSound day.machine) }
    ensures waves { IfOk result (λ day. map (λ planned. planned.wave) day.plans.items
        ≡ released_after machine.entry (new_entries machine.entry day.machine)) }
    ensures plans { IfOk result (λ day. All (λ planned.
        P.plans planner.now planned.wave planned.plan) day.plans.items) }
    ensures refills { IfOk result (λ day. day.refills.items
        ≡ refills_after machine.entry (new_entries machine.entry day.machine)) }
{
    let (turn, passes) = Turn::open(alloc, Shared { machine }, scripts.desks())?;
    let day = Day { opening, turn };
    let desks = Desks { passes };
    let run = DeskRun {
        rt,
        alloc,
        scripts,
        planner,
        gate,
    };
    let DesksWork { desks, told } = run_all(&run, &day, desks);
    let machine = day.close(desks);
    day_of(machine, told, planner)
}
