//! All desks, each in a thread of its own.
ghost use Rattle.std.specs.Prelude.{◌≡◌, ◌<◌, ◌∷◌, ◌++◌, [], IfSome, IfNone, length, map, reverse};
ghost use Rattle.std.specs.List.{All};
ghost use Rattle.std.specs.Thread.{IsSend, IsSync};
ghost use Rattle.wp_model.specs.Tables.{AreReadScripts};
ghost use Rattle.wp_desk.specs.Work.{IsDeskWork, IsDesksWork, IsFresh};

use crate::desk::{Day, Desk, DeskRun, DeskWork};
use crate::planner::Planner;
use crate::shared::Shared;
use crate::told::{Told, both_told, nothing_told};
use std::alloc::Global;
use std::sync::Wait;
use std::thread::{Threads, join};
use wp_model::Memory;
use wp_outside::Gate;
use wp_tables::Scripts;
use wp_turn::Passes;

/// Desks, by their rights to make calls.
#[derive(Drop)]
pub(crate) struct Desks<'a> {
    pub(crate) passes: Passes<Shared<'a>>,
}

/// Desks, and what their steps told, where there was memory for that.
#[derive(Drop)]
pub(crate) struct DesksWork<'a, T> {
    pub(crate) desks: Desks<'a>,
    pub(crate) told: Result<Told<T>, Memory>,
}

// Takes out the first of desks that have seen nothing yet; none where there is no desk left.
fn next_desk<'a>(day: &Day<'a>, desks: &mut Desks<'a>, scripts: &Scripts) -> Option<Desk<'a>>
    requires fresh { All (IsFresh day.now.turn scripts.now) desks.old.passes.list }
    ensures first { IfSome result (λ desk. IsFresh day.now.turn scripts.now desk.pass) }
    ensures fresh { All (IsFresh day.now.turn scripts.now) desks.new.passes.list }
    ensures list { IfSome result (λ desk. desks.old.passes.list ≡ desk.pass
        ∷ desks.new.passes.list) }
    ensures room { IfSome result (λ _. length desks.new.passes.list < desks.new.passes.room) }
    ensures none { IfNone result (desks.new.passes.list ≡ [] × (desks.old.passes.list ≡ [])) }
    ensures same_room { desks.new.passes.room ≡ desks.old.passes.room }
{
    let _room = desks.passes.room();
    match desks.passes.next() {
        Some(pass) => Some(Desk { pass }),
        None => None,
    }
}

// A desk joins the others, and what its steps told what theirs did.
fn joined<'a, R, P: Planner, G>(
    day: &Day<'a>,
    run: &DeskRun<'_, R, P, G>,
    one: DeskWork<'a, P::Plan>,
    others: DesksWork<'a, P::Plan>,
) -> DesksWork<'a, P::Plan>
    requires one { IsDeskWork day.now.turn run.now.scripts.now
        (P.plans run.now.planner.now) one.desk.pass.caller one }
    requires others { IsDesksWork day.now.turn run.now.scripts.now (P.plans run.now.planner.now)
        (map (λ pass. pass.caller) others.desks.passes.list) others }
    requires room { length others.desks.passes.list < others.desks.passes.room }
    ensures work { IsDesksWork day.now.turn run.now.scripts.now (P.plans run.now.planner.now)
        (map (λ pass. pass.caller) others.entry.desks.passes.list ++ one.entry.desk.pass.caller ∷ []) result }
    ensures room { result.desks.passes.room ≡ others.entry.desks.passes.room }
{
    let DeskWork { desk, told } = one;
    let DesksWork {
        mut desks,
        told: others_told,
    } = others;
    let Desk { pass } = desk;
    desks.passes.put(pass);
    DesksWork {
        desks,
        told: both_told::<P>(others_told, told),
    }
}

/// Runs the scripts of desks that have seen nothing yet, each in a thread of its own. The desks come back in the
/// opposite order.
pub(crate) fn run_all<'a, R: Threads + Wait + Sync, P: Planner, G: Gate>(
    run: &DeskRun<'_, R, P, G>,
    day: &Day<'a>,
    mut desks: Desks<'a>,
) -> DesksWork<'a, P::Plan>
    requires crossing { IsSync R.row × IsSync P.row × IsSync G.row × IsSend P.Plan.row }
    requires read { AreReadScripts run.now.scripts.now }
    requires fresh { All (IsFresh day.now.turn run.now.scripts.now) desks.passes.list }
    ensures work { IsDesksWork day.now.turn run.now.scripts.now (P.plans run.now.planner.now)
        (reverse (map (λ pass. pass.caller) desks.entry.passes.list)) result }
    ensures room { result.desks.passes.room ≡ desks.entry.passes.room }
{
    let DeskRun {
        rt,
        alloc,
        scripts,
        planner,
        gate,
    } = *run;
    let Some(desk) = next_desk(day, &mut desks, scripts) else {
        return DesksWork {
            desks,
            told: Ok(nothing_told::<P>(alloc)),
        };
    };
    let (one, others) = join(
        rt,
        move ||
            requires { AreReadScripts scripts.now × IsFresh day.now.turn scripts.now desk.pass }
            ensures { IsDeskWork day.entry.now.turn scripts.entry.now
                (P.plans planner.entry.now) desk.entry.pass.caller result }
        {
            let run = DeskRun {
                rt,
                alloc,
                scripts,
                planner,
                gate,
            };
            day.run_script(&run, desk)
        },
        move ||
            requires { IsSync R.row × IsSync P.row × IsSync G.row × AreReadScripts scripts.now
                × All (IsFresh day.now.turn scripts.now) desks.passes.list }
            ensures { IsDesksWork day.entry.now.turn scripts.entry.now (P.plans planner.entry.now)
                (reverse (map (λ pass. pass.caller) desks.entry.passes.list)) result
                × (result.desks.passes.room ≡ desks.entry.passes.room) }
        {
            let run = DeskRun {
                rt,
                alloc,
                scripts,
                planner,
                gate,
            };
            run_all(&run, day, desks)
        },
    );
    joined(day, run, one, others)
}
