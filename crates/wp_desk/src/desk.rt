//! One desk: its commands, one after the other.
//!
//! A pass is never let go: where memory runs out, the desk hands it back with that answer, so that the turn can be
//! ended.
ghost use Rattle.std.specs.Prelude.{◌≡◌, ◌≤◌, ◌<◌, [], length, IfOk, IsTrue};
ghost use Rattle.std.specs.List.{All};
ghost use Rattle.wp_desk.specs.Work.{ArePlanned, BeginsAt, IsAnswered, IsDeskWork, IsFresh, IsOfDesk, IsScriptWork};
ghost use Rattle.wp_desk.specs.Work.{IsToldWithPlans, start_of};
ghost use Rattle.wp_machine.specs.declared.outcome.Outcome.{Outcome as OutcomeData};
ghost use Rattle.wp_model.specs.Limits.{most_commands};
ghost use Rattle.wp_model.specs.Plain.{is_plain};
ghost use Rattle.wp_model.specs.Tables.{AreReadScripts};
ghost use Rattle.wp_turn.specs.Promises.{own_calls};
ghost use Rattle.wp_turn.specs.Rule.{most_calls};

use crate::planner::Planner;
use crate::shared::Shared;
use crate::told::{Told, keep_outcome, nothing_told};
use std::alloc::Global;
use std::sync::Wait;
use wp_machine::{Opening, Outcome, Ready, prepare};
use wp_model::{Command, Memory};
use wp_outside::{Gate, Moment};
use wp_tables::Scripts;
use wp_turn::{Pass, Turn};

/// What all desks share: the opening, and the machine in its turn, which began with that opening.
#[derive(Drop)]
pub(crate) struct Day<'a> {
    pub(crate) opening: &'a Opening,
    pub(crate) turn: Turn<Shared<'a>>,
    pub(crate) ghost begins: { BeginsAt opening.now turn },
}

/// What all desks of a day are run with: their threads, the allocator that gives the memory for what they make, their
/// scripts, what plans the waves that they send out, and the gate that they pass.
#[derive(Drop)]
pub(crate) struct DeskRun<'a, R, P, G> {
    pub(crate) rt: &'a R,
    pub(crate) alloc: Global,
    pub(crate) scripts: &'a Scripts,
    pub(crate) planner: &'a P,
    pub(crate) gate: &'a G,
}

/// One desk, by its right to make calls. Its number is that of its pass.
#[derive(Drop)]
pub(crate) struct Desk<'a> {
    pub(crate) pass: Pass<Shared<'a>>,
}

/// A desk, and what its steps told, where there was memory for that.
#[derive(Drop)]
pub(crate) struct DeskWork<'a, T> {
    pub(crate) desk: Desk<'a>,
    pub(crate) told: Result<Told<T>, Memory>,
}

impl<'a> Day<'a> {
    // A desk's command with all that its step needs.
    fn prepare(&self, alloc: Global, command: &Command) -> Result<Ready<'a>, Memory>
        requires { IsTrue (is_plain command.now) }
        ensures { IfOk result (λ ready. ready ≡ record {
          opening = self.now.opening.now;
          command = command.now;
        }) }
    {
        prepare(alloc, self.opening, command.copy(alloc)?)
    }

    // Answers a desk's command in its turn.
    fn call<R: Wait>(&self, rt: &R, desk: Desk<'a>, ready: Ready<'a>) -> (Desk<'a>, Outcome)
        requires own { IsOfDesk self.now.turn desk.pass.caller desk.pass }
        requires same { ready.opening ≡ self.now.opening.now }
        requires few { length (own_calls desk.pass) < most_calls }
        ensures { IsAnswered (start_of self.now.turn) desk.entry.pass result.0.pass
            ready.entry.command result.1 }
    {
        let Desk { pass } = desk;
        let (pass, receipt) = self.turn.call(rt, pass, ready);
        (Desk { pass }, receipt.out.outcome)
    }

    // Passes the gate, has a desk's command answered, and keeps what its step told.
    fn answer<R: Wait, P: Planner, G: Gate>(
        &self,
        run: &DeskRun<'_, R, P, G>,
        desk: Desk<'a>,
        told: &mut Told<P::Plan>,
        ready: Ready<'a>,
    ) -> (Desk<'a>, Result<(), Memory>)
        requires own { IsOfDesk self.now.turn desk.pass.caller desk.pass }
        requires same { ready.opening ≡ self.now.opening.now }
        requires few { length (own_calls desk.pass) < most_calls }
        requires planned { ArePlanned (P.plans run.now.planner.now) told.old.plans.items }
        ensures own { IsOfDesk self.now.turn desk.entry.pass.caller result.0.pass }
        ensures kept { IfOk result.1 (λ _. (outcome : OutcomeData)
            × IsAnswered (start_of self.now.turn) desk.entry.pass result.0.pass ready.entry.command outcome
            × IsToldWithPlans (P.plans run.now.planner.now) told.old told.new outcome) }
    {
        let number = desk.pass.caller();
        run.gate.pass(number, Moment::BeforeCommand);
        let (desk, outcome) = self.call(run.rt, desk, ready);
        let kept = keep_outcome(run, told, number, outcome);
        (desk, kept)
    }

    // One command more of a desk.
    fn ask<R: Wait, P: Planner, G: Gate>(
        &self,
        run: &DeskRun<'_, R, P, G>,
        desk: Desk<'a>,
        told: &mut Told<P::Plan>,
        command: &Command,
    ) -> (Desk<'a>, Result<(), Memory>)
        requires own { IsOfDesk self.now.turn desk.pass.caller desk.pass }
        requires plain { IsTrue (is_plain command.now) }
        requires few { length (own_calls desk.pass) < most_calls }
        requires planned { ArePlanned (P.plans run.now.planner.now) told.old.plans.items }
        ensures own { IsOfDesk self.now.turn desk.entry.pass.caller result.0.pass }
        ensures kept { IfOk result.1 (λ _. (outcome : OutcomeData)
            × IsAnswered (start_of self.now.turn) desk.entry.pass result.0.pass command.now outcome
            × IsToldWithPlans (P.plans run.now.planner.now) told.old told.new outcome) }
    {
        match self.prepare(run.alloc, command) {
            Ok(ready) => self.answer(run, desk, told, ready),
            Err(Memory) => (desk, Err(Memory)),
        }
    }

    // All commands of a desk, one after the other, up to the first for which there is no memory.
    fn run_desk<R: Wait, P: Planner, G: Gate>(
        &self,
        run: &DeskRun<'_, R, P, G>,
        mut desk: Desk<'a>,
        script: &[Command],
    ) -> DeskWork<'a, P::Plan>
        requires own { IsOfDesk self.now.turn desk.pass.caller desk.pass }
        requires nothing { desk.pass.calls ≡ [] }
        requires plain { All (λ command. IsTrue (is_plain command)) script.now }
        requires few { length script.now ≤ most_commands }
        ensures { IsScriptWork self.now.turn script.now (P.plans run.now.planner.now)
            desk.entry.pass.caller result }
    {
        let mut told = nothing_told::<P>(run.alloc);
        for command in script {
            let (next, kept) = self.ask(run, desk, &mut told, command);
            desk = next;
            if kept.is_err() {
                return DeskWork {
                    desk,
                    told: Err(Memory),
                };
            }
        }
        DeskWork {
            desk,
            told: Ok(told),
        }
    }

    /// The script of a desk that has seen nothing yet.
    pub(crate) fn run_script<R: Wait, P: Planner, G: Gate>(
        &self,
        run: &DeskRun<'_, R, P, G>,
        desk: Desk<'a>,
    ) -> DeskWork<'a, P::Plan>
        requires read { AreReadScripts run.now.scripts.now }
        requires fresh { IsFresh self.now.turn run.now.scripts.now desk.pass }
        ensures { IsDeskWork self.now.turn run.now.scripts.now
            (P.plans run.now.planner.now) desk.entry.pass.caller result }
    {
        let script = run.scripts.script(desk.pass.caller());
        self.run_desk(run, desk, script)
    }
}
