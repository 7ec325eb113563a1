ghost use Rattle.std.specs.Prelude.{◌≡◌, Ok, Option, IfOk};
ghost use Rattle.wp_machine.specs.declared.outcome.WaveHolds.{WaveHolds as Holds};
ghost use Rattle.wp_planner.specs.declared.planner.WavePlan.{WavePlan as Plan};

use crate::planner::WavePlan;
use std::alloc::Global;
use std::marker::Model;
use wp_desk::Planner;
use wp_machine::WaveHolds;
use wp_model::Memory;

/// What a day's planner calls for each wave: a closure, which holds all that a plan is made with.
pub trait PlansWaves: Drop + Send + Sync {
    /// It may be called for any wave.
    ghost takes_any: { Self → Type 0 };

    /// What a call for a wave may make of it.
    ghost makes: { Self → Holds → Option Plan → Type 0 };

    /// The plan of a wave.
    fn plan_wave(&self, alloc: Global, wave: &WaveHolds) -> Result<Option<WavePlan>, Memory>
        requires { takes_any self.now }
        ensures { IfOk result (makes self.now wave.now) };
}

impl<F: Fn(Global, &WaveHolds) -> Result<Option<WavePlan>, Memory> + Drop + Send + Sync> PlansWaves
    for F {
    ghost takes_any = { λ f. F.IsAlwaysCallable f };

    ghost makes = { λ f wave plan. (alloc : _) × (shown : _) × F.post f alloc shown (Ok plan) × (shown.now ≡ wave) };

    fn plan_wave(&self, alloc: Global, wave: &WaveHolds) -> Result<Option<WavePlan>, Memory> {
        self(alloc, wave)
    }
}

/// What plans the waves of a day, each by a call of the same closure.
#[derive(Drop)]
pub struct DayPlanner<C: PlansWaves> {
    calls: C,
}

impl<C: PlansWaves> Model for DayPlanner<C> {
    ghost Value = { C };

    ghost view = { λ p. p.calls };

    ghost invariant = { λ p. C.takes_any p.calls };
}

impl<C: PlansWaves> DayPlanner<C> {
    /// The planner that calls this for each wave.
    pub fn by(calls: C) -> DayPlanner<C>
        requires { C.takes_any calls }
        ensures { result ≡ calls }
    {
        DayPlanner { calls }
    }
}

impl<C: PlansWaves> Planner for DayPlanner<C> {
    type Plan = Option<WavePlan>;

    ghost plans = { C.makes };

    fn plan(&self, alloc: Global, wave: &WaveHolds) -> Result<Option<WavePlan>, Memory> {
        self.calls.plan_wave(alloc, wave)
    }
}
