ghost use Rattle.std.specs.Prelude.{IfOk};
ghost use Rattle.wp_machine.specs.declared.outcome.WaveHolds.{WaveHolds as Holds};

use std::alloc::Global;
use wp_machine::WaveHolds;
use wp_model::Memory;

/// What plans the waves that go out. All desks share it.
pub trait Planner: Send + Sync {
    /// What it makes of a wave.
    type Plan: Drop + Send;

    /// How a wave that went out and its plan are related.
    ghost plans: { Self → Holds → Self.Plan → Type 0 };

    /// The plan of a wave.
    fn plan(&self, alloc: Global, wave: &WaveHolds) -> Result<Self::Plan, Memory>
        ensures { IfOk result (plans self.now wave.now) };
}
