//! What the planner's start costs for waves that went out.
ghost use Rattle.std.specs.Prelude.{◌≡◌, IfOk, length};
ghost use Rattle.std.specs.List.{All};
ghost use Rattle.wp_planner.specs.Released.{IsReleased};
ghost use Rattle.wp_waves_out.specs.Starts.{AreStarts, IsStart};

use std::alloc::Global;
use std::thread::Threads;
use wp_machine::WaveHolds;
use wp_model::Memory;
use wp_outside::Gate;
use wp_planner::{Planning, plan_for};

// What a plan of a wave costs that went out.
fn start_of<R: Threads + Sync, G: Gate>(
    planning: &Planning<'_, R, G>,
    alloc: Global,
    wave: &WaveHolds,
) -> Result<u64, Memory>
    requires { IsReleased planning.now.opening.now wave.now }
    ensures { IfOk result (IsStart planning.now.layout.now planning.now.opening.now
        planning.now.terms.now.capacity wave.now) }
{
    match plan_for(planning, alloc, wave)? {
        Some(plan) => Ok(plan.planned.cost),
        None => unreachable!(),
    }
}

/// What plans of waves cost that went out, one by one. An `Err` comes from a want of memory alone.
pub(crate) fn starts_of<R: Threads + Sync, G: Gate>(
    planning: &Planning<'_, R, G>,
    alloc: Global,
    sent: &[WaveHolds],
) -> Result<Vec<u64>, Memory>
    requires { All (IsReleased planning.now.opening.now) sent.now }
    ensures starts { IfOk result (λ starts. AreStarts planning.now.layout.now
        planning.now.opening.now planning.now.terms.now.capacity sent.now starts.items) }
    ensures count { IfOk result (λ starts. length starts.items ≡ length sent.now) }
{
    let mut starts = Vec::new(alloc);
    for wave in sent {
        let start = start_of(planning, alloc, wave)?;
        starts.push(start)?;
    }
    Ok(starts)
}
