ghost use Rattle.std.specs.Prelude.{◌≡◌, IsSome, Some};

use crate::planner::WavePlan;
use wp_desk::Planned;

/// The plan of a wave that went out on a day. It is there for each wave of a history's steps, since each of these is
/// one that can have gone out. A planner may be handed any wave, so its answer alone doesn't say so.
pub fn plan_sent(one: &Planned<Option<WavePlan>>) -> &WavePlan
    requires { IsSome one.now.plan }
    ensures { one.now.plan ≡ Some result.now }
{
    let Some(plan) = &one.plan else {
        unreachable!()
    };
    plan
}
