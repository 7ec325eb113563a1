//! Keys that say which orders go well together.
ghost use Rattle.std.specs.Prelude.{◌≡◌, ◌<◌, IfOk, length};

use crate::filling::{Filling, Sizes};
use crate::orders::SoughtOrders;
use crate::plan::Plan;
use std::alloc::Global;
use wp_model::{Memory, Name};
use wp_waves::OpenOrder;

// An order by its group.
#[derive(Clone, Copy)]
struct GroupedOrder {
    group: Name,
    place: usize,
}

// The places of served orders, group by group, and in a group as they are served.
fn by_group(alloc: Global, served: &[OpenOrder]) -> Result<Vec<GroupedOrder>, Memory> {
    let mut grouped = Vec::new(alloc);
    for place in 0..served.len() {
        grouped.push(GroupedOrder {
            group: served[place].group,
            place,
        })?;
    }
    grouped.sort_by(|one, other| one.group.as_bytes().cmp(other.group.as_bytes()))?;
    Ok(grouped)
}

// Whether an order is of another group than the one before it.
fn begins_group(grouped: &[GroupedOrder], index: usize) -> bool
    requires { index < length grouped.now }
{
    index > 0 && grouped[index].group != grouped[index - 1].group
}

// Waves of all groups.
fn planned(
    alloc: Global,
    grouped: &[GroupedOrder],
    filling: Filling<'_>,
    effort: u32,
) -> Result<Plan, Memory> {
    let mut plan = Plan::new(alloc);
    for index in 0..grouped.len() {
        if begins_group(grouped, index) {
            filling.plan_group(alloc, &mut plan, effort)?;
        }
        plan.left.push(grouped[index].place)?;
    }
    filling.plan_group(alloc, &mut plan, effort)?;
    Ok(plan)
}

// A key for each served order, group by group.
pub(crate) fn propose(
    alloc: Global,
    served: &[OpenOrder],
    orders: &SoughtOrders,
    sizes: Sizes,
    effort: u32,
) -> Result<Vec<u32>, Memory>
    ensures { IfOk result (λ keys. length keys.items ≡ length served.now) }
{
    let grouped = by_group(alloc, served)?;
    let filling = Filling { orders, sizes };
    let plan = planned(alloc, grouped.as_slice(), filling, effort)?;
    plan.waves(alloc, served.len())
}
