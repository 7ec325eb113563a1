//! Orders change places where that makes tours shorter.
use crate::filling::Filling;
use crate::plan::{Exchange, Plan, PlannedBatch};
use std::alloc::Global;
use wp_draws::Draws;
use wp_model::Memory;

/// How many exchanges are tried an order and unit of effort.
const TRIES: u64 = 80;

/// The state from which the exchanges are drawn.
const FIRST_STATE: u64 = 1;

// One of the orders of a batch, which is drawn.
fn draw_order(draws: &mut Draws, batch: &PlannedBatch) -> Option<usize> {
    let count = batch.orders.len() as u64;
    if count == 0 {
        return None;
    }
    let place = batch.orders.get(draws.below(count) as usize)?;
    Some(*place)
}

// Two orders of two batches from one on, all of which are drawn.
fn draw_exchange(plan: &Plan, from: usize, draws: &mut Draws) -> Option<Exchange> {
    let count = plan.batches.len().saturating_sub(from) as u64;
    if count == 0 {
        return None;
    }
    let first = from.saturating_add(draws.below(count) as usize);
    let second = from.saturating_add(draws.below(count) as usize);
    let leaves_first = draw_order(draws, plan.batches.get(first)?)?;
    let leaves_second = draw_order(draws, plan.batches.get(second)?)?;
    Some(Exchange {
        first,
        second,
        leaves_first,
        leaves_second,
    })
}

// Whether an order may go to a wave from another: it begins neither, and is served after the one that begins the wave.
fn may_go(plan: &Plan, place: usize, from: usize, to: usize) -> bool {
    from == to || (plan.leader_of(from) != Some(place) && plan.leader_of(to) < Some(place))
}

impl<'a> Filling<'a> {
    // Whether two orders may change places, and come near the aisles of the others there.
    fn may_change(
        &self,
        plan: &Plan,
        orders: Exchange,
        first: &PlannedBatch,
        second: &PlannedBatch,
    ) -> bool {
        let aisles = self
            .orders
            .aisles_of_batch(first.orders.as_slice(), Some(orders.leaves_first));
        orders.first != orders.second
            && self.orders.rank_of(orders.leaves_first) == self.orders.rank_of(orders.leaves_second)
            && aisles & self.orders.aisles_of(orders.leaves_second) != 0
            && may_go(plan, orders.leaves_first, first.wave, second.wave)
            && may_go(plan, orders.leaves_second, second.wave, first.wave)
    }

    // Draws two orders of the batches from one on, and lets them change places where that makes tours shorter.
    fn try_exchange(&self, plan: &mut Plan, from: usize, draws: &mut Draws) -> Option<()> {
        let orders = draw_exchange(plan, from, draws)?;
        let first = plan.batches.get(orders.first)?;
        let second = plan.batches.get(orders.second)?;
        if !self.may_change(plan, orders, first, second) {
            return None;
        }
        let before = first.length.saturating_add(second.length);
        let one = self.orders.length_with(
            first.orders.as_slice(),
            Some(orders.leaves_first),
            orders.leaves_second,
        );
        let other = self.orders.length_with(
            second.orders.as_slice(),
            Some(orders.leaves_second),
            orders.leaves_first,
        );
        if one + other < before {
            plan.exchange(orders, one, other);
        }
        Some(())
    }

    // Lets orders of the batches from one on change places, so many times an order.
    fn improve(&self, plan: &mut Plan, from: usize, tries: u64) {
        let mut draws = Draws::from_state(FIRST_STATE);
        for _ in 0..tries {
            let _changed = self.try_exchange(plan, from, &mut draws);
        }
    }

    /// Plans waves of the orders of a group, which are left, and betters them with so much effort.
    pub fn plan_group(&self, alloc: Global, plan: &mut Plan, effort: u32) -> Result<(), Memory> {
        let from = plan.batches.len();
        let count = plan.left.len();
        for _ in 0..count {
            if !plan.left.is_empty() {
                self.fill_wave(alloc, plan)?;
            }
        }
        let tries = (count as u64)
            .saturating_mul(u64::from(effort))
            .saturating_mul(TRIES);
        self.improve(plan, from, tries);
        Ok(())
    }
}
