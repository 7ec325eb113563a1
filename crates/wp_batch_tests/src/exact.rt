//! What a bracket says is added up anew: its cover, its duals and both of its sides.
use wp_lengths::Wave;
use wp_lp::Root;
use wp_pairs::{Batch, Pairs};

/// The length of a batch of a wave, where the pairs are for as many orders and permit it.
pub fn length_of(wave: &Wave, pairs: &Pairs, batch: Batch) -> Option<u64> {
    if pairs.orders() == wave.orders() && pairs.permits(batch) {
        return Some(wave.batch_length(batch));
    }
    None
}

/// What the batches with an order weigh, where no weight is below 0.
fn weight_with(root: &Root, order: u32) -> Option<i128> {
    let mut weight: i128 = 0;
    for (batch, own) in root.batches.iter().zip(root.weights.as_slice()) {
        if *own < 0 {
            return None;
        }
        if batch.has(order) {
            weight = weight.checked_add(*own)?;
        }
    }
    Some(weight)
}

/// Whether all batches are permitted and each order has exactly the denominator in weights.
pub fn is_cover(pairs: &Pairs, root: &Root) -> bool {
    if root.batches.len() != root.weights.len() || root.denominator < 1 {
        return false;
    }
    for batch in &root.batches {
        if !pairs.permits(*batch) {
            return false;
        }
    }
    for order in 0..pairs.orders() {
        if weight_with(root, order) != Some(root.denominator) {
            return false;
        }
    }
    true
}

/// The sum of the weights, each times the length of its batch.
pub fn cost_of(wave: &Wave, pairs: &Pairs, root: &Root) -> Option<i128> {
    let mut cost: i128 = 0;
    for (batch, weight) in root.batches.iter().zip(root.weights.as_slice()) {
        let long = length_of(wave, pairs, *batch)?;
        cost = cost.checked_add(weight.checked_mul(i128::from(long))?)?;
    }
    Some(cost)
}

/// The sum of the duals, where there is one for each of so many orders and none is below 0.
pub fn sum_of(root: &Root, orders: u32) -> Option<i128> {
    if root.duals.len() != orders as usize {
        return None;
    }
    let mut sum: i128 = 0;
    for dual in &root.duals {
        if *dual < 0 {
            return None;
        }
        sum = sum.checked_add(*dual)?;
    }
    Some(sum)
}

/// What a batch has in duals.
fn duals_of(root: &Root, batch: Batch) -> Option<i128> {
    let mut sum: i128 = 0;
    for order in 0..64u32 {
        if batch.has(order) {
            sum = sum.checked_add(*root.duals.get(order as usize)?)?;
        }
    }
    Some(sum)
}

/// Whether a permitted batch has no more in duals than the denominator times its length.
pub fn is_within(wave: &Wave, pairs: &Pairs, root: &Root, batch: Batch) -> bool {
    let Some(long) = length_of(wave, pairs, batch) else {
        return false;
    };
    match (
        duals_of(root, batch),
        root.denominator.checked_mul(i128::from(long)),
    ) {
        (Some(duals), Some(most)) => duals <= most,
        _ => false,
    }
}
