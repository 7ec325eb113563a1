//! What batches pay by the prices of a node, and what all orders do.
ghost use Rattle.std.specs.Prelude.{◌≡◌, ◌+◌, ◌*◌, ◌≤◌, ◌^◌, length, sum};
ghost use Rattle.wp_cuts.specs.Cuts.{times_met_by_all};
ghost use Rattle.wp_cuts.specs.Prices.{taken_off_all};
ghost use Rattle.wp_cert.specs.Kept.{IsOwed, most_off};

use crate::tree::Own;
use wp_cuts::RankCut;

// The price of a cut as often as all its orders together would meet it.
fn off_all(cut: &RankCut, price: u64) -> u128
    ensures is { result ≡ price * times_met_by_all cut.now }
    ensures small { result ≤ 4096 * 2 ^ 64 }
{
    u128::from(price) * u128::from(cut.times_met_by_all())
}

/// What cuts take off all orders.
pub fn taken_off_all(cuts: &Vec<RankCut>, prices: &[u64]) -> u128
    requires few { length cuts.now.items ≤ 64 }
    ensures is { result ≡ taken_off_all cuts.now.items prices.now }
    ensures small { result ≤ most_off }
{
    let mut total: u128 = 0;
    for at in 0..cuts.len().min(prices.len()) {
        total += off_all(&cuts[at], prices[at]);
    }
    total
}

// The price of so many batches.
fn counted(count: u64, batches: u64) -> u128
    requires { batches ≤ 64 }
    ensures is { result ≡ batches * count }
    ensures small { result ≤ 64 * 2 ^ 64 }
{
    u128::from(batches) * u128::from(count)
}

/// All duals, of up to 64 orders, and the price of so many batches.
pub fn all_charged(duals: &[u64], count: u64, batches: u64) -> u128
    requires few { length duals.now ≤ 64 }
    requires counted { batches ≤ 64 }
    ensures { result ≡ sum duals.now + batches * count }
{
    let mut total = counted(count, batches);
    for order in 0..duals.len() {
        total += u128::from(duals[order]);
    }
    total
}

/// What a place owes that has so much in duals with its reach, and of which so much is taken off.
pub fn owed(own: &Own, duals: u128, off: u128) -> u64
    requires { off ≤ most_off }
    ensures { IsOwed (duals + own.now.count) off result }
{
    let charged = duals.saturating_add(u128::from(own.count));
    match u64::try_from(charged.saturating_sub(off)) {
        Ok(owed) => owed,
        Err(_) => u64::MAX,
    }
}
