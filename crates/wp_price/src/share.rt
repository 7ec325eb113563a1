//! First items, dealt out to workers.
ghost use Rattle.std.specs.Prelude.{◌≡◌, ◌<◌, ◌≤◌, ℕ, Contains, IfOk, length};
ghost use Rattle.wp_price.specs.Shares.{IsDealt};

use std::alloc::Global;
use wp_model::Memory;
use wp_pairs::Batch;

// Whose turn it is when so many items were dealt: along the row of workers, and back again.
fn turn_after(dealt: u32, workers: u32) -> u32
    requires { 0 < workers }
    ensures within { result < workers }
    ensures first { dealt < workers → result ≡ dealt }
{
    let place = dealt % workers;
    if dealt / workers % 2 == 0 {
        place
    } else {
        workers - 1 - place
    }
}

/// Deals first items out to workers, one by one, along the row of workers and back again: the lower the order that
/// names an item, the more items may follow it. A share is the set of the orders that name its items.
pub fn deal(alloc: Global, orders: u32, firsts: Batch, workers: u32) -> Result<Vec<Batch>, Memory>
    requires few { orders ≤ 64 }
    requires some { 0 < workers }
    ensures count { IfOk result (λ shares. length shares.items ≡ workers) }
    ensures dealt { IfOk result (λ shares. (order : ℕ) → order < orders → Contains firsts order
        → IsDealt shares.items order) }
{
    let mut shares = vec![in alloc; Batch::empty(); workers as usize]?;
    let mut dealt = 0;
    for order in 0..orders {
        if firsts.has(order) {
            let worker = turn_after(dealt, workers) as usize;
            shares[worker] = shares[worker].with(order);
            dealt += 1;
        }
    }
    Ok(shares)
}
