ghost use Rattle.std.specs.Prelude.{◌≡◌, ◌≤◌, ◌<◌, ◌+◌, ◌*◌, ◌^◌, ◌↔◌, IsTrue};
ghost use Rattle.wp_node.specs.Prices.{IsRow, price, sets_within};

use wp_pairs::Capacity;

// The numbers of sets of 0 to 8 things among none.
fn first_row() -> [u128; 9]
    ensures { IsRow 0 result }
{
    [1, 0, 0, 0, 0, 0, 0, 0, 0]
}

// The numbers of sets among one thing more, up to 64 things.
fn next_row(things: u32, row: &[u128; 9]) -> [u128; 9]
    requires few { things < 64 }
    requires row { IsRow things row.now }
    ensures { IsRow (things + 1) result }
{
    let mut next = first_row();
    for taken in 1..9 {
        next[taken] = row[taken - 1] + row[taken];
    }
    next
}

// The numbers of sets of 0 to 8 orders.
fn row_of(orders: u32) -> [u128; 9]
    requires { orders ≤ 64 }
    ensures { IsRow orders result }
{
    let mut row = first_row();
    for things in 0..orders {
        row = next_row(things, &row);
    }
    row
}

// How many sets of orders are within a capacity.
fn sets_of(orders: u32, capacity: Capacity) -> u128
    requires { orders ≤ 64 }
    ensures value { result ≡ sets_within orders capacity.most }
    ensures small { result ≤ 9 * 2 ^ 64 }
{
    let row = row_of(orders);
    let mut sets = 0;
    for taken in 0..capacity.most + 1 {
        sets += row[taken as usize];
    }
    sets
}

/// The price of a node's own duals, in visits of sets of orders.
pub fn price_of(orders: u32, capacity: Capacity) -> u128
    requires { orders ≤ 64 }
    ensures { result ≡ price orders capacity.most }
{
    u128::from(4 * orders + 4) * sets_of(orders, capacity)
}

/// Whether a budget pays for a node with duals of its own, for up to 64 orders.
pub fn pays(orders: u32, capacity: Capacity, budget: u64) -> bool
    requires { orders ≤ 64 }
    ensures { IsTrue result ↔ (price orders capacity.most ≤ budget) }
{
    price_of(orders, capacity) <= u128::from(budget)
}
