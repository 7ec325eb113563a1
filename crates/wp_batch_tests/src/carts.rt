use wp_pairs::Cart;
use wp_samples::batch_below;

/// What a cart holds, what its orders load, and whether there is such a cart.
const CARTS: &[(u32, &[u32], bool)] = &[
    (1, &[1], true),
    (5, &[0, 3, 5], true),
    (40_000_000, &[40_000_000], true),
    (5, &[0; 64], true),
    (0, &[0], false),
    (40_000_001, &[1], false),
    (4_294_967_295, &[1], false),
    (5, &[], false),
    (5, &[0; 65], false),
    (5, &[3, 6, 3], false),
    (5, &[3, 3, 4_294_967_295], false),
];

/// What a cart holds, what its orders load, the orders of a batch, and whether it fits.
const BATCHES: &[(u32, &[u32], &[u32], bool)] = &[
    (5, &[3, 3, 3], &[], true),
    (5, &[3, 3, 3], &[1], true),
    (5, &[3, 3, 3], &[0, 1], false),
    (6, &[3, 3, 3], &[0, 2], true),
    (6, &[3, 3, 3], &[0, 1, 2], false),
    (5, &[0, 3, 3], &[0, 1], true),
    (5, &[0, 3, 3], &[1, 2], false),
    (5, &[1, 2, 3, 4], &[0, 3], true),
    (5, &[1, 2, 3, 4], &[1, 3], false),
    (
        40_000_000,
        &[5_000_000; 64],
        &[0, 9, 18, 27, 36, 45, 54, 63],
        true,
    ),
    (
        40_000_000,
        &[40_000_000; 64],
        &[0, 1, 2, 3, 4, 5, 6, 7],
        false,
    ),
];

/// Whether a cart tells just these units and loads.
fn tells(cart: &Cart, units: u32, loads: &[u32]) -> bool {
    if cart.units() != units || cart.orders() as usize != loads.len() {
        return false;
    }
    for order in 0..cart.orders() {
        if loads.get(order as usize) != Some(&cart.load(order)) {
            return false;
        }
    }
    true
}

/// The first case in which there is a cart where there should be none, none where there should be one, or another.
fn wrong_cart() -> Option<usize> {
    for (case, (units, loads, expected)) in CARTS.iter().enumerate() {
        let is_right = match Cart::new(*units, loads) {
            Some(cart) => *expected && tells(&cart, *units, loads),
            None => !*expected,
        };
        if !is_right {
            return Some(case);
        }
    }
    None
}

#[test]
fn a_cart_has_its_units_and_no_greater_load(rt: HostRuntime) {
    assert_eq!(rt; wrong_cart(), None);
}

/// Whether a batch fits a cart.
fn fits(units: u32, loads: &[u32], orders: &[u32]) -> Option<bool> {
    let cart = Cart::new(units, loads)?;
    Some(cart.holds(batch_below(orders, 64)?))
}

/// The first case in which a batch fits where it should not, or doesn't where it should.
fn wrong_batch() -> Option<usize> {
    for (case, (units, loads, orders, expected)) in BATCHES.iter().enumerate() {
        if fits(*units, loads, orders) != Some(*expected) {
            return Some(case);
        }
    }
    None
}

#[test]
fn a_batch_fits_a_cart_by_the_loads_of_its_orders(rt: HostRuntime) {
    assert_eq!(rt; wrong_batch(), None);
}
