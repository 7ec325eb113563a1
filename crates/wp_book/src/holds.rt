//! The holds of waves.
ghost use Rattle.std.specs.Prelude.{◌≡◌, ◌≢◌, ◌≤◌, ◌<◌, ◌+◌, ◌-◌, ◌*◌, ◌^◌, ◌==◌, ◌&&◌, not, ℕ, length, if◌then◌else◌};
ghost use Rattle.std.specs.Prelude.{IfSome, slice_get};
ghost use Rattle.std.specs.List.{sum_by};
ghost use Rattle.wp_model.specs.Book.{Where, but_of, is_for, is_for_wave, is_of, units_at};
ghost use Rattle.wp_model.specs.declared.row.Hold.{Hold as HoldData};
ghost use Rattle.wp_model.specs.Change.{change_rows, free_held_units, hold_units};
ghost use Rattle.wp_book.specs.Chains.{chain_units, node_units};

use crate::room::KeptHolds;
use crate::rows::CountedRows;
use wp_model::{Chain, Hold};

// Takes units off the holds of one call for the order at the row, where they are the wave's, and gives how many are
// left to take.
fn take_from_node(node: &mut KeptHolds, wave: u32, order: u32, row: u32, units: u32) -> u32
    ensures left { result ≡ units - node_units (is_for wave order row) node.old }
    ensures taken { (passes : Where) → node_units passes node.new
        + (if passes wave order row then units - result else 0) ≡ node_units passes node.old }
{
    if node.wave == wave {
        node.holds.take(order, row, units)
    } else {
        units
    }
}

/// Takes units off what is held for the order of the wave at the row.
pub fn take_from_chain(chain: &mut Chain<KeptHolds>, wave: u32, order: u32, row: u32, units: u32)
    requires { units ≤ chain_units (is_for wave order row) chain.old }
    ensures { (passes : Where) → chain_units passes chain.new
        + (if passes wave order row then units else 0) ≡ chain_units passes chain.old }
{
    let mut left = units;
    let mut done = Chain::new();
    while let Some((mut node, cell)) = chain.pop() {
        left = take_from_node(&mut node, wave, order, row, left);
        done.push(node, cell);
    }
    *chain = done;
}

// The units of a hold go from free to held in its row.
fn hold_once(rows: &mut CountedRows, hold: &Hold)
    requires within { 0 < hold.now.quantity → hold.now.row < length rows.old }
    requires free { IfSome (slice_get rows.old hold.now.row)
        (λ r. (hold.now.quantity ≤ r.free) × (r.held + r.free < 2 ^ 32)) }
    ensures { rows.new ≡ change_rows (λ row. hold_units (if hold.now.row == row
        then hold.now.quantity else 0)) 0 rows.old }
{
    if hold.quantity > 0 {
        rows.hold(hold.row, hold.quantity);
    }
}

/// The units of each hold go from free to held in its row.
pub fn hold_in_rows(rows: &mut CountedRows, holds: &[Hold])
    requires within { (row : ℕ) → length rows.old ≤ row → units_at holds.now row ≡ 0 }
    requires free { (row : ℕ) → IfSome (slice_get rows.old row)
        (λ r. (units_at holds.now row ≤ r.free) × (r.held + r.free < 2 ^ 32)) }
    ensures { rows.new ≡ change_rows (λ row. hold_units (units_at holds.now row)) 0 rows.old }
{
    for hold in holds {
        hold_once(rows, hold);
    }
}

// The units of a hold go from held to free in its row.
fn give_back_hold(rows: &mut CountedRows, hold: &Hold)
    requires within { 0 < hold.now.quantity → hold.now.row < length rows.old }
    requires held { IfSome (slice_get rows.old hold.now.row)
        (λ r. (hold.now.quantity ≤ r.held) × (r.free + r.held < 2 ^ 32)) }
    ensures { rows.new ≡ change_rows (λ row. free_held_units (if hold.now.row == row
        then hold.now.quantity else 0)) 0 rows.old }
{
    if hold.quantity > 0 {
        rows.unhold(hold.row, hold.quantity);
    }
}

// The units of each hold go from held to free in its row.
fn give_back_holds(rows: &mut CountedRows, holds: &[Hold])
    requires within { (row : ℕ) → length rows.old ≤ row → units_at holds.now row ≡ 0 }
    requires held { (row : ℕ) → IfSome (slice_get rows.old row)
        (λ r. (units_at holds.now row ≤ r.held) × (r.free + r.held < 2 ^ 32)) }
    ensures { rows.new ≡ change_rows (λ row. free_held_units (units_at holds.now row)) 0 rows.old }
{
    for hold in holds {
        give_back_hold(rows, hold);
    }
}

// The same of the holds of one call, where they are the wave's, and there are none of them then.
fn give_back_node(rows: &mut CountedRows, node: &mut KeptHolds, wave: u32)
    requires within { (row : ℕ) → length rows.old ≤ row
        → node_units (is_for_wave wave row) node.old ≡ 0 }
    requires held { (row : ℕ) → IfSome (slice_get rows.old row)
        (λ r. (node_units (is_for_wave wave row) node.old ≤ r.held) × (r.free + r.held < 2 ^ 32)) }
    ensures rows { rows.new ≡ change_rows (λ row. free_held_units
        (node_units (is_for_wave wave row) node.old)) 0 rows.old }
    ensures others { (passes : Where) → node_units passes node.new
        ≡ node_units (but_of wave passes) node.old }
{
    if node.wave == wave {
        give_back_holds(rows, node.holds.as_slice());
        node.holds.clear();
    }
}

/// All that is held for the wave goes from held to free.
pub fn give_back_chain(rows: &mut CountedRows, chain: &mut Chain<KeptHolds>, wave: u32)
    requires within { (row : ℕ) → length rows.old ≤ row
        → chain_units (is_for_wave wave row) chain.old ≡ 0 }
    requires held { (row : ℕ) → IfSome (slice_get rows.old row)
        (λ r. (chain_units (is_for_wave wave row) chain.old ≤ r.held)
        × (r.free + r.held < 2 ^ 32)) }
    ensures rows { rows.new ≡ change_rows (λ row. free_held_units
        (chain_units (is_for_wave wave row) chain.old)) 0 rows.old }
    ensures others { (passes : Where) → chain_units passes chain.new
        ≡ chain_units (but_of wave passes) chain.old }
{
    let mut done = Chain::new();
    while let Some((mut node, cell)) = chain.pop() {
        give_back_node(rows, &mut node, wave);
        done.push(node, cell);
    }
    *chain = done;
}

// The units of the holds of one call for the order at the row, where they are the wave's.
fn units_in_node(node: &KeptHolds, wave: u32, order: u32, row: u32) -> u32
    requires { node_units (is_for wave order row) node.now < 2 ^ 32 }
    ensures { result ≡ node_units (is_for wave order row) node.now }
{
    if node.wave == wave {
        node.holds.units(order, row)
    } else {
        0
    }
}

/// The units that are held for the order of the wave at the row.
pub fn units_in_chain(chain: &Chain<KeptHolds>, wave: u32, order: u32, row: u32) -> u32
    requires { chain_units (is_for wave order row) chain.now < 2 ^ 32 }
    ensures { result ≡ chain_units (is_for wave order row) chain.now }
{
    let mut units = 0;
    let mut at = chain;
    while let Some((node, below)) = at.split_last() {
        units += units_in_node(node, wave, order, row);
        at = below;
    }
    units
}

// Whether the holds are of nothing.
fn are_of_nothing(holds: &[Hold]) -> bool
    ensures { result ≡ (sum_by (λ (hold : HoldData). hold.quantity) holds.now == 0) }
{
    holds.iter().all(|hold| hold.quantity == 0)
}

// Whether nothing is held for the wave by the holds of one call.
fn node_holds_none(node: &KeptHolds, wave: u32) -> bool
    ensures { result ≡ (node_units (is_of wave) node.now == 0) }
{
    node.wave != wave || are_of_nothing(node.holds.as_slice())
}

/// Whether nothing is held for the wave.
pub fn chain_holds_none(chain: &Chain<KeptHolds>, wave: u32) -> bool
    ensures { result ≡ (chain_units (is_of wave) chain.now == 0) }
{
    let mut at = chain;
    while let Some((node, below)) = at.split_last() {
        if !node_holds_none(node, wave) {
            return false;
        }
        at = below;
    }
    true
}
