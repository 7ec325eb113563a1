ghost use Rattle.std.specs.Prelude.{◌≡◌, ◌+◌, ◌<◌, ◌≤◌, ◌↔◌, ℕ, All, IfSome, IsSome, IsTrue, Some, length, replicate};
ghost use Rattle.std.specs.Prelude.{slice_index, slice_set};
ghost use Rattle.wp_model.specs.Limits.{most_wave_orders};
ghost use Rattle.wp_model.specs.Tables.{IsCart};
ghost use Rattle.wp_planner.specs.Loads.{AreLight, IsLoadedBy, load_for};

use wp_machine::WaveHolds;
use wp_model::Hold;
use wp_pairs::Cart;

/// Of how many orders loads are added up: as many as a wave may have.
const MOST_LOADS: usize = 64;

// Nothing for each order.
fn no_loads() -> [u32; MOST_LOADS]
    ensures { result ≡ replicate 64 0 }
{
    [0; MOST_LOADS]
}

// Adds a hold to what its order loads. False comes exactly where the order then would load more than so many units, and
// no load changes then.
fn add_load(loads: &mut [u32; MOST_LOADS], hold: &Hold, units: u32) -> bool
    requires { hold.now.order < 64 }
    ensures fits { IsTrue result ↔ (slice_index loads.old hold.now.order + hold.now.quantity
        ≤ units) }
    ensures added { IsTrue result → loads.new
        ≡ slice_set loads.old hold.now.order (slice_index loads.old hold.now.order
        + hold.now.quantity) }
{
    let place = hold.order as usize;
    let load = u64::from(loads[place]) + u64::from(hold.quantity);
    if u64::from(units) < load {
        return false;
    }
    loads[place] = load as u32;
    true
}

// What each order loads, in one pass over all that is held. None comes exactly where an order loads more than so many
// units.
fn loads_within(holds: &[Hold], units: u32) -> Option<[u32; MOST_LOADS]>
    requires { All (λ hold. hold.order < 64) holds.now }
    ensures light { IsSome result ↔ AreLight (Some units) holds.now }
    ensures loads { IfSome result (λ loads. (order : ℕ) → order < 64 → slice_index loads order
        ≡ load_for holds.now order) }
{
    let mut loads = no_loads();
    for hold in holds {
        if !add_load(&mut loads, hold, units) {
            return None;
        }
    }
    Some(loads)
}

// The cart of so many units with what each order of a wave loads. None comes exactly where an order loads more than the
// cart holds.
pub(crate) fn loaded_cart(units: u32, wave: &WaveHolds) -> Option<Cart>
    requires cart { IsCart units }
    requires some { 1 ≤ length wave.now.orders }
    requires most { length wave.now.orders ≤ most_wave_orders }
    requires within { All (λ hold. hold.order < 64) wave.now.holds }
    ensures light { IsSome result ↔ AreLight (Some units) wave.now.holds }
    ensures loads { IfSome result (IsLoadedBy wave.now units) }
{
    let orders = wave.orders.len() as usize;
    let loads = loads_within(wave.holds.as_slice(), units)?;
    Cart::new(units, &loads[..orders])
}
