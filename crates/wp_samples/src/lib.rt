//! What tests are made with: small layouts, picks, waves, pairs of orders, batches, draws of further ones, and a place
//! where two threads meet.
#![tactic(auto)]

mod batches;
mod layouts;
mod meeting;
mod pairing;
mod picking;
mod waves;

pub use batches::{are_exactly, batch_below, batch_of, has_exactly};
pub use layouts::{Numbers, crossed_layout, layout_of, small_layout};
pub use meeting::{MOST_LOOKS, Meeting};
pub use pairing::{PairRow, pairs_for, pairs_of};
pub use picking::{At, add_slot, all_picked, picked, slot_of};
pub use waves::{Slots, cart_wave_of, made_wave, order_of, orders_of, wave_in, wave_of, wave_with};
