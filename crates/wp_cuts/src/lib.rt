//! What bounds the cost of a wave's batchings besides duals: the step of its layout, the least number of batches, and
//! cuts with their prices. The definitions, and what is feasible and tight over prices, stand in `specs`.
#![tactic(auto)]

mod counts;
mod cut;
mod laws;
mod prices;
mod step;
mod table;

pub use counts::least_batches;
pub use cut::{GREATEST_DIVISOR, RankCut};
pub use laws::{
    batchings_have_the_least_batches, batchings_meet_cuts_no_more, closed_walks_are_multiples,
    marks_show_prices_feasible, nets_are_no_more, plain_prices_say_what_duals_say,
    plain_visits_are_visits, visits_have_one_end,
};
pub use prices::{Prices, are_zero};
pub use step::{rounded_up, step_of};
pub use table::CutTable;
