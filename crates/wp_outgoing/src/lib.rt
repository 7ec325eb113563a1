//! What goes out: the names of waves of open orders, the commands that send them out, each of which is done, how many
//! waves there is room for, and the lines in which all that is told.
#![tactic(auto)]

mod laws;
mod leaving;
mod left;
mod lines;
mod names;
mod room;
mod waves_out;

pub use laws::{waves_of_served_orders_go_out, waves_of_served_orders_may_be_named};
pub use leaving::{TurnsOut, left_of};
pub use left::{LeftOrder, LeftWhy};
pub use lines::{WaveOut, print_outgoing};
pub use names::{WaveNames, names_of};
pub use room::waves_with_room;
pub use waves_out::with_names;
