//! The words in which the whole product speaks of a warehouse: names, locations, commands, replies and lists of
//! them, and in `specs/` the definitions that contracts cite.
#![tactic(auto)]

mod chain;
mod command;
mod entry;
mod laws;
mod limits;
mod line;
mod listing;
mod location;
mod memory;
mod name;
mod number;
mod point;
mod reply;
mod row;

pub use chain::{Cell, Chain};
pub use command::Command;
pub use entry::{Entries, Entry};
pub use laws::{
    locations_are_in_order, overlaps_give_each_its_demand, refusals_change_nothing,
    short_articles_are_the_first, states_are_sound, stock_goes_where_it_covers,
    waves_are_cancelled_by_later_entries,
};
pub use limits::{
    GREATEST_DESK, GREATEST_LENGTH, GREATEST_PLACE, MOST_AISLES, MOST_CART_UNITS, MOST_COMMANDS,
    MOST_ENTRIES, MOST_FILE_BYTES, MOST_FILE_ORDERS, MOST_LINES, MOST_NAME_BYTES, MOST_NAMED,
    MOST_ON_HAND, MOST_PLACES, MOST_QUANTITY, MOST_ROWS, MOST_SLOTS, MOST_SUBMISSIONS,
    MOST_WAVE_ORDERS, limits_are_those_defined,
};
pub use line::{OrderLine, StockLine};
pub use listing::Listing;
pub use location::{Location, Side};
pub use memory::Memory;
pub use name::{Name, Names};
pub use number::read_number;
pub use point::Point;
pub use reply::{Reply, WaveState};
pub use row::{Hold, Holds, Line, Row, StockRow};
