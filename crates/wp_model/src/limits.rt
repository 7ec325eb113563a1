//! The limits of the program, each once. The definitions have the same numbers, and a law ties them.
ghost use Rattle.std.specs.Prelude.{◌≡◌};
ghost use Rattle.wp_model.specs.Limits.{greatest_desk, greatest_length, greatest_place, most_aisles, most_cart_units};
ghost use Rattle.wp_model.specs.Limits.{most_commands, most_entries, most_file_bytes};
ghost use Rattle.wp_model.specs.Limits.{most_file_orders, most_lines, most_name_bytes, most_named, most_on_hand};
ghost use Rattle.wp_model.specs.Limits.{most_places, most_quantity, most_rows};
ghost use Rattle.wp_model.specs.Limits.{most_slots, most_submissions, most_wave_orders};

/// The most bytes that a file may have.
pub const MOST_FILE_BYTES: usize = 16_777_216;

/// The most bytes that a name may have.
pub const MOST_NAME_BYTES: usize = 40;

/// The most aisles that a layout may have.
pub const MOST_AISLES: u32 = 64;

/// The most slots that an aisle may have.
pub const MOST_SLOTS: u32 = 200;

/// The greatest of the three lengths of a layout.
pub const GREATEST_LENGTH: u32 = 10_000;

/// The most rows that a stock may have.
pub const MOST_ROWS: usize = 25_600;

/// The most rows that an article may have.
pub const MOST_PLACES: u32 = 1_000;

/// The most units that a row may have on hand.
pub const MOST_ON_HAND: u64 = 1_000_000;

/// The most orders that a file may have.
pub const MOST_FILE_ORDERS: u32 = 10_000;

/// The most lines that an order may have.
pub const MOST_LINES: u32 = 50;

/// The most units that a line or a command may name.
pub const MOST_QUANTITY: u32 = 100_000;

/// The most units that a cart may hold.
pub const MOST_CART_UNITS: u32 = 40_000_000;

/// The most commands that the desks may have together.
pub const MOST_COMMANDS: usize = 10_000;

/// The most of these that may submit a wave.
pub const MOST_SUBMISSIONS: u32 = 500;

/// The most orders that a submit may name.
pub const MOST_NAMED: u32 = 100;

/// The greatest aisle or slot that a location may name.
pub const GREATEST_PLACE: u32 = 99_999;

/// The greatest number of a desk.
pub const GREATEST_DESK: u32 = 8;

/// The most orders that a wave may have.
pub const MOST_WAVE_ORDERS: u32 = 64;

/// The most entries that a journal may have.
pub const MOST_ENTRIES: u64 = 10_000;

/// A law: each limit of the code is that of the definitions.
pub fn limits_are_those_defined()
    ensures file_bytes { MOST_FILE_BYTES ≡ most_file_bytes }
    ensures name_bytes { MOST_NAME_BYTES ≡ most_name_bytes }
    ensures aisles { MOST_AISLES ≡ most_aisles }
    ensures slots { MOST_SLOTS ≡ most_slots }
    ensures length { GREATEST_LENGTH ≡ greatest_length }
    ensures rows { MOST_ROWS ≡ most_rows }
    ensures places { MOST_PLACES ≡ most_places }
    ensures on_hand { MOST_ON_HAND ≡ most_on_hand }
    ensures file_orders { MOST_FILE_ORDERS ≡ most_file_orders }
    ensures lines { MOST_LINES ≡ most_lines }
    ensures quantity { MOST_QUANTITY ≡ most_quantity }
    ensures cart_units { MOST_CART_UNITS ≡ most_cart_units }
    ensures commands { MOST_COMMANDS ≡ most_commands }
    ensures submissions { MOST_SUBMISSIONS ≡ most_submissions }
    ensures named { MOST_NAMED ≡ most_named }
    ensures place { GREATEST_PLACE ≡ greatest_place }
    ensures desk { GREATEST_DESK ≡ greatest_desk }
    ensures wave_orders { MOST_WAVE_ORDERS ≡ most_wave_orders }
    ensures entries { MOST_ENTRIES ≡ most_entries }
{}
