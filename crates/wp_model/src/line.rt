use crate::location::Location;
use crate::name::Name;
use crate::row::Line;

/// A line of a stock file: so many units, 0 to 1,000,000, of an article at a location.
#[derive(Clone, Copy)]
pub struct StockLine {
    pub location: Location,
    pub article: Name,
    pub on_hand: u32,
}

/// A line of an order file: the order's name, and the line.
#[derive(Clone, Copy)]
pub struct OrderLine {
    pub order: Name,
    pub line: Line,
}
