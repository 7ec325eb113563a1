use crate::listing::Listing;
use crate::location::Location;

/// A row of the stock file: so many units of an article, 0 to 1,000,000, at a location. Articles are numbered
/// from 0 in the order of their first appearance in the file.
#[derive(Clone, Copy, PartialEq, Eq)]
pub struct StockRow {
    pub location: Location,
    pub article: u32,
    pub on_hand: u32,
}

/// A row of the stock as it stands: the units on hand are those that are free and those that are held for waves.
#[derive(Clone, Copy, PartialEq, Eq)]
pub struct Row {
    pub location: Location,
    pub article: u32,
    pub on_hand: u32,
    pub free: u32,
    pub held: u32,
}

/// A line of an order: so many units, 1 to 100,000, of an article.
#[derive(Clone, Copy, PartialEq, Eq)]
pub struct Line {
    pub article: u32,
    pub quantity: u32,
}

/// Units held for an order of a wave at a row: the order by its place in its wave, and the row by its number, both
/// counted from 0.
#[derive(Clone, Copy, PartialEq, Eq)]
pub struct Hold {
    pub order: u32,
    pub row: u32,
    pub quantity: u32,
}

/// A list of holds.
pub type Holds = Listing<Hold>;
