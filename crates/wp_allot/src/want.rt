/// What an order wants of an article: the order by its place in its wave, counted from 0, and so many units, at least
/// one.
#[derive(Clone, Copy, PartialEq, Eq)]
pub struct Want {
    pub order: u32,
    pub article: u32,
    pub quantity: u64,
}

/// An article of which more units are wanted than are free.
#[derive(Clone, Copy, PartialEq, Eq)]
pub struct Short {
    pub article: u32,
    pub wanted: u64,
    pub free: u64,
}
