/// A place in an aisle: the aisle, counted from 1, and the slot, counted from 1. Slot 0 is the aisle's front end, and
/// one more than the number of slots is its back end.
#[derive(Clone, Copy, PartialEq, Eq)]
pub struct Point {
    pub aisle: u32,
    pub slot: u32,
}
