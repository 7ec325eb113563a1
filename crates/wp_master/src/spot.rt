/// Where the column of a place of a table is: stored, at a slot of the grid, or basic, the unit column of a row.
#[derive(Clone, Copy)]
pub(crate) enum Spot {
    Stored(usize),
    Basic(usize),
}
