/// Where a visit goes on after a place that was entered.
#[derive(Clone, Copy)]
pub enum Step {
    /// To the places that have one item more.
    Deeper,
    /// Past all batches that extend the place.
    Past,
}
