use wp_lengths::Marks;
use wp_pairs::Batch;

/// The batch of least slack, its slack in sixtieths of a unit, and where it isn't below 0 the short marks of the duals.
#[derive(Drop)]
pub struct Priced {
    pub batch: Batch,
    pub slack: i64,
    pub marks: Option<Marks>,
}
