use wp_pairs::Batch;

/// A batch, its length, and its weight in a cover.
#[derive(Clone, Copy)]
pub(crate) struct WeightedBatch {
    pub(crate) batch: Batch,
    pub(crate) length: u64,
    pub(crate) weight: u128,
}
