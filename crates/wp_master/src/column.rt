use wp_pairs::Batch;

/// A batch of orders and its length.
#[derive(Clone, Copy)]
pub struct Column {
    pub batch: Batch,
    pub length: u64,
}
