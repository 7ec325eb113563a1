use wp_graph::Picks;
use wp_pairs::Batch;

/// A batch and the length of a shortest tour of it.
#[derive(Clone, Copy)]
pub struct Length {
    pub batch: Batch,
    pub length: u64,
}

/// A batch and the slots at which its orders pick.
#[derive(Clone, Copy)]
pub struct PickedBatch<'a> {
    pub batch: Batch,
    pub union: &'a Picks,
}

/// Up to so many orders, from a first one on.
#[derive(Clone, Copy)]
pub struct Later {
    pub first: u32,
    pub most: u32,
}
