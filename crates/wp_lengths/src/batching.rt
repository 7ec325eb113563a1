use wp_model::Listing;
use wp_pairs::Batch;

/// A list of fewer than 2^32 batches, as a batching of a wave. Contracts see the list.
pub type Batching = Listing<Batch>;
