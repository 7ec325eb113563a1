use wp_pairs::Batch;

/// A place of a visit: a batch, and the order from which on its later items begin. What its children share stands
/// beside it: how many orders it has, how many units they load, what they have in duals, and the orders that are parted
/// from one of them. Where there is no cart, they load nothing. It has the orders of the place before it and those of
/// the item that was added.
#[derive(Clone, Copy)]
pub struct Place {
    pub batch: Batch,
    pub from: u32,
    pub size: u32,
    pub load: u64,
    pub sum: u64,
    pub blocked: Batch,
    pub before: Batch,
    pub added: Batch,
}
