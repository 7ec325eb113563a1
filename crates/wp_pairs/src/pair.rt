/// Two orders that were added to go together, or else to go apart. The lower order stands first.
#[derive(Clone, Copy)]
pub struct OrderPair {
    pub first: u8,
    pub second: u8,
    pub together: bool,
}
