use crate::{Nodes, WrittenCuts};
use wp_model::Listing;

/// A slot as it stands in the text: the number of an aisle and that of a slot in it, which the layout may not have.
#[derive(Clone, Copy)]
pub(crate) struct WrittenSlot {
    pub(crate) aisle: u64,
    pub(crate) slot: u64,
}

/// A cart as it stands in the text: how many units it holds, and what each order loads.
#[derive(Drop)]
pub(crate) struct WrittenCart {
    pub(crate) units: u64,
    pub(crate) loads: Listing<u64>,
}

/// What a text of the third form has besides: the layout's step, and cuts, as they stand in the text.
#[derive(Drop)]
pub(crate) struct WrittenTerms {
    pub(crate) step: u64,
    pub(crate) cuts: WrittenCuts,
}

/// What a text of the right form has, whether or not its numbers are in their ranges.
#[derive(Drop)]
pub(crate) struct Form {
    pub(crate) version: u64,
    pub(crate) capacity: u64,
    pub(crate) cart: Option<WrittenCart>,
    pub(crate) orders: Listing<Listing<WrittenSlot>>,
    pub(crate) nodes: Nodes,
    pub(crate) terms: Option<WrittenTerms>,
}

/// Why a value isn't read as a part of a certificate.
#[derive(Clone, Copy)]
pub(crate) enum Unread {
    /// It isn't of the part's form.
    BadShape,
    /// There was no memory for it.
    Memory,
}
