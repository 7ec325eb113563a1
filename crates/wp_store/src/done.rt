use std::snapshot::Snapshot;

/// What a call did to a disk's file.
#[derive(Drop)]
pub enum Kind {
    /// Wrote so many bytes at a place.
    Wrote(u64, u64),
    /// Cut the file to a length.
    CutTo(u64),
    /// Synced it.
    Synced,
}

/// A call that was done, and the bytes that a read gives after it, which only clauses see.
#[derive(Drop)]
pub struct Done {
    pub kind: Kind,
    pub after: Snapshot<Vec<u8>>,
}
