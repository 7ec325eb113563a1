use std::alloc::Global;

/// What cases are run with: the threads, and the allocator that gives all memory.
#[derive(Drop)]
pub struct Host<'a, R> {
    pub rt: &'a R,
    pub alloc: Global,
}
