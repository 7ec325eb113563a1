use std::collections::LinkedList;

/// What a pass knows. It exists in the proofs alone: no value of it is ever made.
pub struct View<T, E> {
    /// The value at the opening; none once the pass was joined into another.
    pub start: LinkedList<T>,
    /// The calls that the pass has seen, in order: all that were committed up to some moment.
    pub calls: LinkedList<(u32, E)>,
    /// The pass's own caller number; 0 before it has one.
    pub caller: u32,
    /// The callers that it stands for.
    pub callers: LinkedList<u32>,
    /// The calls that a joined pass had seen, until a load compares the two lists.
    pub other_calls: LinkedList<(u32, E)>,
    /// The callers that the joined pass stood for, until then.
    pub other_callers: LinkedList<u32>,
    /// Its place in the queue, while a call runs.
    pub place: LinkedList<u64>,
    /// Whether it has taken the slot.
    pub holds: bool,
    /// How many calls may still be made by it.
    pub left: u64,
    /// How many caller numbers are drawn, while it has the right to draw the next one.
    pub next: LinkedList<u64>,
    /// How many caller numbers it may still draw.
    pub pending: u64,
}
