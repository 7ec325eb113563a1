use wp_graph::Layout;

/// The six numbers of a layout, in the order of `Layout::new`: aisles, slots, pitch, clearance, spacing and depot.
pub type Numbers = [u32; 6];

/// The layout of these numbers, where each is in its range.
pub fn layout_of(numbers: Numbers) -> Option<Layout> {
    let [aisles, slots, pitch, clearance, spacing, depot] = numbers;
    Layout::new(aisles, slots, pitch, clearance, spacing, depot)
}

/// The small layout: three aisles of four slots, with its depot at this aisle.
pub fn small_layout(depot: u32) -> Option<Layout> {
    layout_of([3, 4, 2, 1, 5, depot])
}

/// The small layout with these lengths from its first and from its second aisle to the next one, and with its depot at
/// the back end of this aisle or at the front one.
pub fn crossed_layout(spacings: [u32; 2], depot: u32, back: bool) -> Option<Layout> {
    Layout::with(3, 4, 2, 1, &spacings, depot, back)
}
