ghost use Rattle.std.specs.Prelude.{◌≡◌, IfSome};
ghost use Rattle.wp_model.specs.Warehouse.{IsSlot};

use wp_graph::{Layout, Picks, Point};

/// A point as its aisle and its slot.
pub type At = (u32, u32);

/// A point, where it is a slot of the layout.
pub fn slot_of(layout: &Layout, at: At) -> Option<Point>
    ensures { IfSome result (IsSlot layout.now) }
{
    let (aisle, slot) = at;
    let within = 1 <= aisle && aisle <= layout.aisles() && 1 <= slot && slot <= layout.slots();
    within.then_some(Point { aisle, slot })
}

/// Adds a slot, where the point is one of the layout.
pub fn add_slot(layout: &Layout, picks: &mut Picks, at: At)
    requires { picks.old.layout ≡ layout.now }
    ensures { picks.new.layout ≡ layout.now }
{
    if let Some(point) = slot_of(layout, at) {
        picks.add(point);
    }
}

/// The slots of the layout among these points.
pub fn picked(layout: &Layout, slots: &[At]) -> Picks
    ensures { result.layout ≡ layout.now }
{
    let mut picks = Picks::new(layout);
    for at in slots {
        add_slot(layout, &mut picks, *at);
    }
    picks
}

/// All slots of the layout.
pub fn all_picked(layout: &Layout) -> Picks
    ensures { result.layout ≡ layout.now }
{
    let mut picks = Picks::new(layout);
    for at in 0..64 * 200 {
        add_slot(layout, &mut picks, (1 + at / 200, 1 + at % 200));
    }
    picks
}
