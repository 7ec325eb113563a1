ghost use Rattle.std.specs.Prelude.{◌≡◌, ◌≤◌, ℕ, IfSome, Some};
ghost use Rattle.wp_model.specs.Warehouse.{back_end};
ghost use Rattle.wp_graph.specs.AisleLengths.{ways_of};
ghost use Rattle.wp_graph.specs.PickSets.{AreSlots};
ghost use Rattle.wp_graph.specs.Required.{distance, is_required as needs_place, required_places};
ghost use Rattle.wp_classes.specs.Parts.{AreTurns};
ghost use Rattle.wp_classes.specs.Tables.{way_length};
ghost use Rattle.wp_walk.specs.ReachedPlaces.{IsReached, reach_place};

use wp_classes::Way;
use wp_graph::{Layout, Picks, Point};

/// The places at which a way through an aisle turns: where the way from the front turns, and where that from the back.
#[derive(Clone, Copy)]
pub(crate) struct Turns {
    pub near: u32,
    pub far: u32,
}

/// The first and the last required place of an aisle, and two neighbours around a largest gap.
#[derive(Clone, Copy)]
struct RequiredPlaces {
    first: u32,
    last: u32,
    near: u32,
    far: u32,
}

// How far a place is from the front.
fn place_distance(layout: &Layout, place: u32) -> u64
    requires { place ≤ back_end layout.now }
    ensures { result ≡ distance layout.now place }
{
    let clearance = u64::from(layout.clearance());
    let pitch = u64::from(layout.pitch());
    if place == 0 {
        return 0;
    }
    if place <= layout.slots() {
        return clearance + u64::from(place - 1) * pitch;
    }
    2 * clearance + u64::from(layout.slots() - 1) * pitch
}

// Whether a tour must pass a place.
fn is_required(layout: &Layout, picks: &Picks, aisle: u32, place: u32) -> bool
    requires { picks.now.layout ≡ layout.now }
    ensures value { result ≡ needs_place layout.now picks.now.points aisle place }
    ensures slots { AreSlots layout.now picks.now.points }
{
    let point = Point { aisle, slot: place };
    let picked = picks.has(point);
    let depot = layout.depot_point();
    if depot.aisle == aisle && depot.slot == place {
        return true;
    }
    picked
}

// One more place, behind the others.
fn reach(layout: &Layout, before: Option<RequiredPlaces>, place: u32) -> Option<RequiredPlaces>
    requires place { place ≤ back_end layout.now }
    requires before { IfSome before (λ r. (r.first ≤ back_end layout.now)
        × (r.last ≤ back_end layout.now) × (r.near ≤ back_end layout.now) ×
        (r.far ≤ back_end layout.now)) }
    ensures value { result ≡ reach_place layout.now before place }
    ensures within { IfSome result (λ r. (r.first ≤ back_end layout.now)
        × (r.last ≤ back_end layout.now) × (r.near ≤ back_end layout.now) ×
        (r.far ≤ back_end layout.now)) }
{
    let Some(reached) = before else {
        return Some(RequiredPlaces {
            first: place,
            last: place,
            near: place,
            far: place,
        });
    };
    let first = reached.first;
    let widest = place_distance(layout, reached.far).saturating_sub(place_distance(
        layout,
        reached.near,
    ));
    let width = place_distance(layout, place).saturating_sub(place_distance(layout, reached.last));
    if widest <= width {
        return Some(RequiredPlaces {
            first,
            last: place,
            near: reached.last,
            far: place,
        });
    }
    Some(RequiredPlaces {
        first,
        last: place,
        near: reached.near,
        far: reached.far,
    })
}

// All required places of an aisle.
fn reach_all(layout: &Layout, picks: &Picks, aisle: u32) -> Option<RequiredPlaces>
    requires { picks.now.layout ≡ layout.now }
    ensures slots { AreSlots layout.now picks.now.points }
    ensures value { IsReached layout.now (required_places layout.now picks.now.points aisle)
        result }
    ensures within { IfSome result (λ r. (r.first ≤ back_end layout.now)
        × (r.last ≤ back_end layout.now) × (r.near ≤ back_end layout.now) ×
        (r.far ≤ back_end layout.now)) }
{
    let mut reached = None;
    for place in 0..layout.slots() + 2 {
        if is_required(layout, picks, aisle, place) {
            reached = reach(layout, reached, place);
        }
    }
    reached
}

/// Where a way through an aisle turns. The way has to apply there.
pub(crate) fn turns_of(layout: &Layout, picks: &Picks, aisle: u32, way: Way) -> Turns
    requires picks { picks.now.layout ≡ layout.now }
    requires applies { (length : ℕ) × (way_length (ways_of layout.now picks.now.points aisle) way
        ≡ Some length) }
    ensures slots { AreSlots layout.now picks.now.points }
    ensures turns { AreTurns layout.now picks.now.points aisle way result.near result.far }
    ensures near { result.near ≤ back_end layout.now }
    ensures far { result.far ≤ back_end layout.now }
{
    let Some(reached) = reach_all(layout, picks, aisle) else {
        return Turns { near: 0, far: 0 };
    };
    match way {
        Way::Gap => Turns {
            near: reached.near,
            far: reached.far,
        },
        _ => Turns {
            near: reached.last,
            far: reached.first,
        },
    }
}
