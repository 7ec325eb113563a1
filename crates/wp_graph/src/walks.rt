ghost use Rattle.std.specs.Prelude.{◌≡◌, ◌-◌, ◌^◌, ◌<◌, ◌↔◌, ℕ, IsTrue, IsSome, IfSome, Some, length, slice_get};
ghost use Rattle.std.specs.Prelude.{vec_len};
ghost use Rattle.wp_model.specs.Tours.{IsClosedWalk, IsWalk};
ghost use Rattle.wp_model.specs.Warehouse.{depot_point};

use crate::layout::Layout;
use crate::moves::is_move;
use wp_model::Point;

// Whether the list begins and ends at the depot.
fn is_round(layout: &Layout, points: &[Point]) -> bool
    ensures { IsTrue result ↔ ((slice_get points.now 0 ≡ Some (depot_point layout.now)) ×
        (slice_get points.now (length points.now - 1) ≡ Some (depot_point layout.now))) }
{
    let depot = layout.depot_point();
    match (points.first(), points.last()) {
        (Some(first), Some(last)) => *first == depot && *last == depot,
        _ => false,
    }
}

// The sum of the moves of a list. None comes exactly where two neighbours are no move.
fn sum_of_moves(layout: &Layout, points: &[Point]) -> Option<u64>
    requires { length points.now < 2 ^ 32 }
    ensures exact { IsSome result ↔ ((total : ℕ) × IsWalk layout.now points.now total) }
    ensures value { IfSome result (λ total. IsWalk layout.now points.now total) }
{
    let mut total = 0;
    for i in 1..points.len() {
        total += is_move(layout, points[i - 1], points[i])?;
    }
    Some(total)
}

/// The length of a closed walk: the sum of its moves. None comes exactly where the list is empty, its first or last
/// point isn't the depot, or two neighbours are no move.
pub fn walk_length(layout: &Layout, points: &Vec<Point>) -> Option<u64>
    requires { vec_len points.now < 2 ^ 32 }
    ensures exact { IsSome result ↔ ((total : ℕ) × IsClosedWalk layout.now points.now.items total) }
    ensures value { IfSome result (λ total. IsClosedWalk layout.now points.now.items total) }
{
    if !is_round(layout, points) {
        return None;
    }
    sum_of_moves(layout, points)
}
