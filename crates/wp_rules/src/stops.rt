//! Lists of stops, which take no memory.
ghost use Rattle.std.specs.Prelude.{◌≡◌, ◌<◌, ◌≤◌, [], ◌∷◌, ◌++◌, length};

use std::marker::Model;
use wp_graph::Point;

/// Stops in their order, up to 400 of them.
#[derive(Drop)]
pub(crate) struct Stops {
    points: [Point; 400],
    count: usize,
    ghost within: { count ≤ 400 },
}

impl Model for Stops {
    ghost use Rattle.std.specs.Prelude.{List, take};
    ghost use Rattle.wp_model.specs.declared.point.Point.{Point as PointData};

    ghost Value = { List PointData };

    ghost view = { λ s. take s.count s.points };
}

// Room for stops.
fn room() -> [Point; 400]
    ensures { length result ≡ 400 }
{
    [Point { aisle: 0, slot: 0 }; 400]
}

impl Stops {
    /// No stop.
    pub(crate) fn none() -> Stops
        ensures { result ≡ [] }
    {
        Stops {
            points: room(),
            count: 0,
        }
    }

    /// Adds a stop behind the others.
    pub(crate) fn add(&mut self, point: Point)
        requires { length self.old < 400 }
        ensures { self.new ≡ self.old ++ point ∷ [] }
    {
        self.points[self.count] = point;
        self.count += 1;
    }

    /// The stops.
    pub(crate) fn points(&self) -> &[Point]
        ensures { result.now ≡ self.now }
    {
        &self.points[..self.count]
    }
}
