ghost use Rattle.std.specs.Prelude.{◌≡◌, ◌≤◌, List, [], ◌∷◌, ◌++◌, IfOk, OnOk, drop, length, take};
ghost use Rattle.wp_classes.specs.Paths.{On, after_moves};

use std::alloc::Global;
use std::collections::VecDeque;
use std::marker::Model;
use wp_graph::Point;
use wp_model::Memory;

/// A path without its first point. It grows at both ends.
#[derive(Drop)]
pub(crate) struct Path {
    points: VecDeque<Point>,
}

impl Model for Path {
    ghost use Rattle.std.specs.Prelude.{List};
    ghost use Rattle.wp_model.specs.declared.point.Point.{Point as PointData};

    ghost Value = { List PointData };

    ghost view = { λ p. p.points.items };
}

/// A closed path: where it begins, and its further points.
#[derive(Drop)]
pub(crate) struct Round {
    pub start: Point,
    pub path: Path,
}

impl Path {
    /// No further point.
    pub(crate) fn none(alloc: Global) -> Path
        ensures { result ≡ [] }
    {
        Path {
            points: VecDeque::new(alloc),
        }
    }

    /// A point is put in front.
    pub(crate) fn push_first(&mut self, point: Point) -> Result<(), Memory>
        ensures { OnOk result (self.new ≡ point ∷ self.old) }
    {
        self.points.push_front(point)?;
        Ok(())
    }

    /// A point is put at the end.
    pub(crate) fn push_last(&mut self, point: Point) -> Result<(), Memory>
        ensures { OnOk result (self.new ≡ self.old ++ point ∷ []) }
    {
        self.points.push_back(point)?;
        Ok(())
    }

    /// The path between two points.
    pub(crate) fn between(self, out: Point, home: Point) -> Result<Path, Memory>
        ensures { IfOk result (λ p. p ≡ out ∷ self ++ home ∷ []) }
    {
        let mut path = self;
        path.push_first(out)?;
        path.push_last(home)?;
        Ok(path)
    }

    // The path and then another, whose points are moved.
    fn then(self, other: Path) -> Result<Path, Memory>
        ensures { IfOk result (λ p. p ≡ self ++ other) }
    {
        let (mut points, mut moved) = (self.points, other.points);
        points.append(&mut moved)?;
        Ok(Path { points })
    }

    // Another path, whose points are moved, and then the path.
    fn after(self, other: Path) -> Result<Path, Memory>
        ensures { IfOk result (λ p. p ≡ other ++ self) }
    {
        let count = self.points.len();
        let mut points = self.then(other)?.points;
        points.rotate_left(count);
        Ok(Path { points })
    }

    /// The path and then another. The points of the shorter one are moved.
    pub(crate) fn joined(self, other: Path) -> Result<Path, Memory>
        ensures { IfOk result (λ p. p ≡ self ++ other) }
    {
        if self.points.len() < other.points.len() {
            return other.after(self);
        }
        self.then(other)
    }

    /// After how many moves along the path from its first point a point comes that lies on it.
    pub(crate) fn moves_to(&self, start: Point, goal: Point) -> usize
        requires { On start self.now goal }
        ensures within { result ≤ length self.now }
        ensures goal { after_moves start self.now result ≡ goal }
    {
        if start == goal {
            return 0;
        }
        for i in 0..self.points.len() {
            if self.points[i] == goal {
                return i + 1;
            }
        }
        self.points.len()
    }

    /// A closed path that begins after so many moves at this point, with that point first.
    pub(crate) fn turned(self, first: Point, moves: usize) -> Result<Vec<Point>, Memory>
        requires { moves ≤ length self }
        ensures { IfOk result (λ walk. walk.items ≡ first ∷ drop moves self ++ take moves self) }
    {
        let mut walk = self.points;
        walk.rotate_left(moves);
        walk.push_front(first)?;
        Ok(Vec::from(walk))
    }
}
