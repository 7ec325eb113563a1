ghost use Rattle.std.specs.Prelude.{◌≡◌, ◌<◌, ◌^◌, suc, [], ◌∷◌, ◌++◌, IfOk};
ghost use Rattle.wp_classes.specs.Paths.{at as point_at};

use crate::path::Path;
use wp_graph::Point;
use wp_model::Memory;

/// The ends of an aisle and of the next one, where a tour crosses from the one to the other.
#[derive(Clone, Copy)]
pub(crate) struct Ends {
    pub aisle: u32,
    pub back: u32,
}

/// A place of an aisle.
pub(crate) fn at(aisle: u32, place: u32) -> Point
    ensures { result ≡ point_at aisle place }
{
    Point { aisle, slot: place }
}

impl Ends {
    /// From the back end along a path to the next aisle's back end.
    pub(crate) fn along_back(self, path: Path) -> Result<Path, Memory>
        requires { self.aisle < 2 ^ 31 }
        ensures { IfOk result (λ p. p ≡ point_at self.aisle self.back ∷ path
            ++ point_at (suc self.aisle) self.back ∷ []) }
    {
        path.between(at(self.aisle, self.back), at(self.aisle + 1, self.back))
    }

    /// From the front end along a path to the next aisle's front end.
    pub(crate) fn along_front(self, path: Path) -> Result<Path, Memory>
        requires { self.aisle < 2 ^ 31 }
        ensures { IfOk result (λ p. p ≡ point_at self.aisle 0 ∷ path ++ point_at (suc self.aisle) 0
            ∷ []) }
    {
        path.between(at(self.aisle, 0), at(self.aisle + 1, 0))
    }

    /// From the back end along a path to the next aisle's front end.
    pub(crate) fn back_to_front(self, path: Path) -> Result<Path, Memory>
        requires { self.aisle < 2 ^ 31 }
        ensures { IfOk result (λ p. p ≡ point_at self.aisle self.back ∷ path
            ++ point_at (suc self.aisle) 0 ∷ []) }
    {
        path.between(at(self.aisle, self.back), at(self.aisle + 1, 0))
    }

    /// From the front end along a path to the next aisle's back end.
    pub(crate) fn front_to_back(self, path: Path) -> Result<Path, Memory>
        requires { self.aisle < 2 ^ 31 }
        ensures { IfOk result (λ p. p ≡ point_at self.aisle 0 ∷ path
            ++ point_at (suc self.aisle) self.back ∷ []) }
    {
        path.between(at(self.aisle, 0), at(self.aisle + 1, self.back))
    }
}
