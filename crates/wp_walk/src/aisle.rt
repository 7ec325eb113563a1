ghost use Rattle.std.specs.Prelude.{◌≡◌, ◌+◌, ◌≤◌, ◌<◌, ◌^◌, ◌++◌, IfOk};
ghost use Rattle.wp_model.specs.Warehouse.{back_end};
ghost use Rattle.wp_classes.specs.Paths.{ahead as places_ahead, behind as places_behind, from_back as way_from_back};
ghost use Rattle.wp_classes.specs.Paths.{from_front as way_from_front};
ghost use Rattle.wp_classes.specs.Paths.{pass_down as way_down, pass_up as way_up};

use crate::ends::at;
use crate::path::Path;
use wp_graph::Layout;
use wp_model::Memory;

impl Path {
    // The path and then so many places on in an aisle, away from the front.
    fn then_ahead(self, aisle: u32, place: u32, count: u32) -> Result<Path, Memory>
        requires { place + count < 2 ^ 32 }
        ensures { IfOk result (λ p. p ≡ self ++ places_ahead aisle place count) }
    {
        let mut path = self;
        for i in 0..count {
            path.push_last(at(aisle, place + i + 1))?;
        }
        Ok(path)
    }

    // The path and then so many places back, towards the front, to this place.
    fn then_behind(self, aisle: u32, place: u32, count: u32) -> Result<Path, Memory>
        requires { place + count < 2 ^ 32 }
        ensures { IfOk result (λ p. p ≡ self ++ places_behind aisle place count) }
    {
        let mut path = self;
        for i in 0..count {
            path.push_last(at(aisle, place + (count - 1 - i)))?;
        }
        Ok(path)
    }

    // So many places on in an aisle, away from the front, and then the path.
    fn after_ahead(self, aisle: u32, place: u32, count: u32) -> Result<Path, Memory>
        requires { place + count < 2 ^ 32 }
        ensures { IfOk result (λ p. p ≡ places_ahead aisle place count ++ self) }
    {
        let mut path = self;
        for i in 0..count {
            path.push_first(at(aisle, place + (count - i)))?;
        }
        Ok(path)
    }

    // So many places back, towards the front, to this place, and then the path.
    fn after_behind(self, aisle: u32, place: u32, count: u32) -> Result<Path, Memory>
        requires { place + count < 2 ^ 32 }
        ensures { IfOk result (λ p. p ≡ places_behind aisle place count ++ self) }
    {
        let mut path = self;
        for i in 0..count {
            path.push_first(at(aisle, place + i))?;
        }
        Ok(path)
    }

    /// The path and then from the front end of an aisle to its back end.
    pub(crate) fn then_pass_up(self, layout: &Layout, aisle: u32) -> Result<Path, Memory>
        ensures { IfOk result (λ p. p ≡ self ++ way_up layout.now aisle) }
    {
        self.then_ahead(aisle, 0, layout.slots() + 1)
    }

    /// The path and then from the back end of an aisle to its front end.
    pub(crate) fn then_pass_down(self, layout: &Layout, aisle: u32) -> Result<Path, Memory>
        ensures { IfOk result (λ p. p ≡ self ++ way_down layout.now aisle) }
    {
        self.then_behind(aisle, 0, layout.slots() + 1)
    }

    /// From the back end of an aisle to its front end, and then the path.
    pub(crate) fn after_pass_down(self, layout: &Layout, aisle: u32) -> Result<Path, Memory>
        ensures { IfOk result (λ p. p ≡ way_down layout.now aisle ++ self) }
    {
        self.after_behind(aisle, 0, layout.slots() + 1)
    }

    /// From the back end of an aisle to a place and back, and then the path.
    pub(crate) fn after_way_from_back(
        self,
        layout: &Layout,
        aisle: u32,
        place: u32,
    ) -> Result<Path, Memory>
        requires { place ≤ back_end layout.now }
        ensures { IfOk result (λ p. p ≡ way_from_back layout.now aisle place ++ self) }
    {
        let count = layout.slots() + 1 - place;
        let after_up = self.after_ahead(aisle, place, count)?;
        after_up.after_behind(aisle, place, count)
    }

    /// The path and then from the front end of an aisle to a place and back.
    pub(crate) fn then_way_from_front(self, aisle: u32, place: u32) -> Result<Path, Memory>
        requires { place < 2 ^ 31 }
        ensures { IfOk result (λ p. p ≡ self ++ way_from_front aisle place) }
    {
        let up = self.then_ahead(aisle, 0, place)?;
        up.then_behind(aisle, 0, place)
    }
}
