ghost use Rattle.std.specs.Prelude.{◌≡◌, suc, ◌≤◌, ◌<◌, ◌^◌, [], ◌∷◌, ◌++◌, IfOk};
ghost use Rattle.wp_model.specs.Warehouse.{Layout as LayoutData, back_end, depot_point};
ghost use Rattle.wp_classes.specs.Parts.{class_with_back, class_with_pass, round_points, round_start};
ghost use Rattle.wp_classes.specs.Parts.{with_back as part_with_back};
ghost use Rattle.wp_classes.specs.Parts.{with_cross as part_with_cross, with_front as part_with_front};
ghost use Rattle.wp_classes.specs.Parts.{with_pass as part_with_pass};
ghost use Rattle.wp_classes.specs.Parts.{with_way as part_with_way};
ghost use Rattle.wp_classes.specs.Paths.{at as point_at};
ghost use Rattle.wp_classes.specs.declared.class.Class.TheVariants.{E01, EE1, Z00, ZE1};

use crate::ends::{Ends, at};
use crate::path::{Path, Round};
use crate::turns::Turns;
use std::alloc::Global;
use std::marker::Model;
use wp_classes::{Class, Cross, Way};
use wp_graph::{Layout, Point};
use wp_model::Memory;

/// The part of a tour left of and with an aisle: at most two paths between ends of the aisle, without their first
/// points.
#[derive(Drop)]
pub(crate) struct Paths {
    start: Point,
    first: Path,
    second: Path,
}

impl Model for Paths {
    ghost use Rattle.wp_classes.specs.Parts.{Part};

    ghost Value = { Part };

    ghost view = { λ p. record { start = p.start; first = p.first; second = p.second } };
}

impl Paths {
    /// No path.
    pub(crate) fn none(alloc: Global, layout: &Layout) -> Paths
        ensures { result ≡ record { start = depot_point layout.now; first = []; second = [] } }
    {
        Paths {
            start: layout.depot_point(),
            first: Path::none(alloc),
            second: Path::none(alloc),
        }
    }

    /// With one more pass of an aisle.
    pub(crate) fn with_pass(
        self,
        alloc: Global,
        layout: &Layout,
        aisle: u32,
        class: Class,
    ) -> Result<Paths, Memory>
        ensures { IfOk result (λ p. p ≡ part_with_pass layout.now aisle class self) }
    {
        match class {
            Class::UU1 => Ok(Paths {
                second: Path::none(alloc).then_pass_up(layout, aisle)?,
                ..self
            }),
            Class::E01 => Ok(Paths {
                first: self.first.then_pass_down(layout, aisle)?,
                ..self
            }),
            Class::ZE1 => Ok(Paths {
                first: self.first.after_pass_down(layout, aisle)?,
                ..self
            }),
            Class::EE1 => Ok(Paths {
                first: self
                    .first
                    .joined(self.second)?
                    .then_pass_down(layout, aisle)?,
                second: Path::none(alloc),
                ..self
            }),
            Class::EE2 => Ok(Paths {
                first: self
                    .first
                    .then_pass_down(layout, aisle)?
                    .joined(self.second)?,
                second: Path::none(alloc),
                ..self
            }),
            Class::Z00 => Ok(Paths {
                first: Path::none(alloc).then_pass_down(layout, aisle)?,
                ..self
            }),
            Class::Z01 => Ok(self),
        }
    }
}

impl Paths {
    /// With a way from the back end of an aisle to a place and back.
    pub(crate) fn with_back(
        self,
        alloc: Global,
        layout: &Layout,
        aisle: u32,
        far: u32,
        class: Class,
    ) -> Result<Paths, Memory>
        requires { far ≤ back_end layout.now }
        ensures { IfOk result (λ p. p ≡ part_with_back layout.now aisle far class self) }
    {
        match class {
            Class::Z01 => Ok(self),
            Class::Z00 => Ok(Paths {
                first: Path::none(alloc).after_way_from_back(layout, aisle, far)?,
                ..self
            }),
            Class::ZE1 => Ok(Paths {
                first: Path::none(alloc).after_way_from_back(layout, aisle, far)?,
                second: self.first,
                ..self
            }),
            Class::UU1 | Class::E01 | Class::EE1 | Class::EE2 => Ok(Paths {
                first: self.first.after_way_from_back(layout, aisle, far)?,
                ..self
            }),
        }
    }

    /// With a way from the front end of an aisle to a place and back.
    pub(crate) fn with_front(
        self,
        alloc: Global,
        aisle: u32,
        near: u32,
        class: Class,
    ) -> Result<Paths, Memory>
        requires { near < 2 ^ 31 }
        ensures { IfOk result (λ p. p ≡ part_with_front aisle near class self) }
    {
        match class {
            Class::Z01 => Ok(self),
            Class::Z00 => Ok(Paths {
                first: Path::none(alloc).then_way_from_front(aisle, near)?,
                ..self
            }),
            Class::E01 => Ok(Paths {
                second: Path::none(alloc).then_way_from_front(aisle, near)?,
                ..self
            }),
            Class::EE2 => Ok(Paths {
                second: self.second.then_way_from_front(aisle, near)?,
                ..self
            }),
            Class::UU1 | Class::ZE1 | Class::EE1 => Ok(Paths {
                first: self.first.then_way_from_front(aisle, near)?,
                ..self
            }),
        }
    }

    /// With a way through an aisle that turns at these places.
    pub(crate) fn with_way(
        self,
        alloc: Global,
        layout: &Layout,
        aisle: u32,
        turns: Turns,
        class: Class,
        way: Way,
    ) -> Result<Paths, Memory>
        requires near { turns.near ≤ back_end layout.now }
        requires far { turns.far ≤ back_end layout.now }
        ensures { IfOk result (λ p. p ≡ part_with_way layout.now aisle turns.near turns.far class
            way self) }
    {
        match way {
            Way::Pass => self.with_pass(alloc, layout, aisle, class),
            Way::Back => self.with_back(alloc, layout, aisle, turns.far, class),
            Way::Front => self.with_front_of(alloc, layout, aisle, turns.near, class),
            Way::Gap => {
                let back = self.with_back(alloc, layout, aisle, turns.far, class)?;
                back.with_front_of(alloc, layout, aisle, turns.near, after_back(class))
            }
            Way::Double => {
                let once = self.with_pass(alloc, layout, aisle, class)?;
                once.with_pass(alloc, layout, aisle, after_pass(class))
            }
            Way::Skip => Ok(self),
        }
    }

    // With a way from the front end of an aisle of the layout to a place and back.
    fn with_front_of(
        self,
        alloc: Global,
        layout: &Layout,
        aisle: u32,
        near: u32,
        class: Class,
    ) -> Result<Paths, Memory>
        requires { near ≤ back_end layout.now }
        ensures { IfOk result (λ p. p ≡ part_with_front aisle near class self) }
    {
        let within = near <= layout.slots() + 1;
        prove!(within);
        self.with_front(alloc, aisle, near, class)
    }

    /// With a crossing from an aisle to the next.
    pub(crate) fn with_cross(
        self,
        alloc: Global,
        layout: &Layout,
        aisle: u32,
        class: Class,
        cross: Cross,
    ) -> Result<Paths, Memory>
        requires { aisle < 2 ^ 31 }
        ensures { IfOk result (λ p. p ≡ part_with_cross layout.now aisle class cross self) }
    {
        let ends = Ends {
            aisle,
            back: layout.slots() + 1,
        };
        match class {
            Class::UU1 => self.on_from_odd(ends),
            Class::E01 => self.on_from_back(alloc, ends, cross),
            Class::ZE1 => self.on_from_front(alloc, ends, cross),
            Class::EE1 => self.on_from_both(alloc, ends, cross),
            Class::EE2 => self.on_from_two(ends),
            Class::Z00 => self.on_from_none(alloc, ends, cross),
            Class::Z01 => Ok(self),
        }
    }

    // On from class UU1: the path goes along both cross aisles.
    fn on_from_odd(self, ends: Ends) -> Result<Paths, Memory>
        requires { ends.aisle < 2 ^ 31 }
        ensures { IfOk result (λ p. p ≡ record {
          start = self.start;
          first = point_at ends.aisle ends.back ∷ self.first ++ point_at (suc ends.aisle) 0 ∷ [];
          second = self.second;
        }) }
    {
        Ok(Paths {
            first: ends.back_to_front(self.first)?,
            ..self
        })
    }

    // On from class EE2: each path goes along its cross aisle there and back.
    fn on_from_two(self, ends: Ends) -> Result<Paths, Memory>
        requires { ends.aisle < 2 ^ 31 }
        ensures { IfOk result (λ p. p ≡ record {
          start = self.start;
          first = point_at ends.aisle ends.back ∷ self.first ++ point_at (suc ends.aisle) ends.back
              ∷ [];
          second = point_at ends.aisle 0 ∷ self.second ++ point_at (suc ends.aisle) 0 ∷ [];
        }) }
    {
        Ok(Paths {
            first: ends.along_back(self.first)?,
            second: ends.along_front(self.second)?,
            ..self
        })
    }

    // On from class E01.
    fn on_from_back(self, alloc: Global, ends: Ends, cross: Cross) -> Result<Paths, Memory>
        requires { ends.aisle < 2 ^ 31 }
        ensures { (layout : LayoutData) → ends.back ≡ back_end layout
            → IfOk result (λ p. p ≡ part_with_cross layout ends.aisle E01 cross self) }
    {
        match cross {
            Cross::C00 => Ok(Paths {
                start: at(ends.aisle, ends.back),
                ..self
            }),
            Cross::C20 => Ok(Paths {
                first: ends.along_back(self.first)?,
                ..self
            }),
            Cross::C22 => Ok(Paths {
                first: ends.along_back(self.first)?,
                second: ends.along_front(Path::none(alloc))?,
                ..self
            }),
            Cross::C11 | Cross::C02 => Ok(self),
        }
    }

    // On from class 0E1.
    fn on_from_front(self, alloc: Global, ends: Ends, cross: Cross) -> Result<Paths, Memory>
        requires { ends.aisle < 2 ^ 31 }
        ensures { (layout : LayoutData) → ends.back ≡ back_end layout
            → IfOk result (λ p. p ≡ part_with_cross layout ends.aisle ZE1 cross self) }
    {
        match cross {
            Cross::C00 => Ok(Paths {
                start: at(ends.aisle, 0),
                ..self
            }),
            Cross::C02 => Ok(Paths {
                first: ends.along_front(self.first)?,
                ..self
            }),
            Cross::C22 => Ok(Paths {
                first: ends.along_back(Path::none(alloc))?,
                second: ends.along_front(self.first)?,
                ..self
            }),
            Cross::C11 | Cross::C20 => Ok(self),
        }
    }

    // On from class EE1.
    fn on_from_both(self, alloc: Global, ends: Ends, cross: Cross) -> Result<Paths, Memory>
        requires { ends.aisle < 2 ^ 31 }
        ensures { (layout : LayoutData) → ends.back ≡ back_end layout
            → IfOk result (λ p. p ≡ part_with_cross layout ends.aisle EE1 cross self) }
    {
        match cross {
            Cross::C00 => Ok(Paths {
                start: at(ends.aisle, ends.back),
                first: self.first.joined(self.second)?,
                second: Path::none(alloc),
            }),
            Cross::C20 => Ok(Paths {
                first: ends.along_back(self.first.joined(self.second)?)?,
                second: Path::none(alloc),
                ..self
            }),
            Cross::C02 => Ok(Paths {
                first: ends.along_front(self.second.joined(self.first)?)?,
                second: Path::none(alloc),
                ..self
            }),
            Cross::C22 => Ok(Paths {
                first: ends.back_to_front(self.first)?,
                second: ends.front_to_back(self.second)?,
                ..self
            }),
            Cross::C11 => Ok(self),
        }
    }

    // On from class 000.
    fn on_from_none(self, alloc: Global, ends: Ends, cross: Cross) -> Result<Paths, Memory>
        requires { ends.aisle < 2 ^ 31 }
        ensures { (layout : LayoutData) → ends.back ≡ back_end layout
            → IfOk result (λ p. p ≡ part_with_cross layout ends.aisle Z00 cross self) }
    {
        match cross {
            Cross::C20 => Ok(Paths {
                first: ends.along_back(Path::none(alloc))?,
                ..self
            }),
            Cross::C02 => Ok(Paths {
                first: ends.along_front(Path::none(alloc))?,
                ..self
            }),
            Cross::C22 => Ok(Paths {
                first: ends.along_back(Path::none(alloc))?,
                second: ends.along_front(Path::none(alloc))?,
                ..self
            }),
            Cross::C00 | Cross::C11 => Ok(self),
        }
    }
}

// The class with one more pass.
fn after_pass(class: Class) -> Class
    ensures { result ≡ class_with_pass class }
{
    match class {
        Class::UU1 => Class::EE1,
        Class::Z01 => Class::Z01,
        _ => Class::UU1,
    }
}

// The class with a way from the back end.
fn after_back(class: Class) -> Class
    ensures { result ≡ class_with_back class }
{
    match class {
        Class::ZE1 => Class::EE2,
        Class::Z00 => Class::E01,
        other => other,
    }
}

impl Paths {
    /// The one closed path of a whole part.
    pub(crate) fn closed(self, layout: &Layout, class: Class) -> Result<Round, Memory>
        ensures { IfOk result (λ r. (r.start ≡ round_start layout.now layout.now.aisles class self)
            × (r.path ≡ round_points class self)) }
    {
        let aisle = layout.aisles();
        let end = layout.slots() + 1;
        match class {
            Class::E01 => Ok(Round {
                start: at(aisle, end),
                path: self.first,
            }),
            Class::ZE1 => Ok(Round {
                start: at(aisle, 0),
                path: self.first,
            }),
            Class::EE1 => Ok(Round {
                start: at(aisle, end),
                path: self.first.joined(self.second)?,
            }),
            Class::UU1 | Class::EE2 | Class::Z00 | Class::Z01 => Ok(Round {
                start: self.start,
                path: self.first,
            }),
        }
    }
}
