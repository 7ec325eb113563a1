ghost use Rattle.std.specs.Prelude.{List, [], ℕ, OnOk};
ghost use Rattle.wp_pairs.specs.Permitted.{IsPermitted};
ghost use Rattle.wp_lengths.proofs.Visits.{Extends};
ghost use Rattle.wp_lengths.specs.Visits.{Children, Place as PlaceDue};
ghost use Rattle.wp_visit.specs.Courses.{HasVisited, IsMet};
ghost use Rattle.wp_visit.specs.Places.{IsAt};

use crate::place::Place;
use crate::step::Step;
use crate::visit::Visit;
use crate::visitor::Visitor;

impl Visit<'_> {
    /// Shows a visitor the places with one later item more than a place, in the order of the items, each with all that
    /// extend it before the next. Where the visitor fails, the visit ends at once with its fault.
    pub fn visit_below<V: Visitor>(&self, place: &Place, visitor: &mut V) -> Result<(), V::Fault>
        requires at { IsAt self.now place.now }
        requires fits { V.fits visitor.old self.now }
        ensures fits { V.fits visitor.new self.now }
        ensures course { HasVisited self.now.pairing (V.enters self.now)
            (Children place.now.batch place.now.from)
            visitor.old result visitor.new }
    {
        for order in place.from..self.orders() {
            if let Some(child) = self.child_of(place, order) {
                match visitor.enter(self, &child)? {
                    Step::Deeper => self.visit_below(&child, visitor)?,
                    Step::Past => {}
                }
            }
        }
        Ok(())
    }

    /// Shows a visitor a place, and where it answers to go deeper, all that extend it.
    pub fn visit_from<V: Visitor>(&self, place: &Place, visitor: &mut V) -> Result<(), V::Fault>
        requires at { IsAt self.now place.now }
        requires fits { V.fits visitor.old self.now }
        ensures fits { V.fits visitor.new self.now }
        ensures course { HasVisited self.now.pairing (V.enters self.now)
            (PlaceDue place.now.batch place.now.from)
            visitor.old result visitor.new }
        ensures met { OnOk result ((batch : List ℕ)
            → Extends self.now.pairing place.now.batch place.now.from batch
            → IsMet self.now.pairing (V.enters self.now) batch) }
    {
        match visitor.enter(self, place)? {
            Step::Deeper => self.visit_below(place, visitor),
            Step::Past => Ok(()),
        }
    }

    /// Shows a visitor all places, from that of no order on. Each permitted batch is met: it is shown, or the visitor
    /// went past a place that it extends.
    pub fn visit_all<V: Visitor>(&self, visitor: &mut V) -> Result<(), V::Fault>
        requires fits { V.fits visitor.old self.now }
        ensures fits { V.fits visitor.new self.now }
        ensures course { HasVisited self.now.pairing (V.enters self.now) (PlaceDue [] 0)
            visitor.old result visitor.new }
        ensures met { OnOk result ((batch : List ℕ) → IsPermitted self.now.pairing batch
            → IsMet self.now.pairing (V.enters self.now) batch) }
    {
        self.visit_from(&self.root(), visitor)
    }
}
