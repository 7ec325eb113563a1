ghost use Rattle.wp_visit.specs.Courses.{Entering};
ghost use Rattle.wp_visit.specs.Places.{IsAt, Task};

use crate::place::Place;
use crate::step::Step;
use crate::visit::Visit;

/// What is done at each place of a visit. It may keep what it found so far, and it says where the visit goes on.
pub trait Visitor {
    /// Why a visit is broken off.
    type Fault: Drop;

    /// What holds of a visitor of a task all the time.
    ghost fits: { Self → Task → Type 0 };

    /// How a place is entered, of a task: the visitor before, what it answers, and the visitor after.
    ghost enters: { Task → Entering Self Self.Fault };

    /// Enters a place, and says whether the visit goes deeper or past what extends the place. An error ends the visit.
    fn enter(&mut self, visit: &Visit<'_>, place: &Place) -> Result<Step, Self::Fault>
        requires fits { fits self.old visit.now }
        requires at { IsAt visit.now place.now }
        ensures fits { fits self.new visit.now }
        ensures enters { enters visit.now self.old place.now.batch place.now.from result self.new };
}
