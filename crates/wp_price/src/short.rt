ghost use Rattle.std.specs.Prelude.{◌≡◌, ℕ};
ghost use Rattle.wp_lengths.specs.Visits.{IsReach};
ghost use Rattle.wp_visit.specs.Places.{IsAt};
ghost use Rattle.wp_price.specs.ShortMarks.{IsMarked};

use wp_lengths::{Marks, SIXTIETHS};
use wp_model::Memory;
use wp_visit::{Place, Step, Visit, Visitor};

/// Whether the reach of a place doesn't make it too much, so that it isn't entered.
pub fn is_closed(visit: &Visit<'_>, place: &Place) -> bool
    requires { IsAt visit.now place.now }
    ensures { (reach : ℕ) × IsReach visit.now.pairing visit.now.duals place.now.batch place.now.from
        reach
        × IsMarked visit.now.wave visit.now.duals place.now.batch reach result }
{
    let most = SIXTIETHS * visit.length_of(place);
    let reach = visit.reach_of(place);
    place.sum <= most && reach <= most - place.sum
}

/// The visitor that writes the short marks of the places that it enters behind others.
#[derive(Drop)]
pub struct MarksSoFar {
    pub marks: Marks,
}

impl Visitor for MarksSoFar {
    type Fault = Memory;

    ghost use Rattle.std.specs.Prelude.{⊤};
    ghost use Rattle.wp_price.specs.ShortMarks.{EntersMarks};

    ghost fits = { λ visitor task. ⊤ };

    ghost enters = { λ task old place from answer new. EntersMarks task old.marks place from answer new.marks };

    fn enter(&mut self, visit: &Visit<'_>, place: &Place) -> Result<Step, Memory> {
        if is_closed(visit, place) {
            self.marks.push(false)?;
            return Ok(Step::Past);
        }
        self.marks.push(true)?;
        Ok(Step::Deeper)
    }
}
