ghost use Rattle.std.specs.Prelude.{◌≡◌, IfNone, IfSome, replicate};
ghost use Rattle.wp_batch.specs.LastPlaces.{IsNowhere, IsPlaceOf};

use wp_pairs::Batch;

/// For each order the place of the batch that had it when it was looked for last. It may have left that batch since.
#[derive(Clone, Copy)]
pub struct LastPlaces {
    places: [usize; 64],
}

// The place of the batch with an order.
fn place_with(batches: &[Batch], order: u32) -> Option<usize>
    ensures there { IfSome result (IsPlaceOf batches.now order) }
    ensures none { IfNone result (IsNowhere batches.now order) }
{
    for place in 0..batches.len() {
        if batches[place].has(order) {
            return Some(place);
        }
    }
    None
}

impl LastPlaces {
    /// Where no order was looked for yet: each is looked for at the first place.
    pub fn none() -> LastPlaces
        ensures { result.places ≡ replicate 64 0 }
    {
        LastPlaces { places: [0; 64] }
    }

    // The last place of an order, where the batch there has it still.
    fn last_place(&self, batches: &[Batch], order: u32) -> Option<usize>
        ensures { IfSome result (IsPlaceOf batches.now order) }
    {
        let place = *self.places.get(order as usize)?;
        if place < batches.len() && batches[place].has(order) {
            return Some(place);
        }
        None
    }

    /// The place of the batch with an order, if there is one: where the order was last, or else the first.
    pub fn place_with(&mut self, batches: &[Batch], order: u32) -> Option<usize>
        ensures there { IfSome result (IsPlaceOf batches.now order) }
        ensures none { IfNone result (IsNowhere batches.now order) }
    {
        if let Some(place) = self.last_place(batches, order) {
            return Some(place);
        }
        let place = place_with(batches, order)?;
        if order < 64 {
            self.places[order as usize] = place;
        }
        Some(place)
    }
}
