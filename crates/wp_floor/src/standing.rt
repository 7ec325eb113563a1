//! How the rows, the waves and the orders stand.
ghost use Rattle.std.specs.Prelude.{◌≡◌, ◌<◌, length, slice_get, Some};
ghost use Rattle.std.specs.Option.{option_map};
ghost use Rattle.wp_model.specs.Opening.{Opening as OpeningData};
ghost use Rattle.wp_model.specs.Step.{taker_of, wave_from};
ghost use Rattle.wp_floor.specs.Floor.{IsFloor, state_of};

use crate::floor::Floor;
use crate::opening::Opening;
use wp_model::{Name, Row, WaveState};

impl Floor {
    /// How many rows there are.
    pub fn rows(&self) -> u32
        ensures { result ≡ length (state_of self.now).rows }
    {
        self.book.rows()
    }

    /// A row as it stands.
    pub fn row(&self, row: u32) -> Row
        requires { row < length (state_of self.now).rows }
        ensures { slice_get (state_of self.now).rows row ≡ Some result }
    {
        self.book.row(row)
    }

    /// How far the wave of a name is. None comes exactly where no submit of that name was done.
    pub fn state(&self, wave: &Name) -> Option<WaveState>
        requires { (opening : OpeningData) × IsFloor opening self.now }
        ensures { result ≡ option_map (λ found. found.1.state)
            (wave_from 0 (state_of self.now).waves wave.now) }
    {
        match self.waves.find(wave) {
            Some(kept) => Some(kept.stage.state()),
            None => None,
        }
    }

    /// The name of the first wave that has an order, of those that aren't cancelled. None comes exactly where none of
    /// them has it, as with an order that the opening hasn't.
    pub fn taker(&self, opening: &Opening, order: &Name) -> Option<Name>
        requires { IsFloor opening.now self.now }
        ensures { result ≡ taker_of (state_of self.now).waves order.now }
    {
        let number = opening.orders().find(order)?;
        self.takers[number as usize]
    }
}
