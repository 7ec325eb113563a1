ghost use Rattle.std.specs.Prelude.{◌≡◌, ◌+◌, ◌<◌, ◌≤◌, ◌^◌, ◌==◌, if◌then◌else◌};

/// How far the free units of an article have been dealt: which of its rows comes next, by its place among them, and how
/// many units of that row are gone.
#[derive(Clone, Copy)]
pub struct Mark {
    pub place: u32,
    pub taken: u32,
}

impl Mark {
    /// Before the first unit of the first row.
    pub fn start() -> Mark
        ensures { result ≡ record { place = 0; taken = 0 } }
    {
        Mark { place: 0, taken: 0 }
    }

    /// Units of the row are dealt of those that are left in it; where these are all, the next row follows.
    pub fn pass(&mut self, units: u32, left: u32)
        requires place { self.old.place + 1 < 2 ^ 32 }
        requires taken { self.old.taken + left < 2 ^ 32 }
        requires units { units ≤ left }
        ensures { self.new ≡ (if units == left then record { place = self.old.place + 1; taken = 0 }
            else record self.old { taken = self.old.taken + units }) }
    {
        if units == left {
            self.place += 1;
            self.taken = 0;
        } else {
            self.taken += units;
        }
    }
}
