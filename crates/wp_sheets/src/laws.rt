ghost use Rattle.std.specs.Prelude.{◌≡◌, ℕ, List};
ghost use Rattle.wp_model.specs.Opening.{Stock as StockData};
ghost use Rattle.wp_model.specs.declared.point.Point.{Point as PointData};
ghost use Rattle.wp_machine.specs.declared.outcome.WaveHolds.{WaveHolds as WaveData};
ghost use Rattle.wp_sheets.specs.Sheets.{IsBatchText};

/// A law: the text of a batch is determined by its number, its wave's holds, the stock, its orders, and the length and
/// the points of its tour. So there is one list of its picks.
pub fn batches_have_one_text()
    ensures { (number : ℕ) (wave : WaveData) (stock : StockData) (batch : List ℕ) (tour_length : ℕ)
        (walk : List PointData) (text other : List ℕ)
        → IsBatchText number wave stock batch tour_length walk text
        → IsBatchText number wave stock batch tour_length walk other → text ≡ other }
{}
