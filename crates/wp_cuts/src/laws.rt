ghost use Rattle.wp_cuts.specs.Counts.{BatchingsHaveTheLeastBatches};
ghost use Rattle.wp_cuts.specs.Cuts.{BatchingsMeetCutsNoMore, FurtherOrdersMeetCutsNoLess};
ghost use Rattle.wp_cuts.specs.Prices.{NetsAreNoMore, PlainPricesSayWhatDualsSay};
ghost use Rattle.wp_cuts.specs.Prices.{RoundedNetsAreNoMore};
ghost use Rattle.wp_cuts.specs.PricedVisits.{MarksShowPricesFeasible, PlainVisitsAreVisits, VisitsHaveOneEnd};
ghost use Rattle.wp_cuts.specs.Steps.{ClosedWalksAreMultiples};

/// A law: the length of each closed walk is a multiple of its layout's step.
pub fn closed_walks_are_multiples()
    ensures { ClosedWalksAreMultiples }
{}

/// A law: each batching of a wave has at least the least number of batches.
pub fn batchings_have_the_least_batches()
    ensures { BatchingsHaveTheLeastBatches }
{}

/// A law: further orders never meet a cut fewer times, and the batches of a batching together meet it no more often
/// than all its orders would.
pub fn batchings_meet_cuts_no_more()
    ensures further { FurtherOrdersMeetCutsNoLess }
    ensures together { BatchingsMeetCutsNoMore }
{}

/// A law: the net of feasible prices is at most sixty times what a batching of permitted batches costs, and rounded up
/// to a multiple of the layout's step it is at most the cost.
pub fn nets_are_no_more()
    ensures sixtieths { NetsAreNoMore }
    ensures units { RoundedNetsAreNoMore }
{}

/// A law: plain prices say what their duals say.
pub fn plain_prices_say_what_duals_say()
    ensures { PlainPricesSayWhatDualsSay }
{}

/// A law: prices whose marks pass are feasible.
pub fn marks_show_prices_feasible()
    ensures { MarksShowPricesFeasible }
{}

/// A law: for plain prices the visit of marks is that of their duals.
pub fn plain_visits_are_visits()
    ensures { PlainVisitsAreVisits }
{}

/// A law: a visit of marks comes to one end, also in another wave whose batches have the same lengths.
pub fn visits_have_one_end()
    ensures { VisitsHaveOneEnd }
{}
