ghost use Rattle.wp_planner.specs.Laws.{CheckedBoundsAreTold, EachReleaseFills, EachWaveOutIsFilled};

/// A law: a wave that goes out has 1 to 64 orders, and holds for each of them, in rows of the stock, what the order's
/// lines want together; so no order loads more than a cart holds, where the opening has its units. It holds of a
/// release in every sound state, and of every wave that goes out in a history.
pub fn waves_that_go_out_are_filled()
    ensures release { EachReleaseFills }
    ensures history { EachWaveOutIsFilled }
{}

/// A law: whatever bound a check tells of the certificate that a sheet has, it is the bound in the sheet's first line.
/// That there is one is a field of the sheet.
pub fn checks_tell_the_bound_of_the_heading()
    ensures { CheckedBoundsAreTold }
{}
