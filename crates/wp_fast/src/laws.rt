ghost use Rattle.wp_fast.specs.Laws.{CarriedLengthsAreTold, ComposingIsAssociative, LastLengthsAreTold};
ghost use Rattle.wp_fast.specs.Laws.{SteppingIsComposing};

/// A law: composing summaries is associative.
pub fn composing_is_associative()
    ensures { ComposingIsAssociative }
{}

/// A law: the lengths that `tour_length` carries to a needed aisle, the least from each class to the end of a tour, are
/// those that a summary of this aisle and all behind it tells to the classes in which a tour may end.
pub fn carried_lengths_are_told()
    ensures { CarriedLengthsAreTold }
{}

/// A law: so are the lengths that it carries to the last needed aisle, from which it begins.
pub fn last_lengths_are_told()
    ensures { LastLengthsAreTold }
{}

/// A law: the step from the lengths carried to a needed aisle to those carried to the needed aisle before it, over the
/// run of other aisles between and through that aisle, is composing with the summary of that aisle and the run.
pub fn stepping_is_composing()
    ensures { SteppingIsComposing }
{}
