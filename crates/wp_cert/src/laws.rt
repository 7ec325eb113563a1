ghost use Rattle.wp_cert.specs.Bounds.{BatchesHaveLengths, BoundsHold, CostsAreWalked, RightTreesBreakNoRule};
ghost use Rattle.wp_cert.specs.Bounds.{RightTreesHaveOneBound};
ghost use Rattle.wp_cert.specs.Bounds.{PrintedTextsTellTheBound, PutBatchesAreBatchings, SameWavesHaveOneBound};
ghost use Rattle.wp_cert.specs.Bounds.{TextsTellOneBound};
ghost use Rattle.wp_cert.specs.Bounds.{TextsWithABoundAreAccepted, TreesBreakOneRuleFirst, WalksAreNoShorter};

/// A law: no batching of a wave within a capacity costs less than the bound of a right tree.
pub fn no_batching_costs_less()
    ensures { BoundsHold }
{}

/// A law: however a wave is put into batches within a capacity, and whatever closed walk each cart takes past the picks
/// of its batch, the walks are together no shorter than the bound of a right tree. From this it follows that no
/// batching costs less. Batches into which orders are put so are a batching where each has its orders in ascending
/// order.
pub fn no_walks_are_shorter()
    ensures walks { WalksAreNoShorter }
    ensures costs { CostsAreWalked }
    ensures batchings { PutBatchesAreBatchings }
{}

/// A law: a tree that breaks a rule breaks one first, at one node.
pub fn trees_break_one_rule_first()
    ensures { TreesBreakOneRuleFirst }
{}

/// A law: each batch of a wave has a length.
pub fn batches_have_lengths()
    ensures { BatchesHaveLengths }
{}

/// A law: a right tree breaks no rule, so it is never refused, and it has one bound.
pub fn right_trees_are_told_exactly()
    ensures unbroken { RightTreesBreakNoRule }
    ensures one_bound { RightTreesHaveOneBound }
{}

/// A law: two waves that pick at the same slots and have the same cart have one bound for the same tree and capacity.
/// So the text of a certificate tells one bound, whichever wave it is read as, and where it tells one it isn't refused.
pub fn texts_tell_one_bound()
    ensures same { SameWavesHaveOneBound }
    ensures one { TextsTellOneBound }
    ensures accepted { TextsWithABoundAreAccepted }
{}

/// A law: the text that is printed of a wave, a capacity and a right tree tells that tree's bound.
pub fn printed_texts_tell_the_bound()
    ensures { PrintedTextsTellTheBound }
{}
