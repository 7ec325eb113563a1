use std::alloc::Global;
use wp_cert::{CertFault, CertWhy, Duals, Node, Nodes, Own, Tree, check};
use wp_lengths::{Batching, Marks, Wave};
use wp_samples::{Slots, batch_of, wave_of};

/// Three orders with a slot each.
const ALONE: &[Slots] = &[&[(1, 4)], &[(2, 4)], &[(3, 1)]];

/// Three orders at one slot.
pub const SAME: &[Slots] = &[&[(3, 4)], &[(3, 4)], &[(3, 4)]];

/// One order.
const ONE: &[Slots] = &[&[(2, 2)]];

/// Duals, marks and tight batches.
pub type Shown = (&'static [u64], &'static [u8], &'static [&'static [u32]]);

/// A node, as a table has it.
pub enum Row {
    Kept,
    Leaf(Shown),
    Bare(u32, u32),
    Split(u32, u32, Shown),
    Dead(u32),
}

/// What the check of a tree says: a bound, or a node and why it is refused.
pub enum Says {
    Bound(u64),
    Fault(u64, Why),
}

/// Why a tree is refused.
pub enum Why {
    Cut,
    SplitKept,
    DualsLength,
    SumLow,
    NotFeasible(&'static [u32]),
    BadMarks,
    NotTight(u32),
    BadPair,
    NotDead(u32),
}

/// The root of the three orders at one slot, with batches of two.
pub const ROOT: Shown = (&[1020, 1020, 1020], b"1000", &[&[0, 1], &[0, 1], &[0, 2]]);

/// Its child with the first two orders together.
pub const TOGETHER: Shown = (&[1020, 1020, 2040], b"100", &[&[0, 1], &[0, 1], &[2]]);

/// Its child with them apart.
pub const APART: Shown = (&[2040, 2040, 0], b"11000", &[&[0], &[1], &[0, 2]]);

/// Duals of 64 equal orders, two to a batch: no single order is entered, since one more order makes it just tight.
const SIXTY_FOUR: Shown = (
    &[1020; 64],
    b"10000000000000000000000000000000000000000000000000000000000000000",
    &[
        &[0, 1],
        &[0, 1],
        &[2, 3],
        &[2, 3],
        &[4, 5],
        &[4, 5],
        &[6, 7],
        &[6, 7],
        &[8, 9],
        &[8, 9],
        &[10, 11],
        &[10, 11],
        &[12, 13],
        &[12, 13],
        &[14, 15],
        &[14, 15],
        &[16, 17],
        &[16, 17],
        &[18, 19],
        &[18, 19],
        &[20, 21],
        &[20, 21],
        &[22, 23],
        &[22, 23],
        &[24, 25],
        &[24, 25],
        &[26, 27],
        &[26, 27],
        &[28, 29],
        &[28, 29],
        &[30, 31],
        &[30, 31],
        &[32, 33],
        &[32, 33],
        &[34, 35],
        &[34, 35],
        &[36, 37],
        &[36, 37],
        &[38, 39],
        &[38, 39],
        &[40, 41],
        &[40, 41],
        &[42, 43],
        &[42, 43],
        &[44, 45],
        &[44, 45],
        &[46, 47],
        &[46, 47],
        &[48, 49],
        &[48, 49],
        &[50, 51],
        &[50, 51],
        &[52, 53],
        &[52, 53],
        &[54, 55],
        &[54, 55],
        &[56, 57],
        &[56, 57],
        &[58, 59],
        &[58, 59],
        &[60, 61],
        &[60, 61],
        &[62, 63],
        &[62, 63],
    ],
);

/// A wave, how often its orders are repeated, a capacity, the nodes of a tree, and what its check says.
type Checked = (&'static [Slots], u32, u32, &'static [Row], Says);

const TREES: &[Checked] = &[
    (
        SAME,
        1,
        2,
        &[
            Row::Split(0, 1, ROOT),
            Row::Leaf(TOGETHER),
            Row::Leaf(APART),
        ],
        Says::Bound(68),
    ),
    (SAME, 1, 2, &[Row::Kept], Says::Bound(51)),
    (SAME, 1, 1, &[Row::Kept], Says::Bound(102)),
    (SAME, 1, 8, &[Row::Kept], Says::Bound(13)),
    (SAME, 1, 2, &[Row::Leaf(ROOT)], Says::Bound(51)),
    (
        SAME,
        1,
        2,
        &[Row::Split(0, 1, ROOT), Row::Kept, Row::Leaf(APART)],
        Says::Bound(51),
    ),
    (&[&[(3, 4)]], 16, 8, &[Row::Kept], Says::Bound(68)),
    (&[&[(3, 4)]], 64, 8, &[Row::Kept], Says::Bound(272)),
    (
        &[&[(3, 4)]],
        64,
        2,
        &[Row::Leaf(SIXTY_FOUR)],
        Says::Bound(1088),
    ),
    (ONE, 1, 8, &[Row::Kept], Says::Bound(2)),
    (
        ONE,
        1,
        1,
        &[Row::Leaf((&[960], b"10", &[&[0]]))],
        Says::Bound(16),
    ),
    (
        ONE,
        1,
        1,
        &[Row::Leaf((&[960], b"11", &[&[0]]))],
        Says::Bound(16),
    ),
    (
        ONE,
        1,
        8,
        &[Row::Leaf((&[959], b"10", &[&[0]]))],
        Says::Fault(0, Why::NotTight(0)),
    ),
    (ONE, 1, 1, &[Row::Dead(0)], Says::Fault(0, Why::NotDead(0))),
    (
        ALONE,
        1,
        2,
        &[Row::Leaf((&[720, 840, 1320], b"1100100", &[&[0, 1], &[0, 1], &[2]]))],
        Says::Bound(48),
    ),
    (
        SAME,
        1,
        2,
        &[
            Row::Split(0, 1, ROOT),
            Row::Split(0, 2, TOGETHER),
            Row::Dead(0),
            Row::Kept,
            Row::Leaf(APART),
        ],
        Says::Bound(68),
    ),
    (
        SAME,
        1,
        2,
        &[
            Row::Split(0, 1, ROOT),
            Row::Split(0, 2, TOGETHER),
            Row::Dead(7),
            Row::Kept,
            Row::Leaf(APART),
        ],
        Says::Fault(2, Why::NotDead(7)),
    ),
    (
        SAME,
        1,
        2,
        &[
            Row::Split(0, 1, ROOT),
            Row::Split(0, 1, TOGETHER),
            Row::Kept,
            Row::Kept,
            Row::Kept,
        ],
        Says::Fault(1, Why::BadPair),
    ),
    (
        SAME,
        1,
        2,
        &[
            Row::Split(0, 1, ROOT),
            Row::Leaf(TOGETHER),
            Row::Leaf(TOGETHER),
        ],
        Says::Fault(2, Why::BadMarks),
    ),
    (SAME, 1, 2, &[], Says::Fault(0, Why::Cut)),
    (
        SAME,
        1,
        2,
        &[Row::Split(0, 1, ROOT), Row::Leaf(TOGETHER)],
        Says::Fault(2, Why::Cut),
    ),
    (
        SAME,
        1,
        2,
        &[Row::Leaf((&[1021, 1020, 1020], b"1000", &[&[0, 1], &[0, 1], &[0, 2]]))],
        Says::Fault(0, Why::BadMarks),
    ),
    (
        SAME,
        1,
        2,
        &[Row::Leaf((&[1021, 1020, 1020], b"11000", &[&[0, 1], &[0, 1], &[0, 2]]))],
        Says::Fault(0, Why::NotFeasible(&[0, 1])),
    ),
    (
        SAME,
        1,
        2,
        &[Row::Leaf((&[1020, 1020, 1020], b"100", &[&[0, 1], &[0, 1], &[0, 2]]))],
        Says::Fault(0, Why::BadMarks),
    ),
    (
        SAME,
        1,
        2,
        &[Row::Leaf((&[1020, 1020, 1020], b"10000", &[&[0, 1], &[0, 1], &[0, 2]]))],
        Says::Fault(0, Why::BadMarks),
    ),
    (
        SAME,
        1,
        2,
        &[Row::Leaf((&[1020, 1020, 1019], b"1000", &[&[0, 1], &[0, 1], &[0, 2]]))],
        Says::Fault(0, Why::SumLow),
    ),
    (
        SAME,
        1,
        2,
        &[Row::Leaf((&[1020, 1020], b"1000", &[&[0, 1], &[0, 1], &[0, 2]]))],
        Says::Fault(0, Why::DualsLength),
    ),
    (
        SAME,
        1,
        2,
        &[Row::Bare(0, 1), Row::Leaf(TOGETHER), Row::Leaf(APART)],
        Says::Fault(0, Why::SplitKept),
    ),
    (
        SAME,
        1,
        2,
        &[
            Row::Split(1, 0, ROOT),
            Row::Leaf(TOGETHER),
            Row::Leaf(APART),
        ],
        Says::Fault(0, Why::BadPair),
    ),
    (
        SAME,
        1,
        2,
        &[
            Row::Split(0, 3, ROOT),
            Row::Leaf(TOGETHER),
            Row::Leaf(APART),
        ],
        Says::Fault(0, Why::BadPair),
    ),
    (
        SAME,
        1,
        2,
        &[
            Row::Split(0, 1, ROOT),
            Row::Leaf((&[1020, 1020, 2040], b"100", &[&[0, 1], &[0, 1], &[0, 2]])),
            Row::Leaf(APART),
        ],
        Says::Fault(1, Why::NotTight(2)),
    ),
    (
        SAME,
        1,
        2,
        &[Row::Split(0, 1, ROOT), Row::Dead(0), Row::Leaf(APART)],
        Says::Fault(1, Why::NotDead(0)),
    ),
    (
        SAME,
        1,
        2,
        &[
            Row::Split(0, 1, ROOT),
            Row::Leaf(TOGETHER),
            Row::Leaf(APART),
            Row::Kept,
        ],
        Says::Fault(3, Why::Cut),
    ),
];

/// The duals of a row.
fn duals_of(alloc: Global, row: &[u64]) -> Option<Duals> {
    let mut duals = Vec::new(alloc);
    for dual in row {
        duals.push(*dual).ok()?;
    }
    if duals.len() > 64 {
        return None;
    }
    Some(Duals::of(duals))
}

/// The marks of a row, a character each.
fn marks_of(alloc: Global, row: &[u8]) -> Option<Marks> {
    let mut marks = Marks::new(alloc);
    for mark in row {
        marks.push(*mark == b'1').ok()?;
    }
    Some(marks)
}

/// The tight batches of a row.
fn tight_of(alloc: Global, row: &[&[u32]]) -> Option<Batching> {
    let mut tight = Vec::new(alloc);
    for orders in row {
        tight.push(batch_of(orders)).ok()?;
    }
    if tight.len() > 64 {
        return None;
    }
    Some(Batching::of(tight))
}

fn own_of(alloc: Global, row: &Shown) -> Option<Own> {
    let (duals, marks, tight) = *row;
    let duals = duals_of(alloc, duals)?;
    let marks = marks_of(alloc, marks)?;
    Some(Own::plain(alloc, duals, marks, tight_of(alloc, tight)?))
}

fn node_of(alloc: Global, row: &Row) -> Option<Node> {
    match row {
        Row::Kept => Some(Node::Leaf(None)),
        Row::Leaf(shown) => Some(Node::Leaf(Some(own_of(alloc, shown)?))),
        Row::Bare(first, second) => Some(Node::Split {
            first: *first,
            second: *second,
            own: None,
        }),
        Row::Split(first, second, shown) => Some(Node::Split {
            first: *first,
            second: *second,
            own: Some(own_of(alloc, shown)?),
        }),
        Row::Dead(order) => Some(Node::Dead(*order)),
    }
}

fn tree_of(alloc: Global, rows: &[Row]) -> Option<Tree> {
    let mut nodes = Vec::new(alloc);
    for row in rows {
        nodes.push(node_of(alloc, row)?).ok()?;
    }
    if nodes.len() > 64 {
        return None;
    }
    Some(Tree::plain(Nodes::of(nodes)))
}

/// Whether a tree is refused for this reason.
fn is_why(why: CertWhy, wanted: &Why) -> bool {
    match why {
        CertWhy::Cut => matches!(wanted, Why::Cut),
        CertWhy::SplitKept => matches!(wanted, Why::SplitKept),
        CertWhy::DualsLength => matches!(wanted, Why::DualsLength),
        CertWhy::SumLow => matches!(wanted, Why::SumLow),
        CertWhy::BadMarks => matches!(wanted, Why::BadMarks),
        CertWhy::BadPair => matches!(wanted, Why::BadPair),
        CertWhy::NotFeasible(batch) => match wanted {
            Why::NotFeasible(orders) => batch.is(batch_of(orders)),
            _ => false,
        },
        CertWhy::NotTight(order) => match wanted {
            Why::NotTight(other) => order == *other,
            _ => false,
        },
        CertWhy::NotDead(order) => match wanted {
            Why::NotDead(other) => order == *other,
            _ => false,
        },
        _ => false,
    }
}

/// Whether this is what a check said.
fn is_said(answer: Result<u64, CertFault>, says: &Says) -> bool {
    match answer {
        Ok(bound) => match says {
            Says::Bound(wanted) => bound == *wanted,
            Says::Fault(..) => false,
        },
        Err(fault) => match says {
            Says::Bound(_) => false,
            Says::Fault(node, why) => fault.node == *node && is_why(fault.why, why),
        },
    }
}

/// Whether this is what the check of a wave's tree says.
pub fn says_of(
    alloc: Global,
    wave: &Wave,
    capacity: u32,
    rows: &[Row],
    says: &Says,
) -> Option<bool> {
    if capacity < 1 || 8 < capacity {
        return None;
    }
    let tree = tree_of(alloc, rows)?;
    Some(is_said(check(alloc, wave, capacity, &tree), says))
}

fn says_so(alloc: Global, checked: &Checked) -> Option<bool> {
    let (orders, times, capacity, rows, says) = checked;
    let wave = wave_of(alloc, orders, *times)?;
    says_of(alloc, &wave, *capacity, rows, says)
}

fn wrong_check(alloc: Global) -> Option<usize> {
    for (place, checked) in TREES.iter().enumerate() {
        if says_so(alloc, checked) != Some(true) {
            return Some(place);
        }
    }
    None
}

#[test]
fn trees_are_right_or_have_a_first_broken_rule(rt: HostRuntime) {
    assert_eq!(rt; wrong_check(rt.alloc()), None);
}
