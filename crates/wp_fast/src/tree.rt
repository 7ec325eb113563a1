ghost use Rattle.std.specs.Prelude.{◌≡◌, ◌+◌, ◌*◌, ◌<◌, ◌≤◌, ◌≢◌, ◌↔◌, ℕ, false, IsTrue};
ghost use Rattle.wp_model.specs.Limits.{most_aisles};
ghost use Rattle.wp_model.specs.Warehouse.{IsLayout, IsUpTo};
ghost use Rattle.wp_graph.specs.PickSets.{AreSlots, HaveSlotIn};
ghost use Rattle.wp_fast.specs.Passages.{AreLeast};
ghost use Rattle.wp_fast.specs.Runs.{PastAisle};
ghost use Rattle.wp_fast.specs.Trees.{AreComposed, AreSmall, IsComposedAt, IsKeptAt, IsPastAisleAt, IsTree, IsTreeBut};
ghost use Rattle.wp_fast.specs.Trees.{is_marked};

use crate::summary::Summary;
use wp_graph::{Layout, Picks, aisle_ways};
use wp_model::MOST_AISLES;

/// How many nodes a tree has: the root is node 1, nodes 2k and 2k + 1 are below node k, and aisle a is at node 63 + a.
/// Node 0 stands for nothing.
pub(crate) const NODES: usize = 128;

/// How many nodes stand before those of the aisles.
const INNER: usize = 64;

/// The summaries of a tree, node by node.
pub(crate) type Tree = [Summary; NODES];

/// A mark for each node.
pub(crate) type Marks = [bool; NODES];

// The node of an aisle.
fn node_of(aisle: u32) -> usize
    requires { IsUpTo most_aisles aisle }
    ensures { result ≡ 63 + aisle }
{
    INNER - 1 + aisle as usize
}

/// The least lengths past an aisle: through it, and to the next where it isn't the last. Behind the last aisle there is
/// nothing to pass.
pub(crate) fn past_aisle(layout: &Layout, picks: &Picks, aisle: u32) -> Summary
    requires picks { picks.now.layout ≡ layout.now }
    requires aisle { IsUpTo most_aisles aisle }
    ensures least { AreLeast (PastAisle layout.now picks.now.points aisle) result }
    ensures valid { IsLayout layout.now }
{
    if aisle > layout.aisles() {
        return Summary::of_nothing();
    }
    let through = Summary::of_aisle(&aisle_ways(layout, picks, aisle));
    if aisle < layout.aisles() {
        through.compose(&Summary::of_crossing(layout.spacing_after(aisle)))
    } else {
        through
    }
}

/// Marks the nodes of the aisles in which picks have a slot.
pub(crate) fn marks_of(layout: &Layout, picks: &Picks) -> Marks
    requires { picks.now.layout ≡ layout.now }
    ensures marked { (aisle : ℕ) → IsUpTo most_aisles aisle → is_marked result (63 + aisle) ≡ false
        → HaveSlotIn picks.now.points aisle → ⊥ }
    ensures slots { AreSlots layout.now picks.now.points }
{
    let mut marks = [false; NODES];
    for aisle in 1..layout.aisles() + 1 {
        marks[node_of(aisle)] = picks.has_in(aisle);
    }
    marks
}

/// Marks the nodes of all aisles of a layout.
pub(crate) fn all_marks(layout: &Layout) -> Marks
    ensures marked { (aisle : ℕ) → IsUpTo most_aisles aisle → is_marked result (63 + aisle) ≡ false
        → layout.now.aisles < aisle }
    ensures valid { IsLayout layout.now }
{
    let mut marks = [false; NODES];
    for aisle in 1..layout.aisles() + 1 {
        marks[node_of(aisle)] = true;
    }
    marks
}

// Puts the summary of an aisle into a tree.
fn put_aisle(tree: &mut Tree, layout: &Layout, picks: &Picks, aisle: u32)
    requires picks { picks.now.layout ≡ layout.now }
    requires aisle { IsUpTo most_aisles aisle }
    requires small { AreSmall tree.old }
    ensures past { IsPastAisleAt layout.now picks.now.points tree.new aisle }
    ensures small { AreSmall tree.new }
    ensures others { (other : ℕ) → other ≢ 63 + aisle → IsKeptAt tree.old tree.new other }
{
    let node = node_of(aisle);
    tree[node] = past_aisle(layout, picks, aisle);
}

// Puts the summary of an aisle into a tree where it is marked.
fn put_if_marked(tree: &mut Tree, layout: &Layout, picks: &Picks, marks: &Marks, aisle: u32)
    requires picks { picks.now.layout ≡ layout.now }
    requires aisle { IsUpTo most_aisles aisle }
    requires small { AreSmall tree.old }
    requires past { is_marked marks.now (63 + aisle) ≡ false
        → IsPastAisleAt layout.now picks.now.points tree.old aisle }
    ensures past { IsPastAisleAt layout.now picks.now.points tree.new aisle }
    ensures small { AreSmall tree.new }
    ensures others { (other : ℕ) → other ≢ 63 + aisle → IsKeptAt tree.old tree.new other }
    ensures unmarked { is_marked marks.now (63 + aisle) ≡ false
        → IsKeptAt tree.old tree.new (63 + aisle) }
{
    if marks[node_of(aisle)] {
        put_aisle(tree, layout, picks, aisle);
    }
}

// Puts the summaries of the marked aisles into a tree.
fn put_aisles(tree: &mut Tree, layout: &Layout, picks: &Picks, marks: &Marks)
    requires picks { picks.now.layout ≡ layout.now }
    requires but { IsTreeBut layout.now picks.now.points marks.now tree.old }
    ensures past { (aisle : ℕ) → IsUpTo most_aisles aisle
        → IsPastAisleAt layout.now picks.now.points tree.new aisle }
    ensures small { AreSmall tree.new }
    ensures inner { (node : ℕ) → node < 64 → IsKeptAt tree.old tree.new node }
    ensures unmarked { (node : ℕ) → is_marked marks.now node ≡ false
        → IsKeptAt tree.old tree.new node }
{
    for aisle in 1..MOST_AISLES + 1 {
        put_if_marked(tree, layout, picks, marks, aisle);
    }
}

// Composes a node's summary of those below it.
fn compose_at(tree: &mut Tree, node: usize)
    requires node { IsUpTo 63 node }
    requires small { AreSmall tree.old }
    ensures composed { IsComposedAt tree.new node }
    ensures small { AreSmall tree.new }
    ensures others { (other : ℕ) → other ≢ node → IsKeptAt tree.old tree.new other }
{
    tree[node] = tree[2 * node].compose(&tree[2 * node + 1]);
}

// Composes a node where one below it is marked, and then marks it too.
fn compose_if_marked(tree: &mut Tree, marks: &mut Marks, node: usize)
    requires node { IsUpTo 63 node }
    requires small { AreSmall tree.old }
    requires composed { is_marked marks.old (2 * node) ≡ false
        → is_marked marks.old (2 * node + 1) ≡ false → IsComposedAt tree.old node }
    ensures composed { IsComposedAt tree.new node }
    ensures small { AreSmall tree.new }
    ensures others { (other : ℕ) → other ≢ node → IsKeptAt tree.old tree.new other }
    ensures unmarked { is_marked marks.new node ≡ false → IsKeptAt tree.old tree.new node }
    ensures marks { (other : ℕ) → is_marked marks.new other ≡ false
        → is_marked marks.old other ≡ false }
{
    if marks[2 * node] || marks[2 * node + 1] {
        compose_at(tree, node);
        marks[node] = true;
    }
}

// Composes the nodes above marked ones.
fn compose_above(tree: &mut Tree, mut marks: Marks)
    requires small { AreSmall tree.old }
    requires composed { (node : ℕ) → IsUpTo 63 node → is_marked marks (2 * node) ≡ false
        → is_marked marks (2 * node + 1) ≡ false
        → IsComposedAt tree.old node }
    ensures composed { AreComposed tree.new }
    ensures small { AreSmall tree.new }
    ensures aisles { (node : ℕ) → 64 ≤ node → IsKeptAt tree.old tree.new node }
{
    for done in 1..INNER {
        compose_if_marked(tree, &mut marks, INNER - done);
    }
}

/// Puts the summaries of the marked aisles into a tree, and composes the nodes above them.
pub(crate) fn renew(tree: &mut Tree, layout: &Layout, picks: &Picks, marks: Marks)
    requires picks { picks.now.layout ≡ layout.now }
    requires but { IsTreeBut layout.now picks.now.points marks tree.old }
    ensures { IsTree layout.now picks.now.points tree.new }
{
    put_aisles(tree, layout, picks, &marks);
    compose_above(tree, marks);
}
