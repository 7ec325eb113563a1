//! Certificates: a bound on the cost of every batching of a wave, with what shows it. A tree splits the batchings on
//! pairs of orders; at each node duals say how much each order costs at least, and in the third form of a tree prices say
//! besides what each batch costs, and what cuts take off.
#![tactic(auto)]

mod checking;
mod cuts;
mod fault;
mod known;
mod laws;
mod levels;
mod node;
mod nodes;
mod own;
mod path;
mod paying;
mod terms;
mod tested;
mod text;
mod tree;
mod visit;
mod way;

pub use checking::check;
pub use laws::{
    batches_have_lengths, no_batching_costs_less, no_walks_are_shorter,
    printed_texts_tell_the_bound, right_trees_are_told_exactly, texts_tell_one_bound,
    trees_break_one_rule_first,
};
pub use nodes::Nodes;
pub use path::pairs_of;
pub use text::{print_certificate, read_certificate};
pub use tree::{
    CertFault, CertWhy, Certificate, CutPrices, Duals, Node, Own, Tree, WrittenCut, WrittenCuts,
};
