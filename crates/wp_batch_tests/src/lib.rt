//! Tests of the crates of pairs, batches, pools, certificates, pricing, brackets and plans: which batches pairs permit
//! and what they leave undecided, which carts there are and what fits them, the lengths of batches and the places where
//! they are kept, the batches that a start has and that joins lead to, marks, pools of columns with their tables and
//! solutions; which trees are right and how others are refused, the batch of least slack and its marks, found by any
//! number of workers, brackets of the linear bound, and the plans of waves with their costs and bounds, all this of
//! waves with carts too.
#![tactic(auto)]

#[cfg(test)]
mod around;
#[cfg(test)]
mod batch;
#[cfg(test)]
mod cart_batches;
#[cfg(test)]
mod cart_pairs;
#[cfg(test)]
mod cart_plans;
#[cfg(test)]
mod cart_pricing;
#[cfg(test)]
mod cart_trees;
#[cfg(test)]
mod carts;
#[cfg(test)]
mod cert;
#[cfg(test)]
mod cheapest;
#[cfg(test)]
mod classes;
#[cfg(test)]
mod deep;
#[cfg(test)]
mod exact;
#[cfg(test)]
mod gates;
#[cfg(test)]
mod halts;
#[cfg(test)]
mod made;
#[cfg(test)]
mod many;
#[cfg(test)]
mod master;
#[cfg(test)]
mod meetings;
#[cfg(test)]
mod open_brackets;
#[cfg(test)]
mod pairs;
#[cfg(test)]
mod places;
#[cfg(test)]
mod pools;
#[cfg(test)]
mod price;
#[cfg(test)]
mod rows;
#[cfg(test)]
mod search;
#[cfg(test)]
mod slow;
#[cfg(test)]
mod starts;
#[cfg(test)]
mod workers;
