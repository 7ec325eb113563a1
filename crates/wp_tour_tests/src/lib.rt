//! Tests of the crates of layouts, picks and tours: which layouts there are, the moves in them and the lengths of
//! walks, sets of picks and the ways through their aisles; tours that were worked out by hand or are made, whose
//! lengths and walks every crate gives alike; crews, and the walks of rules.
#![tactic(auto)]

#[cfg(test)]
mod classes;
#[cfg(test)]
mod crews;
#[cfg(test)]
mod ends;
#[cfg(test)]
mod fast;
#[cfg(test)]
mod graph;
#[cfg(test)]
mod needed;
#[cfg(test)]
mod rules;
#[cfg(test)]
mod walk;
#[cfg(test)]
mod worked;
