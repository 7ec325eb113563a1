//! Tests of the stock book, of allotment, of the machine, of desks whose planner holds them or lacks memory, and of the
//! planner for waves that never go out, by their public calls alone.
//!
//! That waves hold what the rules say is shown by cases of whole runs. Here stands what no run tells: calls that the
//! program makes otherwise or not at all, as a hold of no units or wants beside an excepted row, and what the calls
//! give back before it becomes text.
#![tactic(auto)]

#[cfg(test)]
mod allot;
#[cfg(test)]
mod book;
#[cfg(test)]
mod carts;
#[cfg(test)]
mod desks;
#[cfg(test)]
mod given;
#[cfg(test)]
mod machine;
#[cfg(test)]
mod planner;
