//! Tests of what the readers of files and words make of them, and of what is printed, where no output of a run shows
//! it: the numbers that words give, what a layout, a certificate and an entry are printed as when they were read, the
//! steps of layouts, what the tables count, the keys of their names, names, numbers and replies, lines of sheets with
//! the greatest numbers, and the files of made days.
#![tactic(auto)]

#[cfg(test)]
mod certificates;
#[cfg(test)]
mod commands;
#[cfg(test)]
mod hashing;
#[cfg(test)]
mod journal;
#[cfg(test)]
mod layouts;
#[cfg(test)]
mod making;
#[cfg(test)]
mod names;
#[cfg(test)]
mod sheets;
#[cfg(test)]
mod steps;
#[cfg(test)]
mod tables;
#[cfg(test)]
mod words;
