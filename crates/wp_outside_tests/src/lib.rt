//! Tests of what the program meets outside and of what desks share: devices, the writing of sections, the turn, and the
//! store: what a stopped or failing disk leaves, and what stands behind the last record. By the public calls alone.
#![tactic(auto)]

#[cfg(test)]
mod crashes;
#[cfg(test)]
mod days;
#[cfg(test)]
mod devices;
#[cfg(test)]
mod limits;
#[cfg(test)]
mod real_disks;
#[cfg(test)]
mod turns;
#[cfg(test)]
mod writing;
