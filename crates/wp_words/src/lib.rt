//! The words of a command line, read into the job that they ask for.
//!
//! The first word is the mode. Each mode has options of its own, which the kit's `clap` reads: `--option VALUE` or
//! `--option=VALUE`, in any order, each once. None is left out but the budget and the workers of a plan or of a made
//! day, which then are 2,000,000 and 1, their nodes, which stand in the budget's place where they are given, the units
//! of a plan or of an audit, which then are absent: carts have no such limit, and the rules, the pickers, the root and
//! the store of a plan, which then are 0: what they ask for isn't done.
#![tactic(auto)]

mod effort;
mod fault;
mod job;
mod options;
mod reading;

pub use fault::WordsFault;
pub use job::{AuditWords, CheckWords, Job, MakeWords, PlanWords};
pub use reading::read_words;
