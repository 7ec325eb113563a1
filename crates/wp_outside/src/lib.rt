//! What a program meets outside itself: files that are read whole, a sink that takes text, a gate at
//! which tests hold desks, and the answer where memory runs out.
//!
//! Files and a sink are traits with a written meaning: the bytes that each name holds, the bytes
//! that a sink has taken, and counts of reads and of faults that never fall. Code that is generic over
//! them is proved once. `MemFiles`, `MemSink` and `NeverFails` stand in memory and tell all of this.
//! `RealFiles` and `StdSink` stand over what opens files and over a writer, which count their faults.
//! `SystemFiles` and `SystemWriter` are those of the system, which tell their counts alone.
//!
//! A long text is written to a sink section by section, through one buffer, so that the whole of it never
//! stands in memory. A section is a first line, parts that are printed one after the other, and a last
//! line. Each part is printed behind what waits in the buffer, and once 64 KiB wait all of it is written.
#![tactic(auto)]

mod calls;
mod count;
mod errors;
mod files;
mod flushing;
mod gate;
mod mem_files;
mod mem_sink;
mod never_fails;
mod opener;
mod parts;
mod real_files;
mod section;
mod shelf;
mod sink;
mod std_sink;
mod waiting;
mod writer;
mod writing;

pub use files::{FileFault, Files};
pub use gate::{Gate, Moment, OpenGate};
pub use mem_files::MemFiles;
pub use mem_sink::MemSink;
pub use never_fails::NeverFails;
pub use opener::{Opens, SystemFiles};
pub use parts::{Parts, Section};
pub use real_files::RealFiles;
pub use section::write_section;
pub use sink::{Sink, SinkFault};
pub use std_sink::StdSink;
pub use waiting::{PIECE_BYTES, room, write_rest};
pub use wp_model::{MOST_FILE_BYTES, Memory};
pub use writer::{SystemWriter, Tells, Writes};
pub use writing::write_text;
