use std::fmt;
use wp_model::Memory;
use wp_outside::{FileFault, SinkFault};

/// Why the cases were not all run.
#[derive(Clone, Copy)]
pub enum CaseFault {
    /// A line is none that a case may have, or a number in it is none.
    Line,
    /// A file that a case names could not be read.
    File,
    /// The output could not be written.
    Output,
    /// There was no memory.
    Memory,
}

impl fmt::Display for CaseFault {
    fn fmt<W: fmt::Write>(&self, f: &mut fmt::Formatter<W>) -> fmt::Result {
        f.write_str(match self {
            CaseFault::Line => "a line that no case may have",
            CaseFault::File => "a file that could not be read",
            CaseFault::Output => "output that could not be written",
            CaseFault::Memory => "memory that ran out",
        })
    }
}

impl From<Memory> for CaseFault {
    fn from(_want: Memory) -> CaseFault {
        CaseFault::Memory
    }
}

impl From<FileFault> for CaseFault {
    fn from(fault: FileFault) -> CaseFault {
        match fault {
            FileFault::Memory => CaseFault::Memory,
            _ => CaseFault::File,
        }
    }
}

impl From<SinkFault> for CaseFault {
    fn from(fault: SinkFault) -> CaseFault {
        match fault {
            SinkFault::Memory => CaseFault::Memory,
            SinkFault::Failed => CaseFault::Output,
        }
    }
}
