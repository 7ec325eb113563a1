ghost use Rattle.std.specs.Prelude.{◌≡◌};
ghost use Rattle.wp_top.specs.Stops.{status_number, status_when};

use wp_outside::SinkFault;

/// How a run ended.
#[derive(Clone, Copy, PartialEq, Eq)]
pub enum Status {
    Done = 0,
    BadWords = 1,
    Refused = 2,
    ReadFault = 3,
    WriteFault = 4,
    OutOfMemory = 5,
    Wrong = 6,
    StoreFault = 7,
}

impl Status {
    /// The number with which the program ends.
    pub fn number(self) -> u8
        ensures { result ≡ status_number self }
    {
        self as u8
    }
}

/// How a run ended whose output was written with this result.
pub fn status_of(written: Result<(), SinkFault>) -> Status
    ensures { result ≡ status_when written }
{
    match written {
        Ok(()) => Status::Done,
        Err(SinkFault::Failed) => Status::WriteFault,
        Err(SinkFault::Memory) => Status::OutOfMemory,
    }
}
