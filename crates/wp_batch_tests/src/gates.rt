//! Gates that hold workers, and that count them.

use std::sync::atomic::{AtomicU32, Ordering};
use wp_outside::{Gate, Moment};
use wp_samples::Meeting;

/// A gate at which the workers 1 and 2 wait for each other before their first part.
#[derive(Drop)]
pub struct WorkersMeet {
    pub meeting: Meeting,
}

impl Gate for WorkersMeet {
    fn pass(&self, number: u32, at: Moment) {
        if let Moment::BeforePart = at {
            self.meeting.come(number);
        }
    }
}

/// How often the workers 1, 2 and 3 have passed before a part, and how often else the gate was passed.
pub type Counts = [u32; 4];

/// A gate that counts.
#[derive(Drop)]
pub struct Counting {
    one: AtomicU32,
    two: AtomicU32,
    three: AtomicU32,
    others: AtomicU32,
}

impl Counting {
    /// Nobody has passed yet.
    pub fn new() -> Counting {
        Counting {
            one: AtomicU32::new(0),
            two: AtomicU32::new(0),
            three: AtomicU32::new(0),
            others: AtomicU32::new(0),
        }
    }

    /// How often the gate was passed.
    pub fn counts(&self) -> Counts {
        [
            self.one.load(Ordering::SeqCst),
            self.two.load(Ordering::SeqCst),
            self.three.load(Ordering::SeqCst),
            self.others.load(Ordering::SeqCst),
        ]
    }
}

impl Gate for Counting {
    fn pass(&self, number: u32, at: Moment) {
        let count = match (number, at) {
            (1, Moment::BeforePart) => &self.one,
            (2, Moment::BeforePart) => &self.two,
            (3, Moment::BeforePart) => &self.three,
            _ => &self.others,
        };
        let _before = count.fetch_add(1, Ordering::SeqCst);
    }
}
