//! A place where two wait for each other.

use std::sync::atomic::{AtomicBool, Ordering};
use std::thread::yield_now;

/// How often one that waits looks for the other, where both are to come.
pub const MOST_LOOKS: u32 = 20_000_000;

/// Where number 1 waits for number 2, and 2 for 1, until both have come, or for so many looks. Nobody else is held.
#[derive(Drop)]
pub struct Meeting {
    most_looks: u32,
    one_has_come: AtomicBool,
    two_has_come: AtomicBool,
    have_met: AtomicBool,
}

impl Meeting {
    /// Nobody has come yet.
    pub fn new(most_looks: u32) -> Meeting {
        Meeting {
            most_looks,
            one_has_come: AtomicBool::new(false),
            two_has_come: AtomicBool::new(false),
            have_met: AtomicBool::new(false),
        }
    }

    /// The one of this number comes, and waits until the other has come, or has looked for it so often.
    pub fn come(&self, number: u32) {
        match number {
            1 => self.meet(&self.one_has_come, &self.two_has_come),
            2 => self.meet(&self.two_has_come, &self.one_has_come),
            _ => {}
        }
    }

    /// Whether one of them began to wait before the other had ever come, and saw it come.
    pub fn have_met(&self) -> bool {
        self.have_met.load(Ordering::SeqCst)
    }

    fn meet(&self, own: &AtomicBool, other: &AtomicBool) {
        let waits = !other.load(Ordering::SeqCst);
        own.store(true, Ordering::SeqCst);
        if waits && comes(other, self.most_looks) {
            self.have_met.store(true, Ordering::SeqCst);
        }
    }
}

// Whether one comes while another looks for it so often.
fn comes(other: &AtomicBool, most_looks: u32) -> bool {
    for _ in 0..most_looks {
        if other.load(Ordering::SeqCst) {
            return true;
        }
        yield_now();
    }
    false
}
