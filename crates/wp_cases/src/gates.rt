//! The gates of cases.

use crate::counting::Counting;
use crate::lines::has_line;
use std::alloc::Global;
use wp_model::Memory;
use wp_outside::{Gate, Moment};
use wp_samples::{MOST_LOOKS, Meeting};

/// The gate that a case's desks and workers pass.
#[derive(Drop)]
pub enum CaseGate {
    /// It holds nobody.
    Open,
    /// The desks 1 and 2 wait for each other before they plan.
    Desks(Meeting),
    /// The workers 1 and 2 wait for each other before they price.
    Workers(Meeting),
    /// It counts.
    Counting(Counting),
}

impl CaseGate {
    /// The gate that the lines of a case ask for.
    pub fn of(lines: &str) -> CaseGate {
        if has_line(lines, "desks meet") {
            CaseGate::Desks(Meeting::new(MOST_LOOKS))
        } else if has_line(lines, "workers meet") {
            CaseGate::Workers(Meeting::new(MOST_LOOKS))
        } else if has_line(lines, "passes are counted") {
            CaseGate::Counting(Counting::new())
        } else {
            CaseGate::Open
        }
    }

    /// What it tells, in a line, where it isn't open.
    pub fn told(&self, alloc: Global) -> Result<String, Memory> {
        match self {
            CaseGate::Open => Ok(String::new(alloc)),
            CaseGate::Desks(meeting) | CaseGate::Workers(meeting) => {
                Ok(String::from_str(alloc, told_of(meeting))?)
            }
            CaseGate::Counting(counting) => counting.told(alloc),
        }
    }
}

/// A line that tells whether the two have met.
fn told_of(meeting: &Meeting) -> &'static str {
    if meeting.have_met() {
        "met\n"
    } else {
        "not met\n"
    }
}

impl Gate for CaseGate {
    fn pass(&self, number: u32, at: Moment) {
        match (self, at) {
            (CaseGate::Desks(meeting), Moment::BeforePlan) => meeting.come(number),
            (CaseGate::Workers(meeting), Moment::BeforePart) => meeting.come(number),
            (CaseGate::Counting(counting), _) => counting.pass(number, at),
            _ => {}
        }
    }
}
