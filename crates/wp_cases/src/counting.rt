//! A gate that counts.

use std::alloc::Global;
use std::sync::atomic::{AtomicU32, Ordering};
use wp_model::Memory;
use wp_outside::Moment;

/// How often one desk has passed: before a command, before a plan, and after one.
#[derive(Drop)]
struct Passed {
    before_commands: AtomicU32,
    before_plans: AtomicU32,
    after_plans: AtomicU32,
}

impl Passed {
    const fn new() -> Passed {
        Passed {
            before_commands: AtomicU32::new(0),
            before_plans: AtomicU32::new(0),
            after_plans: AtomicU32::new(0),
        }
    }

    fn pass(&self, at: Moment) {
        let count = match at {
            Moment::BeforeCommand => &self.before_commands,
            Moment::BeforePlan => &self.before_plans,
            Moment::AfterPlan => &self.after_plans,
            Moment::BeforePart => return,
        };
        let _before = count.fetch_add(1, Ordering::SeqCst);
    }

    fn told(&self, alloc: Global) -> Result<String, Memory> {
        let before_commands = self.before_commands.load(Ordering::SeqCst);
        let before_plans = self.before_plans.load(Ordering::SeqCst);
        let after_plans = self.after_plans.load(Ordering::SeqCst);
        let line = format!(in alloc; "{before_commands} {before_plans} {after_plans}")?;
        Ok(line)
    }
}

/// Counts how often the desks 1, 2 and 3 pass, and how often any other.
#[derive(Drop)]
pub struct Counting {
    one: Passed,
    two: Passed,
    three: Passed,
    others: Passed,
}

impl Counting {
    /// Nobody has passed yet.
    pub fn new() -> Counting {
        Counting {
            one: Passed::new(),
            two: Passed::new(),
            three: Passed::new(),
            others: Passed::new(),
        }
    }

    fn of(&self, number: u32) -> &Passed {
        match number {
            1 => &self.one,
            2 => &self.two,
            3 => &self.three,
            _ => &self.others,
        }
    }

    /// The one of this number passes.
    pub fn pass(&self, number: u32, at: Moment) {
        self.of(number).pass(at);
    }

    /// A line that tells how often each has passed.
    pub fn told(&self, alloc: Global) -> Result<String, Memory> {
        let mut line = String::from_str(alloc, "passes")?;
        for number in 1..5u32 {
            let passed = self.of(number).told(alloc)?;
            line.push_str(if number == 1 { " " } else { " / " })?;
            line.push_str(passed.as_str())?;
        }
        line.push_str("\n")?;
        Ok(line)
    }
}
