use wp_machine::{Machine, Refill, WaveHolds};

/// A wave that went out, as it held units just after its release, and its plan.
#[derive(Drop)]
pub struct Planned<T> {
    pub wave: WaveHolds,
    pub plan: T,
}

/// What a day of desks gives: the machine with all that was answered, the waves that went out, each with its plan, and
/// the refills; both in the order of their entries.
#[derive(Drop)]
pub struct DayRun<'a, T> {
    pub machine: Machine<'a>,
    pub plans: Vec<Planned<T>>,
    pub refills: Vec<Refill>,
}
