/// When a desk, or a worker that prices, passes the gate.
#[derive(Clone, Copy, PartialEq, Eq)]
pub enum Moment {
    /// A desk: before each of its commands.
    BeforeCommand,
    /// A desk: before the plan of a wave that it released.
    BeforePlan,
    /// A desk: after that plan.
    AfterPlan,
    /// A worker: before it prices the subtree of a first item.
    BeforePart,
}

/// What all desks and workers pass on their way. It only lets tests hold one of them until another has come.
pub trait Gate: Send + Sync {
    /// Passed by the desk, or by the worker, of this number, each counted from 1.
    fn pass(&self, number: u32, at: Moment);
}

/// The gate that holds nobody.
#[derive(Clone, Copy)]
pub struct OpenGate;

impl Gate for OpenGate {
    fn pass(&self, _number: u32, _at: Moment) {}
}
