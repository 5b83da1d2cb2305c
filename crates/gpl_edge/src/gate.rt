//! What may stand between the steps of a run.
use std::sync::Wait;
use std::thread::Threads;

/// A step of a run, at which a gate is asked.
#[derive(Clone, Copy, Debug, PartialEq, Eq)]
pub enum Spot {
    /// Draw number `draw` comes next.
    BeforeDraw { draw: u32 },
    /// Row number `row` of the table was created.
    Created { row: u32 },
    /// Job number `number` was taken from its queue.
    Taken { number: u32 },
    /// The optimised build of unit number `unit` was published.
    Published { unit: u32 },
}

/// What is asked at the steps of a run. It may hold a thread up there, and changes nothing else.
pub trait Gate: Sync {
    /// Asked at this step of a run. It may wait.
    fn at<R: Threads + Wait + Sync>(&self, rt: &R, spot: Spot);
}

/// A gate that holds nothing up.
#[derive(Clone, Copy, Debug)]
pub struct NoGate;

impl Gate for NoGate {
    fn at<R: Threads + Wait + Sync>(&self, _rt: &R, _spot: Spot) {}
}
