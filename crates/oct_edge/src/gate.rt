//! Places where a test may hold the workers of a run.

use std::marker::Sync;
use std::sync::Wait;

/// What each worker of a run calls at certain places of its work. A call may wait, and no contract says anything of it:
/// by it a test leads a run through one order of events. A program passes `NoGate`.
pub trait Gate: Sync {
    /// The worker `who` is at `place`. What the two numbers mean is said by whoever calls the gate.
    fn at<R: Wait>(&self, rt: &R, who: u32, place: u32);
}

/// A gate that holds nobody. Each call returns at once.
#[derive(Clone, Copy)]
pub struct NoGate;

impl Gate for NoGate {
    fn at<R: Wait>(&self, _rt: &R, _who: u32, _place: u32) {}
}
