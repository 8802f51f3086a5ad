//! How a wait for a step ends.

/// What a wait for a step came to.
#[derive(Clone, Copy)]
pub enum Reached {
    /// The step is published, and `newest` is the newest that the wait met.
    At { newest: u32 },
    /// The plan is closed below the step, and `newest` is its last one.
    Ended { newest: u32 },
}
