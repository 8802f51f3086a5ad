//! The registry of steps: which are published, which session has which step out, which are held, and what happened so
//! far.
//!
//! One list of events, the journal, tells all of it: each event may come only where the ones before it allow it, and
//! what the registry holds, hands out and knows of a session are functions of the journal. `core_run` plays a list of
//! events on one thread.
#![tactic(auto)]

mod answers;
mod drive;
mod event;
mod kept;
mod laws;
mod pins;
mod plain;
mod registry;
mod rows;
mod session;
mod slots;
mod stop;
mod work;

pub use drive::{CoreEnd, core_run};
pub use event::{Event, SessionState};
pub use laws::{a_step_is_handed_out_by_the_last_to_hold_it, core_laws};
pub use pins::{Pins, StepPin};
pub use plain::PlainWork;
pub use registry::Registry;
pub use stop::CoreStop;
pub use work::Work;

#[cfg(test)]
mod tests;
