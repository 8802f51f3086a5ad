//! The registry of a run's steps, shared by threads.
//!
//! A `StepTable` keeps a registry under a lock of turns. A publisher and the sessions each have a seat of their own,
//! and share the table by reference. Each call of a seat is one event of one history, which every seat sees in the same
//! order; contracts say of each seat which part of it the seat has seen. At the end `finish` takes the seats, and gives
//! the registry back with the whole history as its journal.
#![tactic(auto)]

mod laws;
mod lends;
mod reached;
mod seats;
mod table;
#[cfg(test)]
mod tests;

pub use laws::table_laws;
pub use reached::Reached;
pub use seats::{PublisherSeat, SessionSeat, SessionSeats};
pub use table::StepTable;
