//! Plays the run of a job by threads: a publisher makes the steps, and each session asks its boxes about the newest
//! step that it meets.
//!
//! The workers share one `StepTable`, each by a seat of its own, and meet nowhere else. What each worker owes is said
//! of its own seat alone, so no contract has a premise on the order in which threads run: for each interleaving the
//! registry that comes back has one legal history, and it is the whole one unless memory was refused.
#![tactic(auto)]

mod publisher;
mod run;
mod seats;
mod session;
mod turn;

pub use run::{Played, play_job, run_job};

#[cfg(test)]
mod tests;
