//! The steps of a run: each is the mesh that a job has after so many of its plans, and never changes.
//!
//! A step shares its job, its shape and its places with other steps, so a share of a step costs four words. `Shares`
//! are all shares of one step, made at once. Places are read by `Step::at` alone, and each read is counted in a
//! `Steps`, which takes no bytes: it exists in the proofs.
#![tactic(auto)]

mod reads;
mod shares;
mod step;

pub use reads::Steps;
pub use shares::Shares;
pub use step::Step;
