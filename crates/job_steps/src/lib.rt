//! Makes the steps of a job one after the other, each by the edits and the motion of its plan.
//!
//! A `Maker` keeps one topology, which it edits in place, and the places of the last step. What a plan leaves as it
//! was, the new step shares with the one before it. The mesh of each step is `step_at` of the definitions in
//! `run_script`.
#![tactic(auto)]

mod edits;
mod ground;
mod maker;
mod written;

pub use maker::{Maker, first_step};
pub use written::{mesh_of, places_of};

#[cfg(test)]
mod tests;
