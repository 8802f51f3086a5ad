//! The motions of a mesh: each gives every point its new place from the places before it, alone or in many threads.
//!
//! The rule of each motion stands in `mesh_base`, as the definition `moved` of its `specs/`. Coordinates are whole
//! numbers, and all that is computed between them is exact.
#![tactic(auto)]

mod kernels;
mod motion;
mod moves;
mod point;

pub use moves::{moved, moved_par};

#[cfg(test)]
mod tests;
