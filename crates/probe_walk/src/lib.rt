//! The surface vertices inside a box, and the walk from the surface towards it.
//!
//! Vertices are compared by their distance from the box, and by their numbers where that is the same. Distances are
//! squared, so they are whole numbers.
#![tactic(auto)]

mod near;
mod surface_probe;
mod towards;

pub use surface_probe::{Probed, probe};
pub use towards::{WalkEnd, walk};
