//! Meshes to try things on: blocks of cubes, one cell, and meshes that are listed by hand.
//!
//! The definitions that the contracts cite stand in `specs/`.
#![tactic(auto)]

mod block;
mod listed;

pub use block::{MOST_SIDE, Side, block_mesh};
pub use listed::{SPLIT_CELLS, SPLIT_PLACES, area_of, mesh_of, one_cell};

#[cfg(test)]
mod tests;
