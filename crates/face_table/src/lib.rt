//! The table of faces of a tetrahedral mesh: how many live cells have each face, and from that the surface.
//!
//! A table is built from a list of cells, and then changed in place by each point and each cell that comes or goes.
//! Nothing is counted anew. The definitions that the contracts cite stand in `specs/`.
#![tactic(auto)]

mod counts;
mod face_counts;
mod groups;
mod known;
mod singles;
mod surface;
mod table;

pub use table::FaceTable;

#[cfg(test)]
mod tests;
