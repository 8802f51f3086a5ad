//! Tetrahedral meshes with whole coordinates: points, cells, boxes, edits and motions, and what an answer of a box is.
//!
//! A call takes constant time and no memory, unless its description says more.
//!
//! The definitions that contracts of this crate and of those above it cite stand in `specs/`. What follows from them is
//! proved as the contracts of the functions of `laws`.
#![tactic(auto)]

mod answer;
mod boxes;
mod cell;
mod cells;
mod edit;
pub mod laws;
mod lists;
mod mesh;
mod point;
mod scan;
mod sorted;

pub use answer::{Answer, AnswerList, Route};
pub use boxes::BoxQ;
pub use cell::{Cell, Face};
pub use cells::{are_all_different, live_cell};
pub use edit::{Axis, Edit, Kernel};
pub use lists::{CellList, PointList, VertexList};
pub use mesh::{MOST_CELLS, MOST_POINTS, Mesh};
pub use point::{MOST_COORDINATE, Point};
pub use scan::scan_mesh;
pub use sorted::place_of;

/// The error of a call whose only failure is that memory was refused.
pub type NoMemory = std::alloc::AllocError;

#[cfg(test)]
mod tests;
