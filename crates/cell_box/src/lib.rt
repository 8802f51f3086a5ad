//! The cells of a step by their vertices: those all of whose corners are in a list, or at least one.
//!
//! An `Incidence` says which cells each point has. It is made once for a mesh; then the cells of a list of vertices
//! cost what their rows do, whatever the size of the mesh.
#![tactic(auto)]

mod how;
mod incidence;
mod numbers;
mod often;
mod rows;
mod select;

pub use how::How;
pub use incidence::Incidence;
pub use numbers::CellNumbers;
pub use select::{cells_in, cells_of};

#[cfg(test)]
mod tests;
