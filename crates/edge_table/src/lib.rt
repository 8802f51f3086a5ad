//! The neighbours of each vertex of a tetrahedral mesh, kept up to date cell by cell.
//!
//! Two vertices are neighbours where they differ and a live cell has both. The table keeps, for each point, its
//! neighbours in ascending order, and beside each how many live cells have both. So a cell comes and goes at the cost
//! of its own four corners, and the rest of the mesh is never looked at. The table keeps no cells: its contracts speak
//! of each list of cells of which it is the table.
#![tactic(auto)]

mod edges;
mod groups;
mod row;
mod table;
mod times;

pub use edges::EdgeTable;

#[cfg(test)]
mod tests;
