//! What a mesh is without the places of its points: how many there are, the cells, the surface and the neighbours.
//!
//! A `Topo` is changed by edits, in place: an edit costs what its cells cost, and nothing is counted anew. A `Shape` is
//! a `Topo` as it was once, and never changes: steps of a run share it. `Positions` are the places of the points, and
//! never change either.
//!
//! The definitions that the contracts cite stand in `specs/`, and in those of `mesh_base`. A `Topo` and a `Shape` have
//! no places, so their contracts speak of every mesh with so many points and these cells.
#![tactic(auto)]

mod cells;
mod chunks;
mod kept;
mod list;
mod positions;
mod rows;
mod shape;
mod surface;
mod tables;
mod topo;

pub use positions::Positions;
pub use shape::Shape;
pub use topo::Topo;

#[cfg(test)]
mod tests;
