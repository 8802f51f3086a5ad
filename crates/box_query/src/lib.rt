//! Which vertices of a step are inside a box: from the surface, by a walk, or by a full scan.
//!
//! An answer begins with a pass over the surface. Where vertices of it are inside, the answer is what is joined to them
//! by neighbours inside. Else a walk goes from the nearest surface vertex to ever nearer neighbours, and where it ends
//! inside, the answer is what is joined to its end. Only where both fail is every vertex looked at. So an answer mostly
//! costs the surface and what it finds, and not the mesh.
#![tactic(auto)]

mod by_route;
mod counts;
mod full;
mod plain;

pub use by_route::answer_box;
pub use counts::{far_reads, front_reads, inner_reads, whole_reads};
pub use full::scan;
pub use plain::answer_plain;

#[cfg(test)]
mod tests;
