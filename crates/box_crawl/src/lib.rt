//! Which vertices inside a box are joined to some of them by neighbours inside it.
//!
//! The crawl goes from vertex to neighbour and never leaves the box, so it costs what it finds, whatever the size of
//! the mesh. Marks say which points were found already: they are made once for a mesh, and a crawl makes them clean in
//! one step.
#![tactic(auto)]

mod found;
mod marks;
mod spread;

pub use marks::Marks;
pub use spread::crawl;
