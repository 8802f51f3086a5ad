//! What follows from the definitions. Each function has an empty body: what it ensures holds of every mesh and box.

mod answers;
mod edits;
mod meshes;
mod samples;
mod walks;

pub use answers::{answers_are_computed, answers_are_scans, parts_are_shared};
pub use edits::{edits_keep_meshes, motions_stay_in_range};
pub use meshes::{
    faces_are_counted, neighbours_are_mutual, surfaces_are_vertices, vertices_are_corners,
};
pub use samples::{
    sample_answers, sample_distances, sample_edits, sample_motions, sample_neighbours,
    sample_surfaces,
};
pub use walks::{distances_are_exact, walks_are_whole, walks_come_nearer};
