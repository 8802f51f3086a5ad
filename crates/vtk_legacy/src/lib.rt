//! The mesh text of the VTK legacy format.
#![tactic(auto)]

mod blocks;
mod cells;
mod coordinate;
mod fault;
mod gathered;
mod laws;
mod lines;
mod offsets;
mod parts;
mod plain;
mod points;
mod reader;
mod stage;
mod steps;
mod table;
mod types;
mod values;
mod version;
mod words;
mod writer;
mod writer_laws;

pub use fault::{MeshFault, MeshKind};
pub use laws::{metadata_ends_at_a_blank_line, texts_have_one_outcome, texts_have_valid_meshes};
pub use parts::{count_live, write_cells, write_count, write_points, write_types};
pub use reader::{MeshReader, read_mesh};
pub use writer::write_mesh;
pub use writer_laws::{parts_are_the_text, written_is_read, written_meshes_are_whole};

#[cfg(test)]
mod mixed_tests;
#[cfg(test)]
mod tests;
#[cfg(test)]
mod texts;
#[cfg(test)]
mod writer_tests;
