//! The text of a step as a mesh: the cells are written chunk by chunk, as the step shares them, and none is copied.
#![tactic(auto)]

mod text;

pub use text::write_step;

#[cfg(test)]
mod tests;
