//! The corners of the live cells of a mesh, range of points by range of points.
//!
//! A table that counts something of each point looks at the corners of the cells in an order that keeps to one part of
//! memory: the points in ranges, one after the other, and the corners of each point side by side. The definitions that
//! the contracts cite stand in `specs/`.
#![tactic(auto)]

mod corner;
pub mod laws;
mod ranges;
mod slots;
mod visits;

pub use corner::{Corner, point_at};
pub use ranges::CornerRanges;

/// How many points a range has. The corners of so many points, some 24 each, take about 16 MB.
pub const RANGE: u32 = 32_768;

#[cfg(test)]
mod tests;
