//! Tokens, lines and numbers of a text that comes in pieces, and numbers printed.
#![tactic(auto)]

mod ahead;
mod bounds;
mod coordinate;
pub mod laws;
mod leading;
mod numbers;
mod printing;
mod scan;
mod short;
mod signs;
mod times;
mod tokens;

pub use ahead::CountFront;
pub use coordinate::whole;
pub use numbers::{CountFault, NumFault, count, signed};
pub use printing::{put_list, put_number, put_text};
pub use tokens::{LineTaken, PointAhead, RowAhead, Skipped, Taken, Tokens};

/// Memory was refused.
pub type NoMemory = std::alloc::AllocError;

#[cfg(test)]
mod tests;
