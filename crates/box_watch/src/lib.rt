//! What entered and what left each box of a session since the same box was last asked, and the answers again from that
//! alone.
//!
//! `watches` makes one watch for each box of a run, `replay` gives a box's vertices again from the watches, and
//! `watch_text` and `whole_watch` print them. The definitions stand in `specs/`; the functions of `laws` have what
//! follows from them.
#![tactic(auto)]

mod again;
mod corners;
mod difference;
pub mod laws;
mod listing;
mod own;
mod session;
mod text;
mod watch;

pub use again::replay;
pub use listing::watches;
pub use text::{watch_text, whole_watch};
pub use watch::{Watch, WatchList};

/// Memory was refused.
pub type NoMemory = std::alloc::AllocError;

#[cfg(test)]
mod tests;
