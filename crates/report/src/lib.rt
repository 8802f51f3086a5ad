//! The report of a run: its text, and what the text tells of the run's history.
//!
//! `whole_report` makes the text of a registry whose journal is whole, and `report` appends it. What the text is stands
//! in `specs/Report.antt`; the history that a text prints in `specs/Printed.antt`; what is true of it in
//! `specs/Headline.antt`. The functions of `laws` have the proofs that this follows from the definitions.
//!
//! The lines that other texts of a run share are public too.
#![tactic(auto)]

mod answers;
mod journal;
pub mod laws;
mod lines;
mod text;

pub use answers::{count_boxes, name_of_route, put_session_line};
pub use journal::{put_event, put_journal};
pub use lines::{put_labelled, put_labelled_line, put_list_line, put_sizes};
pub use text::{report, whole_report};

/// Memory was refused.
pub type NoMemory = std::alloc::AllocError;

#[cfg(test)]
mod tests;
