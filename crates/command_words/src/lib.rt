//! The words of a command line: the commands that they spell, and no other.
//!
//! A command carries the names of its files. They are a type parameter, so that a contract compares the command that
//! was read with the one that the words spell.
#![tactic(auto)]

mod hops;
mod words;

pub use hops::{Hops, MOST_HOPS};
pub use words::{Command, Played, read_command, read_played};

#[cfg(test)]
mod tests;
