//! What the program reads and writes, as two traits, with the real outside and stand-ins in memory.
//!
//! Everything above speaks of a `Folder` and a `Sink` alone. `DiskFolder` and `StdSink` are the trusted
//! edge: they meet the traits and tell nothing of content. `MemFolder` and `MemSink` tell all of it, and
//! fail at the calls that they were told to fail at; `EndlessFolder` has files without an end.
//! A `Gate` is where a test may hold the workers of a run; `NoGate` holds nobody.
#![tactic(auto)]

mod disk;
mod edge;
mod gate;
mod lists;
mod memory;
#[cfg(test)]
mod tests;

pub use disk::{DiskFolder, StdSink};
pub use edge::{Failed, Folder, Sink};
pub use gate::{Gate, NoGate};
pub use lists::{ByteList, CallList, FileList, NamedFile};
pub use memory::{EndlessFolder, MemFolder, MemSink, NoMemory};
