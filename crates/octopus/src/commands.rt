//! The commands, each in a file of its own.

pub mod box_answer;
pub mod cells;
pub mod demo;
pub mod gen_block;
pub mod rings;
pub mod run;
pub mod scan;
pub mod step;
pub mod surface;
pub mod upgrade;
pub mod watch;
