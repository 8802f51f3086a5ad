//! The text of run scripts, read and printed.
#![tactic(auto)]

mod commands;
mod cuts;
mod laws;
mod printing;
mod reader;
mod reading;
mod row;
mod rows;
mod values;

pub use laws::{
    printed_lines_are_read, printed_scripts_are_read, printed_texts_tell_scripts_apart,
    texts_have_one_outcome, texts_have_valid_scripts,
};
pub use printing::print_script;
pub use reader::read_script;

#[cfg(test)]
mod tests;
