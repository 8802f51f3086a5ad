//! The job that a demo plays: a block of cubes, shaken eight times, and four sessions that ask about the last step.
#![tactic(auto)]

mod make;

pub use make::make_demo;

#[cfg(test)]
mod tests;
