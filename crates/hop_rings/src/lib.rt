//! Rings of vertices round others: those one edge away from them, two edges, and so on, and a shortest path to each.
#![tactic(auto)]

mod make;
mod ring;
mod spread;
mod trail;

pub use make::{rings, rings_round};
pub use ring::{Ring, RingList};
pub use trail::path_to;

#[cfg(test)]
mod tests;
