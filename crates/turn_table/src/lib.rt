//! A lock of tickets. Threads take turns in the order in which they drew their tickets, and the locked value has a
//! history, which grows by one entry in each turn. What a seat has seen of the history is known to the proofs, and a
//! taken value's history begins with it.
#![tactic(auto)]

mod kept;
mod lends;
mod plays;
mod seats;
#[cfg(test)]
mod tests;
mod turns;
mod view;

pub use kept::Kept;
pub use seats::{KeptSeat, KeptSeats, SeatList, Turn, TurnSeat};
pub use turns::{NoMemory, Turns};
