// The seats of a list, for writing. The clause names the row of the list, which the file that declares the list cannot
// import.
ghost use Rattle.std.specs.Prelude.{◌≡◌, ◌++◌, take, drop, length};
ghost use Rattle.std.specs.Borrow.{Lends, Array, sem};
ghost use Rattle.turn_table.specs.contracts.seats.KeptSeats.{the_row};
ghost use Rattle.turn_table.specs.contracts.seats.KeptSeat.{the_row as seat_row};

use crate::seats::{KeptSeat, KeptSeats};

impl<T, H, E> KeptSeats<T, H, E> {
    /// The seats, to be split among threads. No cost.
    // What is written through the slice is in the list afterwards.
    pub fn items_mut(&mut self) -> &mut [KeptSeat<T, H, E>]
        ensures* writes_back { sem 𝓛 (Lends (the_row T.row H.row E.row)
            (Array (seat_row T.row H.row E.row) 0) self.entry result
            (λ w. take (length self.entry.now) (w ++ drop (length w) self.entry.now))) }
        ensures value { result.now ≡ self.old }
    {
        self.items.as_mut_slice()
    }
}
