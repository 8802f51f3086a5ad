//! The seats of a list, for writing. The clause names the row of the list, which the file that declares the list cannot
//! import.
ghost use Rattle.std.specs.Prelude.{◌≡◌, ◌++◌, take, drop, length};
ghost use Rattle.std.specs.Borrow.{Lends, Array, sem};
ghost use Rattle.step_table.specs.contracts.seats.SessionSeats.{the_row};
ghost use Rattle.step_table.specs.contracts.seats.SessionSeat.{the_row as seat_row};

use crate::seats::{SessionSeat, SessionSeats};

impl SessionSeats {
    /// The seats, to be split among threads. What is written through the slice is in the list afterwards. No cost.
    pub fn items_mut(&mut self) -> &mut [SessionSeat]
        ensures* writes_back { sem 𝓛 (Lends the_row (Array seat_row 0) self.entry result
            (λ w. take (length self.entry.now) (w ++ drop (length w) self.entry.now))) }
        ensures value { result.now ≡ self.old }
    {
        self.items.as_mut_slice()
    }
}
