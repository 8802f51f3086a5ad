// The seats of a lock, and the token of a turn.
ghost use Rattle.std.specs.Prelude.{◌≡◌, true, false, [], is_some, length, map};
ghost use Rattle.turn_table.specs.Views.{is_waiting, slots_of, first_of_pair};
ghost use Rattle.turn_table.specs.declared.view.Stage.TheVariants.{Idle};

use crate::kept::Kept;
use crate::view::{View, ViewOf};
use atomic_table::Seat;
use std::marker::Model;

/// A `TurnSeat` by the types of its value, theme and entries, without a bound on them.
#[derive(Drop)]
pub struct KeptSeat<T, H, E> {
    pub(crate) seat: Seat<Option<T>, View<H, E>>,
    pub(crate) number: u32,
    ghost numbered: { seat.me.0.number ≡ number },
    ghost live: { is_some seat.me.0.theme ≡ true },
    ghost alone: { length seat.me.0.others ≡ 0 },
    ghost holding: { map first_of_pair seat.me.1 ≡ slots_of seat.me.0.stage },
    ghost settled: { is_waiting seat.me.0.stage ≡ false },
}

/// A place at a lock. Who has it may draw tickets there, and go to another thread with it.
pub type TurnSeat<T> = KeptSeat<T, <T as Kept>::Theme, <T as Kept>::Entry>;

/// A `SeatList` by the types of its value, theme and entries.
#[derive(Drop)]
pub struct KeptSeats<T, H, E> {
    pub(crate) items: Vec<KeptSeat<T, H, E>>,
}

/// The seats of a lock, by their numbers. Contracts see it as a list.
pub type SeatList<T> = KeptSeats<T, <T as Kept>::Theme, <T as Kept>::Entry>;

/// A turn that is out. It has no `Drop`, so it ends in `Turns::give`.
pub struct Turn {
    pub(crate) ticket: u64,
}

pub(crate) type LockSeat<T> = Seat<Option<T>, ViewOf<T>>;

pub(crate) fn seated<T: Kept>(seat: LockSeat<T>, number: u32) -> TurnSeat<T>
    requires number { seat.me.0.number ≡ number }
    requires rests { (is_some seat.me.0.theme ≡ true) × (seat.me.0.others ≡ []) × (seat.me.0.stage ≡ Idle)
        × (seat.me.1 ≡ []) }
    ensures { result.seat ≡ seat }
{
    KeptSeat { seat, number }
}

impl<T, H, E> Model for KeptSeats<T, H, E> {
    ghost use Rattle.std.specs.Prelude.{List};
    ghost use Rattle.turn_table.specs.declared.seats.KeptSeat.{KeptSeat};

    ghost Value = { List (KeptSeat T H E) };

    ghost view = { λ l. l.items.items };
}

impl<T, H, E> KeptSeat<T, H, E> {
    ghost use Rattle.turn_table.specs.Seats.{standing};

    /// The seat's number, from 0. No cost.
    pub fn number(&self) -> u32
        ensures { result ≡ (standing self.now).number }
    {
        self.number
    }
}

impl<T, H, E> KeptSeats<T, H, E> {
    /// The list of these seats. No cost.
    pub fn of(items: Vec<KeptSeat<T, H, E>>) -> KeptSeats<T, H, E>
        ensures { result ≡ items.items }
    {
        KeptSeats { items }
    }

    /// The seats, for reading. No cost.
    pub fn items(&self) -> &[KeptSeat<T, H, E>]
        ensures { result.now ≡ self.now }
    {
        self.items.as_slice()
    }

    /// The seats, one by one. No cost.
    pub fn into_items(self) -> Vec<KeptSeat<T, H, E>>
        ensures { result.items ≡ self }
    {
        self.items
    }
}
