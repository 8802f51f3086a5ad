// The rule of the table, and the names of its steps.
ghost use Rattle.turn_table.specs.Views.{fresh, dealt, newcomer, joined, spent};
ghost use Rattle.turn_table.specs.Rule.{InTurn};
ghost use Rattle.turn_table.specs.Plays.{drawn, looked, gave, showed, peeked};
ghost use Rattle.std.specs.Prelude.{Some};

use crate::kept::Kept;
use crate::view::{View, ViewOf};
use atomic_table::{Join, Play, Split, TableRule};
use std::snapshot::Snapshot;

/// What the table is told once: the value that it opens with, and how many seats there are to be.
#[derive(Drop)]
pub struct Opening<T> {
    pub value: Snapshot<T>,
    pub seats: u32,
}

/// The rule of the lock.
pub struct InOrder;

impl<T: Kept> TableRule<Option<T>, ViewOf<T>, Opening<T>> for InOrder {
    ghost holds = { λ key. InTurn T.Kept key.seats };

    ghost first = { λ key. fresh (Some (T.theme key.value.value)) 0 1 };
}

/// A seat draws a ticket.
pub struct Draw;

impl<T, H, E> Play<Option<T>, View<H, E>> for Draw {
    ghost then = { drawn };
}

/// A seat looks whether its ticket is served.
pub struct Look;

impl<T: Kept> Play<Option<T>, ViewOf<T>> for Look {
    ghost then = { looked T.Kept };
}

/// A turn ends.
pub struct Pass;

impl<T: Kept> Play<Option<T>, ViewOf<T>> for Pass {
    ghost then = { gave T.Kept };
}

/// A seat stores a word that is true of what it has seen.
pub struct Show;

impl<T, H, E> Play<Option<T>, View<H, E>> for Show {
    ghost then = { showed };
}

/// A seat loads the shown word.
pub struct Peek;

impl<T, H, E> Play<Option<T>, View<H, E>> for Peek {
    ghost then = { peeked };
}

/// The first seat gives out a number, with a new seat.
pub struct Deal;

impl<H, E> Split<View<H, E>> for Deal {
    ghost left = { dealt };

    ghost right = { newcomer };
}

/// The first seat takes in another one.
pub struct Gather;

impl<H, E> Join<View<H, E>> for Gather {
    ghost both = { joined };

    ghost spent = { spent };
}
