//! The seats of a table: that of the publisher, and those of the sessions.
ghost use Rattle.std.specs.Prelude.{◌≡◌};

use std::marker::Model;
use step_registry::Registry;
use turn_table::TurnSeat;

/// The seat that publishes the steps and closes the plan. It may go to another thread.
///
/// Contracts see which table it is of, its job, the history that it has seen, and the words of the table that it knows.
#[derive(Drop)]
pub struct PublisherSeat {
    pub(crate) seat: TurnSeat<Registry>,
    pub(crate) published: u32,
    // Where all seats of the lock come together at the end. It has its room from the start, so that `finish` takes
    // none.
    pub(crate) room: Vec<TurnSeat<Registry>>,
}

impl Model for PublisherSeat {
    ghost use Rattle.std.specs.Prelude.{vec_capacity};
    ghost use Rattle.turn_table.specs.Seats.{standing};
    ghost use Rattle.step_table.specs.Seats.{PublisherView};
    ghost use Rattle.step_table.specs.Seating.{publisher_view, IsPublisher};

    ghost Value = { PublisherView };

    ghost view = { λ p. publisher_view (standing p.seat) };

    ghost invariant = { λ p. IsPublisher (standing p.seat) p.published p.room.items (vec_capacity p.room) };
}

impl PublisherSeat {
    ghost use Rattle.step_table.specs.Seats.{published_of};

    /// The number of the newest step that it published, and 0 before any. No cost.
    pub fn published(&self) -> u32
        ensures { result ≡ published_of self.now }
    {
        self.published
    }
}

/// The seat of a session. It may go to another thread.
///
/// Contracts see which table and which session it is of, its job, the history that it has seen, the words of the table
/// that it knows, and a step that these show to be published.
#[derive(Drop)]
pub struct SessionSeat {
    pub(crate) seat: TurnSeat<Registry>,
    pub(crate) session: u32,
    pub(crate) known: u32,
    pub(crate) done: u32,
}

impl Model for SessionSeat {
    ghost use Rattle.turn_table.specs.Seats.{standing};
    ghost use Rattle.step_table.specs.Seats.{SessionView};
    ghost use Rattle.step_table.specs.Seating.{session_view, IsSession};

    ghost Value = { SessionView };

    ghost view = { λ p. session_view (standing p.seat) p.session p.known };

    ghost invariant = { λ p. IsSession (standing p.seat) p.session p.known p.done };
}

impl SessionSeat {
    ghost use Rattle.step_table.specs.Seats.{state_of};

    /// The number of its session, from 0. No cost.
    pub fn session(&self) -> u32
        ensures { result ≡ self.now.session }
    {
        self.session
    }

    /// The number of a step that it knows to be published: the newest that it pinned or met while it waited. No cost.
    pub fn known(&self) -> u32
        ensures { result ≡ self.now.known }
    {
        self.known
    }

    /// How many turns of its session are done: pinned, answered and given back. No cost.
    pub fn done(&self) -> u32
        ensures { result ≡ (state_of self.now).done }
    {
        self.done
    }
}

/// The seats of all sessions, by the numbers of the sessions. Contracts see it as a list.
#[derive(Drop)]
pub struct SessionSeats {
    pub(crate) items: Vec<SessionSeat>,
}

impl Model for SessionSeats {
    ghost use Rattle.std.specs.Prelude.{List};
    ghost use Rattle.step_table.specs.Seats.{SessionView};

    ghost Value = { List SessionView };

    ghost view = { λ l. l.items.items };
}

impl SessionSeats {
    /// The list of these seats. No cost.
    pub fn of(items: Vec<SessionSeat>) -> SessionSeats
        ensures { result ≡ items.items }
    {
        SessionSeats { items }
    }

    /// The seats, for reading. No cost.
    pub fn items(&self) -> &[SessionSeat]
        ensures { result.now ≡ self.now }
    {
        self.items.as_slice()
    }

    /// The seats as a vector. No cost.
    pub fn into_items(self) -> Vec<SessionSeat>
        ensures { result.items ≡ self }
    {
        self.items
    }
}
