//! What happens to a registry, and what that does to a session.

/// What happens to a registry, one after another.
#[derive(Clone, Copy, Debug, PartialEq, Eq)]
pub enum Event {
    /// The step after the newest one is published.
    Publish {
        step: u32,
    },
    /// A session gets the newest step out.
    Pin {
        session: u32,
        step: u32,
    },
    /// A session gives its step back: with the answers of its next turn, or without, and then it stops.
    Unpin {
        session: u32,
        step: u32,
        answered: bool,
    },
    /// No more steps come.
    Close,
}

/// Where a session stands.
#[derive(Clone, Copy)]
pub struct SessionState {
    /// The step that it has out.
    pub out: Option<u32>,
    /// How many of its turns are done.
    pub done: u32,
    /// It gave a step back without answers, and asks no more.
    pub is_stopped: bool,
}
