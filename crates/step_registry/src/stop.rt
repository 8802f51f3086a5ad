//! Why a run over a list of events ended.

/// Why a run over a list of events ended. Places are counted from 0.
#[derive(Clone, Copy, Debug, PartialEq, Eq)]
pub enum CoreStop {
    /// All events happened.
    All,
    /// The event at this place may not happen after the ones before it.
    NotEnabled { place: u64 },
    /// Memory was refused before or at the event at this place.
    NoMemory { place: u64 },
}
