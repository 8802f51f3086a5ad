//! The lines of a script.

use mesh_base::Kernel;
use run_script::{Item, LinedEdit};

/// The first words that a line may have.
#[derive(Clone, Copy, PartialEq, Eq)]
pub enum Command {
    Point,
    Add,
    Remove,
    Split,
    Stay,
    Shift,
    Pull,
    Shake,
    Relax,
    Turn,
    Session,
    Wait,
    Box,
    Hold,
    Free,
    End,
}

/// What a line says.
#[derive(Clone, Copy)]
pub enum Row {
    /// An edit for the next step.
    Edit { edit: LinedEdit },
    /// The motion that ends a step.
    Move { kernel: Kernel },
    /// The begin of a session.
    Session,
    /// What the last session does next.
    Does { item: Item },
    /// The end of the script.
    End,
}

/// What the rows before a line amount to.
#[derive(Clone, Copy)]
pub struct Standing {
    /// A session has begun.
    pub in_sessions: bool,
    /// Edits wait for their move.
    pub edits_wait: bool,
    /// How many boxes came since the hold that is open, where one is.
    pub hold: Option<u32>,
    /// The script has ended.
    pub has_ended: bool,
    pub steps: u32,
    pub edits: u32,
    pub sessions: u32,
    pub boxes: u32,
}
