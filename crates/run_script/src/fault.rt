//! Why a script or a job is refused.

ghost use Rattle.std.specs.Prelude.{◌≡◌};
ghost use Rattle.run_script.specs.declared.fault.ScriptFault.TheVariants.{NoMemory};

use std::alloc::{AllocError, AllocFailed};
use thiserror::Error;

/// What is wrong with a script, or with a script on a mesh.
#[derive(Clone, Copy, Debug, PartialEq, Eq, Error)]
pub enum ScriptKind {
    /// The first line isn't `octopus script 1` or `octopus script 2`.
    #[error("the first line isn't octopus script 1 or octopus script 2")]
    Header,
    /// An unknown first word or axis, or another number of words than the line has to have.
    #[error("an unknown first word or axis, or another number of words than the line has to have")]
    Word,
    /// A value that isn't a whole number.
    #[error("a value that isn't a whole number")]
    Number,
    /// A value outside its range.
    #[error("a value outside its range")]
    Range,
    /// A box whose low corner has a coordinate above that of the high one.
    #[error("a box whose low corner has a coordinate above that of the high one")]
    Box,
    /// A line that can't stand here.
    #[error("a line that can't stand here")]
    Order,
    /// One step, edit, session, box, point or cell too many.
    #[error("one step, edit, session, box, point or cell too many")]
    Limit,
    /// The text ends before `end`.
    #[error("the text ends before end")]
    Truncated,
    /// A corner that isn't the number of a point.
    #[error("a corner that isn't the number of a point")]
    NoPoint,
    /// No live cell has this number.
    #[error("no live cell has this number")]
    NoCell,
    /// A cell with a corner twice.
    #[error("a cell with a corner twice")]
    SameVertex,
    /// A wait for a step that the script doesn't have.
    #[error("a wait for a step that the script doesn't have")]
    NoStep,
}

/// Why there is no script, or no job.
#[derive(Clone, Copy, Debug, PartialEq, Eq, Error)]
pub enum ScriptFault {
    /// What is wrong first, and the line where, counted from 1. Where the text ends too early it is the number of
    /// lines.
    #[error("line {line}: {kind}")]
    Bad { kind: ScriptKind, line: u32 },
    /// Memory was refused.
    #[error("out of memory")]
    NoMemory,
}

impl ScriptKind {
    ghost use Rattle.std.specs.Prelude.{◌≡◌};
    ghost use Rattle.run_script.specs.Kinds.{name_of};

    /// The kind's name, as it is spelled above. It takes no memory.
    pub fn name(&self) -> &'static str
        ensures { result.now ≡ name_of self.now }
    {
        match self {
            ScriptKind::Header => "Header",
            ScriptKind::Word => "Word",
            ScriptKind::Number => "Number",
            ScriptKind::Range => "Range",
            ScriptKind::Box => "Box",
            ScriptKind::Order => "Order",
            ScriptKind::Limit => "Limit",
            ScriptKind::Truncated => "Truncated",
            ScriptKind::NoPoint => "NoPoint",
            ScriptKind::NoCell => "NoCell",
            ScriptKind::SameVertex => "SameVertex",
            ScriptKind::NoStep => "NoStep",
        }
    }
}

impl From<AllocError> for ScriptFault {
    ghost from_gives = { λ _ e. e ≡ NoMemory };

    fn from(_e: AllocError) -> ScriptFault {
        ScriptFault::NoMemory
    }
}

impl<T: Drop> From<AllocFailed<T>> for ScriptFault {
    ghost from_gives = { λ _ e. e ≡ NoMemory };

    fn from(_e: AllocFailed<T>) -> ScriptFault {
        ScriptFault::NoMemory
    }
}
