//! Why a mesh text is refused.

ghost use Rattle.std.specs.Prelude.{◌≡◌};
ghost use Rattle.vtk_legacy.specs.declared.fault.MeshFault.TheVariants.{NoMemory};

use std::alloc::{AllocError, AllocFailed};
use thiserror::Error;

/// What is wrong with a mesh text.
#[derive(Clone, Copy, Debug, PartialEq, Eq, Error)]
pub enum MeshKind {
    /// The first line isn't that of a VTK legacy file.
    #[error("the first line isn't that of a VTK legacy file")]
    Magic,
    /// The version isn't 1 to 4 or 5.1.
    #[error("the version isn't 1 to 4 or 5.1")]
    Version,
    /// The title is longer than 256 bytes.
    #[error("the title is longer than 256 bytes")]
    Title,
    /// The data are binary.
    #[error("the data are binary")]
    Binary,
    /// Neither `ASCII` nor `BINARY`.
    #[error("neither ASCII nor BINARY")]
    Format,
    /// Not an unstructured grid.
    #[error("not an unstructured grid")]
    DataSet,
    /// Another word than the one that has to come.
    #[error("another word than the one that has to come")]
    Keyword,
    /// Not a number.
    #[error("not a number")]
    Number,
    /// A coordinate that isn't whole.
    #[error("a coordinate that isn't whole")]
    NotWhole,
    /// A coordinate outside -2^30 to 2^30.
    #[error("a coordinate outside -2^30 to 2^30")]
    Range,
    /// A count that is too large, or isn't the number of the cells.
    #[error("a count that is too large, or isn't the number of the cells")]
    Count,
    /// Counts of points that don't add up to the stated size, or offsets that don't fit it.
    #[error("counts of points that don't add up to the stated size, or offsets that don't fit it")]
    Size,
    /// A point number that isn't below the number of points.
    #[error("a point number that isn't below the number of points")]
    Index,
    /// A cell type that isn't 1 to 10.
    #[error("a cell type that isn't 1 to 10")]
    CellType,
    /// A cell whose number of points isn't that of its type.
    #[error("a cell whose number of points isn't that of its type")]
    CellSize,
    /// A tetrahedron with a point twice.
    #[error("a tetrahedron with a point twice")]
    SameVertex,
    /// An array of a `FIELD` that has no numbers.
    #[error("an array of a FIELD that has no numbers")]
    Field,
    /// The text ends too early.
    #[error("the text ends too early")]
    Truncated,
}

/// Why there is no mesh.
#[derive(Clone, Copy, Debug, PartialEq, Eq, Error)]
pub enum MeshFault {
    /// What is wrong first, and the byte place where, counted from 0.
    #[error("byte {place}: {kind}")]
    Bad { kind: MeshKind, place: u64 },
    /// Memory was refused.
    #[error("out of memory")]
    NoMemory,
}

impl MeshKind {
    ghost use Rattle.std.specs.Prelude.{◌≡◌};
    ghost use Rattle.vtk_legacy.specs.Kinds.{name_of};

    /// The kind's name, as it is spelled above. It takes no memory.
    pub fn name(&self) -> &'static str
        ensures { result.now ≡ name_of self.now }
    {
        match self {
            MeshKind::Magic => "Magic",
            MeshKind::Version => "Version",
            MeshKind::Title => "Title",
            MeshKind::Binary => "Binary",
            MeshKind::Format => "Format",
            MeshKind::DataSet => "DataSet",
            MeshKind::Keyword => "Keyword",
            MeshKind::Number => "Number",
            MeshKind::NotWhole => "NotWhole",
            MeshKind::Range => "Range",
            MeshKind::Count => "Count",
            MeshKind::Size => "Size",
            MeshKind::Index => "Index",
            MeshKind::CellType => "CellType",
            MeshKind::CellSize => "CellSize",
            MeshKind::SameVertex => "SameVertex",
            MeshKind::Field => "Field",
            MeshKind::Truncated => "Truncated",
        }
    }
}

impl From<AllocError> for MeshFault {
    ghost from_gives = { λ _ e. e ≡ NoMemory };

    fn from(_e: AllocError) -> MeshFault {
        MeshFault::NoMemory
    }
}

impl<T: Drop> From<AllocFailed<T>> for MeshFault {
    ghost from_gives = { λ _ e. e ≡ NoMemory };

    fn from(_e: AllocFailed<T>) -> MeshFault {
        MeshFault::NoMemory
    }
}
