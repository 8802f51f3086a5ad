//! How a call ended.
ghost use Rattle.std.specs.Prelude.{◌≡◌};
ghost use Rattle.octopus.specs.Codes.{code_of};

/// How a call ended.
#[derive(Clone, Copy, Debug, PartialEq, Eq)]
pub enum Status {
    /// The text was written whole.
    Done,
    /// The words have no form.
    Usage,
    /// There was no memory.
    Memory,
    /// A file isn't there, or a read was refused.
    ReadFault,
    /// A write was refused.
    WriteFault,
    /// A file is longer than its limit.
    TooLong,
    /// The mesh file has a fault.
    BadMesh,
    /// The script has a fault, by itself or on the mesh.
    BadScript,
    /// The step that is asked for is above the last one.
    NoStep,
}

impl Status {
    /// The number that the process ends with, from 0 to 9 without 1.
    pub fn code(&self) -> u8
        ensures { result ≡ code_of self.now }
    {
        match self {
            Status::Done => 0,
            Status::Usage => 2,
            Status::Memory => 3,
            Status::ReadFault => 4,
            Status::WriteFault => 5,
            Status::TooLong => 6,
            Status::BadMesh => 7,
            Status::BadScript => 8,
            Status::NoStep => 9,
        }
    }
}
