//! Why the program refuses, and the line that says so.
ghost use Rattle.std.specs.Prelude.{◌≡◌, IfOk};
ghost use Rattle.octopus.specs.Refusals.{status_of_refusal, refusal_line};

use crate::lines::{fault_line, missing_step_line};
use crate::status::Status;
use mesh_base::NoMemory;
use run_script::ScriptKind;
use std::alloc::Global;
use vtk_legacy::MeshKind;

/// Why the words or a file are refused.
#[derive(Clone, Copy, Debug, PartialEq, Eq)]
pub enum Refusal {
    /// The words have no form.
    Usage,
    /// The mesh file has more than 2^30 bytes.
    LongMesh,
    /// What is wrong first with the mesh file, and the byte place where, counted from 0.
    Mesh { kind: MeshKind, place: u64 },
    /// The script has more than 2^26 bytes.
    LongScript,
    /// What is wrong first with the script, by itself or on the mesh, and the line where, counted from 1.
    Script { kind: ScriptKind, line: u32 },
    /// The step that is asked for is above the last one.
    NoStep { step: u32, last: u32 },
}

impl Refusal {
    /// The status that goes with it.
    pub fn status(&self) -> Status
        ensures { result ≡ status_of_refusal self.now }
    {
        match self {
            Refusal::Usage => Status::Usage,
            Refusal::LongMesh | Refusal::LongScript => Status::TooLong,
            Refusal::Mesh { .. } => Status::BadMesh,
            Refusal::Script { .. } => Status::BadScript,
            Refusal::NoStep { .. } => Status::NoStep,
        }
    }

    /// The one line that is written. It takes memory for the line alone.
    pub fn line(&self, alloc: Global) -> Result<Vec<u8>, NoMemory>
        ensures { IfOk result (λ line. line.items ≡ refusal_line self.now) }
    {
        match *self {
            Refusal::Usage => b"refused usage\n".to_vec(alloc),
            Refusal::LongMesh => b"refused long mesh\n".to_vec(alloc),
            Refusal::Mesh { kind, place } => fault_line(
                alloc,
                b"refused mesh ",
                kind.name(),
                place,
            ),
            Refusal::LongScript => b"refused long script\n".to_vec(alloc),
            Refusal::Script { kind, line } => {
                fault_line(alloc, b"refused script ", kind.name(), u64::from(line))
            }
            Refusal::NoStep { step, last } => missing_step_line(alloc, step, last),
        }
    }
}
