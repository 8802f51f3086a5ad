//! How a command ends before it has its text.
ghost use Rattle.std.specs.Prelude.{◌≡◌};
ghost use Rattle.octopus.specs.declared.outcome.Early.TheVariants.{Memory, ReadFault};
ghost use Rattle.octopus.specs.Refusals.{early_of_mesh, early_of_script};

use crate::refusal::Refusal;
use mesh_base::NoMemory;
use oct_edge::Failed;
use run_script::ScriptFault;
use vtk_legacy::MeshFault;

/// Why a command ends before it has its text. Nothing was written yet.
#[derive(Clone, Copy, Debug, PartialEq, Eq)]
pub enum Early {
    /// Memory was refused.
    Memory,
    /// A file isn't there, or a read was refused.
    ReadFault,
    /// The words or a file are refused, by a line that is still to be written.
    Refused { why: Refusal },
}

impl From<NoMemory> for Early {
    ghost from_gives = { λ _ e. e ≡ Memory };

    fn from(_e: NoMemory) -> Early {
        Early::Memory
    }
}

impl From<Failed> for Early {
    ghost from_gives = { λ _ e. e ≡ ReadFault };

    fn from(_e: Failed) -> Early {
        Early::ReadFault
    }
}

impl From<MeshFault> for Early {
    ghost from_gives = { λ fault e. e ≡ early_of_mesh fault };

    fn from(fault: MeshFault) -> Early {
        match fault {
            MeshFault::Bad { kind, place } => Early::Refused {
                why: Refusal::Mesh { kind, place },
            },
            MeshFault::NoMemory => Early::Memory,
        }
    }
}

impl From<ScriptFault> for Early {
    ghost from_gives = { λ fault e. e ≡ early_of_script fault };

    fn from(fault: ScriptFault) -> Early {
        match fault {
            ScriptFault::Bad { kind, line } => Early::Refused {
                why: Refusal::Script { kind, line },
            },
            ScriptFault::NoMemory => Early::Memory,
        }
    }
}
