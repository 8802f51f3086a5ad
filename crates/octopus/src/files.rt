//! The two kinds of files that the program reads.
ghost use Rattle.std.specs.Prelude.{◌≡◌, length};
ghost use Rattle.vtk_legacy.specs.Reader.{HasRead, fed_len};
ghost use Rattle.run_script.specs.Jobs.{checked};
ghost use Rattle.octopus.specs.Due.{on_script, with_mesh, with_script, with_job};
ghost use Rattle.octopus.specs.Opened.{most_of_job};
ghost use Rattle.octopus.specs.Outcomes.{Brings};

use crate::intake::{Intake, read_file};
use crate::outcome::Early;
use crate::refusal::Refusal;
use mesh_base::{Mesh, NoMemory};
use oct_edge::Folder;
use run_script::{Job, Script};
use script_format::read_script;
use std::alloc::{AllocError, Global};
use vtk_legacy::{MeshFault, MeshReader};

// The most bytes of a mesh file.
const MESH_LIMIT: u64 = 1 << 30;

// The most bytes of a script.
const SCRIPT_LIMIT: u64 = 1 << 26;

impl Intake for MeshReader {
    ghost holds = { λ r given. HasRead given r };

    ghost size = { λ r. fed_len r };

    /// A fault of the text is kept by the reader, and the file is still read to its end.
    fn take(&mut self, alloc: Global, piece: &[u8]) -> Result<(), NoMemory> {
        match self.feed(alloc, piece) {
            Err(MeshFault::NoMemory) => Err(AllocError),
            _ => Ok(()),
        }
    }
}

// The bytes of a file, as far as it was read.
#[derive(Drop)]
struct Held {
    bytes: Vec<u8>,
}

impl Intake for Held {
    ghost holds = { λ s given. s.bytes.items ≡ given };

    ghost size = { λ s. length s.bytes.items };

    fn take(&mut self, _alloc: Global, piece: &[u8]) -> Result<(), NoMemory> {
        self.bytes.extend_from_slice(piece)
    }
}

/// Reads a mesh from a file.
pub fn load_mesh<F: Folder>(alloc: Global, name: &str, folder: &mut F) -> Result<Mesh, Early>
    ensures { Brings F.files F.rest F.faults F.opened 1 folder.old folder.new result
        (λ files. with_mesh (files name.now)) }
{
    let mut reader = MeshReader::new(alloc);
    read_file(
        alloc,
        name,
        folder,
        MESH_LIMIT,
        Refusal::LongMesh,
        &mut reader,
    )?;
    Ok(reader.finish(alloc)?)
}

/// Reads a script from a file. Its bytes are held until it is read.
pub fn load_script<F: Folder>(alloc: Global, name: &str, folder: &mut F) -> Result<Script, Early>
    ensures { Brings F.files F.rest F.faults F.opened 1 folder.old folder.new result
        (λ files. with_script (files name.now)) }
{
    let mut held = Held {
        bytes: Vec::new(alloc),
    };
    read_file(
        alloc,
        name,
        folder,
        SCRIPT_LIMIT,
        Refusal::LongScript,
        &mut held,
    )?;
    Ok(read_script(alloc, &held.bytes)?)
}

// Reads a script and checks it on the mesh.
fn load_on<F: Folder>(alloc: Global, mesh: Mesh, script: &str, folder: &mut F) -> Result<Job, Early>
    ensures { Brings F.files F.rest F.faults F.opened 1 folder.old folder.new result
        (λ files go. with_script (files script.now) (λ read. on_script (checked mesh read) go)) }
{
    let script = load_script(alloc, script, folder)?;
    Ok(Job::check(alloc, mesh, script)?)
}

/// Reads a mesh and then a script, and checks the script on the mesh: the job that they make.
#[tactic(auto, using(crate::proofs::OpenLaws::one_opened))]
pub fn load_job<F: Folder>(
    alloc: Global,
    mesh: &str,
    script: &str,
    folder: &mut F,
) -> Result<Job, Early>
    ensures { Brings F.files F.rest F.faults F.opened
        (most_of_job (F.files folder.old) mesh.now) folder.old folder.new result
        (λ files. with_job (files mesh.now) (files script.now)) }
{
    let mesh = load_mesh(alloc, mesh, folder)?;
    load_on(alloc, mesh, script, folder)
}
