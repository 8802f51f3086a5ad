//! The command `surface`.
ghost use Rattle.std.specs.Prelude.{◌≡◌, IfOk, Some};
ghost use Rattle.mesh_base.specs.Mesh.{surface};
ghost use Rattle.command_words.specs.declared.words.Command.TheVariants.{Surface};
ghost use Rattle.octopus.specs.Lines.{list_text};
ghost use Rattle.octopus.specs.Due.{due_of};
ghost use Rattle.octopus.specs.Outcomes.{Owes};

use crate::files::load_mesh;
use crate::lines::list_lines;
use crate::outcome::Early;
use face_table::FaceTable;
use mesh_base::{Mesh, NoMemory};
use oct_edge::Folder;
use std::alloc::Global;

// The text of the surface.
fn surface_text(alloc: Global, mesh: &Mesh) -> Result<Vec<u8>, NoMemory>
    ensures { IfOk result (λ text. text.items ≡ list_text (surface mesh.now)) }
{
    let points = mesh.points().len() as u32;
    let faces = FaceTable::build(alloc, points, mesh.cells())?;
    list_lines(alloc, faces.surface())
}

/// Reads the mesh and lists its surface.
pub fn run_surface<F: Folder>(alloc: Global, mesh: &str, folder: &mut F) -> Result<Vec<u8>, Early>
    ensures { Owes F.files F.rest F.faults F.opened 1 folder.old folder.new result (due_of (Some (Surface mesh.now))) }
{
    let mesh = load_mesh(alloc, mesh, folder)?;
    Ok(surface_text(alloc, &mesh)?)
}
