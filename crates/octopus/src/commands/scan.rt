//! The command `scan`.
ghost use Rattle.std.specs.Prelude.{◌≡◌, IfOk, Some};
ghost use Rattle.mesh_base.specs.Scan.{scan};
ghost use Rattle.command_words.specs.declared.words.Command.TheVariants.{Scan};
ghost use Rattle.octopus.specs.Lines.{list_text};
ghost use Rattle.octopus.specs.Due.{due_of};
ghost use Rattle.octopus.specs.Outcomes.{Owes};

use crate::files::load_mesh;
use crate::lines::list_lines;
use crate::outcome::Early;
use mesh_base::{BoxQ, Mesh, NoMemory, scan_mesh};
use oct_edge::Folder;
use std::alloc::Global;

// The text of the scan.
fn scan_text(alloc: Global, area: &BoxQ, mesh: &Mesh) -> Result<Vec<u8>, NoMemory>
    ensures { IfOk result (λ text. text.items ≡ list_text (scan mesh.now area.now)) }
{
    let found = scan_mesh(alloc, mesh, area)?;
    list_lines(alloc, found.items())
}

/// Reads the mesh and scans it.
pub fn run_scan<F: Folder>(
    alloc: Global,
    mesh: &str,
    area: &BoxQ,
    folder: &mut F,
) -> Result<Vec<u8>, Early>
    ensures { Owes F.files F.rest F.faults F.opened 1 folder.old folder.new result
        (due_of (Some (Scan mesh.now area.now))) }
{
    let mesh = load_mesh(alloc, mesh, folder)?;
    Ok(scan_text(alloc, area, &mesh)?)
}
