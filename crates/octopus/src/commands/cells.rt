//! The command `cells`.
ghost use Rattle.std.specs.Prelude.{◌≡◌, IfOk, Some};
ghost use Rattle.mesh_base.specs.Query.{route, answer};
ghost use Rattle.cell_box.specs.Cells.{cells_by};
ghost use Rattle.command_words.specs.declared.words.Command.TheVariants as commands;
ghost use Rattle.octopus.specs.Lines.{answer_text};
ghost use Rattle.octopus.specs.Due.{due_of};
ghost use Rattle.octopus.specs.Outcomes.{Owes};

use crate::files::load_mesh;
use crate::lines::answer_lines;
use crate::one_step::only_step;
use crate::outcome::Early;
use box_crawl::Marks;
use cell_box::{How, Incidence, cells_in};
use mesh_base::{BoxQ, NoMemory};
use oct_edge::Folder;
use std::alloc::Global;
use step_view::Step;

// The text of the cells of a box on a step.
fn cells_text(alloc: Global, area: &BoxQ, how: How, step: &Step) -> Result<Vec<u8>, NoMemory>
    ensures { IfOk result (λ text. text.items ≡ answer_text (route step.now.mesh area.now)
        (cells_by how step.now.mesh (answer step.now.mesh area.now))) }
{
    let incidence = Incidence::build(alloc, step)?;
    let mut marks = Marks::new(alloc, step.points())?;
    let (route, cells) = cells_in(alloc, step, &incidence, area, &mut marks, how)?;
    answer_lines(alloc, route, cells.items())
}

/// Reads the mesh and lists the cells of the box's answer.
pub fn run_cells<F: Folder>(
    alloc: Global,
    mesh: &str,
    area: &BoxQ,
    how: How,
    folder: &mut F,
) -> Result<Vec<u8>, Early>
    ensures { Owes F.files F.rest F.faults F.opened 1 folder.old folder.new result
        (due_of (Some (commands.Cells mesh.now area.now how))) }
{
    let mesh = load_mesh(alloc, mesh, folder)?;
    let step = only_step(alloc, mesh)?;
    Ok(cells_text(alloc, area, how, &step)?)
}
