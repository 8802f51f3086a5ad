//! The command `box`.
ghost use Rattle.std.specs.Prelude.{◌≡◌, IfOk, Some};
ghost use Rattle.mesh_base.specs.Query.{route, answer};
ghost use Rattle.command_words.specs.declared.words.Command.TheVariants.{Box};
ghost use Rattle.octopus.specs.Lines.{answer_text};
ghost use Rattle.octopus.specs.Due.{due_of};
ghost use Rattle.octopus.specs.Outcomes.{Owes};

use crate::files::load_mesh;
use crate::lines::answer_lines;
use crate::one_step::only_step;
use crate::outcome::Early;
use box_crawl::Marks;
use box_query::answer_plain;
use mesh_base::{BoxQ, NoMemory};
use oct_edge::Folder;
use std::alloc::Global;
use step_view::Step;

// The text of the answer of a box on a step.
fn answered_text(alloc: Global, area: &BoxQ, step: &Step) -> Result<Vec<u8>, NoMemory>
    ensures { IfOk result (λ text. text.items ≡ answer_text (route step.now.mesh area.now)
        (answer step.now.mesh area.now)) }
{
    let mut marks = Marks::new(alloc, step.points())?;
    let (route, vertices) = answer_plain(alloc, step, area, &mut marks)?;
    answer_lines(alloc, route, vertices.items())
}

/// Reads the mesh and answers the box.
pub fn run_box<F: Folder>(
    alloc: Global,
    mesh: &str,
    area: &BoxQ,
    folder: &mut F,
) -> Result<Vec<u8>, Early>
    ensures { Owes F.files F.rest F.faults F.opened 1 folder.old folder.new result
        (due_of (Some (Box mesh.now area.now))) }
{
    let mesh = load_mesh(alloc, mesh, folder)?;
    let step = only_step(alloc, mesh)?;
    Ok(answered_text(alloc, area, &step)?)
}
