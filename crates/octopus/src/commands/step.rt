//! The command `step`.
ghost use Rattle.std.specs.Prelude.{◌≡◌, ◌≤◌, length, IfOk, Some};
ghost use Rattle.vtk_legacy.specs.Written.{mesh_spelling};
ghost use Rattle.run_script.specs.Jobs.{step_at};
ghost use Rattle.command_words.specs.declared.words.Command.TheVariants as commands;
ghost use Rattle.octopus.specs.Due.{due_of};
ghost use Rattle.octopus.specs.Opened.{most_of_job};
ghost use Rattle.octopus.specs.Outcomes.{Owes};

use crate::files::load_job;
use crate::outcome::Early;
use crate::refusal::Refusal;
use job_steps::Maker;
use mesh_base::NoMemory;
use oct_edge::Folder;
use run_script::Job;
use std::alloc::Global;
use std::sync::Arc;
use step_text::write_step;
use step_view::Step;

// Makes the steps of a job up to this one, and hands out that one alone.
fn make_step(alloc: Global, job: Job, number: u32) -> Result<Step, NoMemory>
    requires { number ≤ length job.plans }
    ensures { IfOk result (λ step. step.mesh ≡ step_at job number) }
{
    let mut maker = Maker::new(alloc, Arc::new(alloc, job)?)?;
    for _ in 0..number {
        maker.pass_plain(alloc)?;
    }
    let step = maker.last_step(alloc)?;
    Ok(step)
}

// The text of the mesh of a step.
fn text_of(alloc: Global, job: Job, number: u32) -> Result<Vec<u8>, NoMemory>
    requires { number ≤ length job.plans }
    ensures { IfOk result (λ text. text.items ≡ mesh_spelling (step_at job number)) }
{
    let step = make_step(alloc, job, number)?;
    let mut text = Vec::new(alloc);
    write_step(alloc, &step, &mut text)?;
    Ok(text)
}

/// Reads the mesh and then the script, and makes the steps up to this one.
pub fn run_step<F: Folder>(
    alloc: Global,
    mesh: &str,
    script: &str,
    step: u32,
    folder: &mut F,
) -> Result<Vec<u8>, Early>
    ensures { Owes F.files F.rest F.faults F.opened
        (most_of_job (F.files folder.old) mesh.now) folder.old folder.new result
        (due_of (Some (commands.Step mesh.now script.now step))) }
{
    let job = load_job(alloc, mesh, script, folder)?;
    let last = job.steps();
    if step > last {
        return Err(Early::Refused {
            why: Refusal::NoStep { step, last },
        });
    }
    Ok(text_of(alloc, job, step)?)
}
