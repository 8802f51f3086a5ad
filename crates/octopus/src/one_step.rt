//! A mesh as the one step of a job.
ghost use Rattle.std.specs.Prelude.{◌≡◌, IfOk};

use job_steps::first_step;
use mesh_base::{Mesh, NoMemory};
use run_script::Job;
use std::alloc::Global;
use std::sync::Arc;
use step_view::Step;

/// The mesh as a step, with its surface and its neighbours. It costs the tables of the mesh, which isn't copied.
#[tactic(auto, unfolding(run_script::specs::Jobs::step_at))]
pub fn only_step(alloc: Global, mesh: Mesh) -> Result<Step, NoMemory>
    ensures { IfOk result (λ step. step.mesh ≡ mesh) }
{
    let job = Job::still(alloc, mesh)?;
    let (step, _maker) = first_step(alloc, Arc::new(alloc, job)?)?;
    Ok(step)
}
