//! The command `run`.
ghost use Rattle.std.specs.Prelude.{◌≡◌, IfOk};
ghost use Rattle.report.specs.Headline.{Reports};
ghost use Rattle.command_words.specs.declared.words.Played.TheVariants.{Run};
ghost use Rattle.octopus.specs.Due.{due_of_played};
ghost use Rattle.octopus.specs.Opened.{most_of_job};
ghost use Rattle.octopus.specs.Outcomes.{Owes};

use crate::files::load_job;
use crate::outcome::Early;
use mesh_base::NoMemory;
use oct_edge::{Folder, Gate};
use report::whole_report;
use run_script::Job;
use run_threads::run_job;
use std::alloc::Global;
use std::marker::Sync;
use std::sync::Wait;
use std::thread::Threads;

// The report of a job that is played.
fn played_report<R: Threads + Wait + Sync, G: Gate>(
    rt: &R,
    alloc: Global,
    job: Job,
    gate: &G,
) -> Result<Vec<u8>, NoMemory>
    ensures { IfOk result (λ text. Reports job text.items) }
{
    let registry = run_job(rt, alloc, job, gate)?;
    whole_report(alloc, &registry)
}

/// Reads the mesh and then the script, plays the job that they make, and reports the run.
pub fn play_script<R: Threads + Wait + Sync, F: Folder, G: Gate>(
    rt: &R,
    alloc: Global,
    mesh: &str,
    script: &str,
    folder: &mut F,
    gate: &G,
) -> Result<Vec<u8>, Early>
    ensures { Owes F.files F.rest F.faults F.opened
        (most_of_job (F.files folder.old) mesh.now) folder.old folder.new result
        (due_of_played (Run mesh.now script.now)) }
{
    let job = load_job(alloc, mesh, script, folder)?;
    Ok(played_report(rt, alloc, job, gate)?)
}
