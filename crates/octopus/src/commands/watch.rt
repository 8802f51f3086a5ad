//! The command `watch`.
ghost use Rattle.std.specs.Prelude.{◌≡◌, IfOk};
ghost use Rattle.box_watch.specs.WatchText.{Watches};
ghost use Rattle.command_words.specs.declared.words.Played.TheVariants.{Watch};
ghost use Rattle.octopus.specs.Due.{due_of_played};
ghost use Rattle.octopus.specs.Opened.{most_of_job};
ghost use Rattle.octopus.specs.Outcomes.{Owes};

use crate::files::load_job;
use crate::outcome::Early;
use box_watch::whole_watch;
use mesh_base::NoMemory;
use oct_edge::{Folder, Gate};
use run_script::Job;
use run_threads::run_job;
use std::alloc::Global;
use std::marker::Sync;
use std::sync::Wait;
use std::thread::Threads;

// The watches of a job that is played.
fn played_watches<R: Threads + Wait + Sync, G: Gate>(
    rt: &R,
    alloc: Global,
    job: Job,
    gate: &G,
) -> Result<Vec<u8>, NoMemory>
    ensures { IfOk result (λ text. Watches job text.items) }
{
    let registry = run_job(rt, alloc, job, gate)?;
    whole_watch(alloc, &registry)
}

/// Reads the mesh and then the script, plays the job that they make, and tells what entered and left each box.
pub fn watch_script<R: Threads + Wait + Sync, F: Folder, G: Gate>(
    rt: &R,
    alloc: Global,
    mesh: &str,
    script: &str,
    folder: &mut F,
    gate: &G,
) -> Result<Vec<u8>, Early>
    ensures { Owes F.files F.rest F.faults F.opened
        (most_of_job (F.files folder.old) mesh.now) folder.old folder.new result
        (due_of_played (Watch mesh.now script.now)) }
{
    let job = load_job(alloc, mesh, script, folder)?;
    Ok(played_watches(rt, alloc, job, gate)?)
}
