//! A run of a job.
ghost use Rattle.std.specs.Prelude.{◌≡◌, IfOk};
ghost use Rattle.step_registry.specs.Core.{IsWhole};
ghost use Rattle.run_threads.specs.Ends.{IsPlayed};

use crate::seats::play_seats;
use job_steps::first_step;
use mesh_base::NoMemory;
use oct_edge::Gate;
use run_script::Job;
use std::alloc::{AllocError, Global};
use std::marker::Sync;
use std::sync::{Arc, Wait};
use std::thread::Threads;
use step_registry::Registry;
use step_table::StepTable;
use step_view::Shares;

/// How a run ended.
#[derive(Drop)]
pub enum Played {
    /// All steps were published, and all turns of all sessions answered. The registry's journal is whole.
    Whole { registry: Registry },
    /// Memory was refused in the middle. The plan is closed, and no step is out; each session has all its turns done,
    /// was stopped, or stands before a turn whose step was never published. The journal isn't whole.
    NoMemory { registry: Registry },
}

/// Plays the job: a publisher makes and publishes the steps in order, and closes the plan; beside it each session takes
/// its turns in order, waits for the step that a turn needs, pins the newest step, answers the boxes of the turn about
/// that step, and gives the pin back. The registry that comes back has the history of all this as its journal, and the
/// answers.
///
/// There is a thread for each session, and the motions of the points use as many threads as there are processors. The
/// call may wait: a session that waits for a step sleeps. It takes memory for the steps that are held (the newest, the
/// one in making, and one for each session that has an older one out) and for the answers, which all stay in the
/// registry.
///
/// `gate` is called by the publisher before it publishes step k, as `at(sessions, k)`, and by session s after it has
/// pinned step k, as `at(s, k)`.
///
/// `NoMemory` as the error of the call means that the run didn't begin: then the job is gone. Where memory is refused
/// later, the publisher closes the plan, or the session gives its pin back without answers and stops, and the answer is
/// `Played::NoMemory`.
pub fn play_job<R: Threads + Wait + Sync, G: Gate>(
    rt: &R,
    alloc: Global,
    job: Job,
    gate: &G,
) -> Result<Played, NoMemory>
    ensures { IfOk result (IsPlayed job) }
{
    let _valid = job.steps();
    let job = Arc::new(alloc, job)?;
    let (step, maker) = first_step(alloc, job.clone()?)?;
    let registry = Registry::new(alloc, Shares::make(alloc, step)?)?;
    let (table, publisher, seats) = StepTable::new(alloc, registry)?;
    let (publisher, seats) = play_seats(rt, alloc, &table, &job, gate, publisher, maker, seats);
    let registry = table.finish(publisher, seats);
    if registry.is_whole() {
        Ok(Played::Whole { registry })
    } else {
        Ok(Played::NoMemory { registry })
    }
}

/// The registry of a run of the job, with a whole journal. It plays the job as `play_job` does, and keeps nothing of a
/// run that memory cut short. After `NoMemory` the job is gone.
pub fn run_job<R: Threads + Wait + Sync, G: Gate>(
    rt: &R,
    alloc: Global,
    job: Job,
    gate: &G,
) -> Result<Registry, NoMemory>
    ensures job { IfOk result (λ registry. registry.job ≡ job) }
    ensures whole { IfOk result (λ registry. IsWhole job registry.journal) }
{
    match play_job(rt, alloc, job, gate)? {
        Played::Whole { registry } => Ok(registry),
        Played::NoMemory { registry: _ } => Err(AllocError),
    }
}
