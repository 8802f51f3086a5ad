//! The command `demo`.
ghost use Rattle.std.specs.Prelude.{◌≡◌, ◌++◌, ◌∷◌, [], length, flat_map, filter, codes, OnOk, IfOk};
ghost use Rattle.std.specs.Fmt.{decimal};
ghost use Rattle.step_registry.specs.Core.{answers_of};
ghost use Rattle.step_registry.specs.Lines.{of_session};
ghost use Rattle.octopus.specs.Lines.{line};
ghost use Rattle.octopus.specs.Demo.{answer_words, size_words, line_by, lines_by, summary_by, demo_head, demo_text};

use demo_job::make_demo;
use mesh_base::{Answer, Mesh, NoMemory};
use oct_edge::Gate;
use oct_text::put_text;
use report::{name_of_route, put_labelled};
use run_threads::run_job;
use sample_meshes::Side;
use std::alloc::Global;
use std::marker::Sync;
use std::sync::Wait;
use std::thread::Threads;
use step_registry::Registry;

// Appends how an answer was found, and how many vertices it has, if it is of this session.
fn put_answer_of(
    alloc: Global,
    out: &mut Vec<u8>,
    answer: &Answer,
    session: u32,
) -> Result<(), NoMemory>
    ensures { OnOk result (out.new.items ≡ out.old.items
        ++ flat_map answer_words (filter (of_session session) (answer.now ∷ []))) }
{
    if answer.session != session {
        return Ok(());
    }
    put_text(alloc, out, b" ")?;
    put_text(alloc, out, name_of_route(answer.route).as_bytes())?;
    put_labelled(alloc, out, b" ", answer.vertices.items().len() as u64)
}

// Appends those of all answers of a session.
fn put_answers(
    alloc: Global,
    out: &mut Vec<u8>,
    answers: &[Answer],
    session: u32,
) -> Result<(), NoMemory>
    ensures { OnOk result (out.new.items ≡ out.old.items
        ++ flat_map answer_words (filter (of_session session) answers.now)) }
{
    for answer in answers {
        put_answer_of(alloc, out, answer, session)?;
    }
    Ok(())
}

// Appends the line of a session.
fn put_session(
    alloc: Global,
    out: &mut Vec<u8>,
    answers: &[Answer],
    session: u32,
) -> Result<(), NoMemory>
    ensures { OnOk result (out.new.items ≡ out.old.items ++ line_by answers.now session) }
{
    put_labelled(alloc, out, b"session ", u64::from(session))?;
    put_answers(alloc, out, answers, session)?;
    put_text(alloc, out, b"\n")
}

// Appends the lines of the four sessions.
fn put_sessions(alloc: Global, out: &mut Vec<u8>, answers: &[Answer]) -> Result<(), NoMemory>
    ensures { OnOk result (out.new.items ≡ out.old.items ++ lines_by answers.now 4) }
{
    for session in 0..4 {
        put_session(alloc, out, answers, session)?;
    }
    Ok(())
}

// Appends how many points and cells there are.
fn put_sizes(alloc: Global, out: &mut Vec<u8>, mesh: &Mesh) -> Result<(), NoMemory>
    ensures { OnOk result (out.new.items ≡ out.old.items ++ size_words mesh.now) }
{
    put_labelled(alloc, out, b"points ", mesh.points().len() as u64)?;
    put_labelled(alloc, out, b" cells ", mesh.cells().len() as u64)
}

// Appends the line of all sizes.
fn put_size_line(alloc: Global, out: &mut Vec<u8>, mesh: &Mesh) -> Result<(), NoMemory>
    ensures { OnOk result (out.new.items ≡ out.old.items ++ line (size_words mesh.now ++ codes " steps 8 sessions 4")) }
{
    put_sizes(alloc, out, mesh)?;
    put_text(alloc, out, b" steps 8 sessions 4\n")
}

// Appends the two lines in front of the sessions.
fn put_head(alloc: Global, out: &mut Vec<u8>, mesh: &Mesh) -> Result<(), NoMemory>
    ensures { OnOk result (out.new.items ≡ out.old.items ++ demo_head mesh.now) }
{
    put_text(alloc, out, b"octopus demo\n")?;
    put_size_line(alloc, out, mesh)
}

// The summary by the answers.
fn summary_of(alloc: Global, mesh: &Mesh, answers: &[Answer]) -> Result<Vec<u8>, NoMemory>
    ensures { IfOk result (λ text. text.items ≡ summary_by mesh.now answers.now) }
{
    let mut out = Vec::new(alloc);
    put_head(alloc, &mut out, mesh)?;
    put_sessions(alloc, &mut out, answers)?;
    put_text(alloc, &mut out, b"end\n")?;
    Ok(out)
}

// The summary of a registry.
fn summary(alloc: Global, registry: &Registry) -> Result<Vec<u8>, NoMemory>
    ensures { IfOk result (λ text. text.items ≡ summary_by registry.now.job.mesh
        (answers_of registry.now.job registry.now.journal)) }
{
    summary_of(alloc, registry.job().mesh(), registry.answers())
}

/// Plays the job of a demo and summarises its answers. The text follows from the side and the seed, whatever the order
/// of the run's events: each session asks about the last step.
pub fn run_demo<R: Threads + Wait + Sync, G: Gate>(
    rt: &R,
    alloc: Global,
    side: Side,
    seed: u16,
    gate: &G,
) -> Result<Vec<u8>, NoMemory>
    ensures { IfOk result (λ text. text.items ≡ demo_text side seed) }
{
    let job = make_demo(alloc, side, seed)?;
    let registry = run_job(rt, alloc, job, gate)?;
    summary(alloc, &registry)
}
