//! Runs whose journals and answers were worked out by hand.
use super::checks::is_whole;
use super::gates::{Late, Meetings};
use super::jobs::small_job;
use crate::{Played, play_job, run_job};
use mesh_base::{Answer, Route};
use oct_edge::{Gate, NoGate};
use run_script::Job;
use std::alloc::Global;
use std::marker::Sync;
use std::sync::Wait;
use std::test::Fail;
use std::thread::Threads;
use step_registry::{Event, Registry};

// Three steps that move the cell along x, and a session that waits for the last one.
const THREE_STEPS: &str =
    "octopus script 1\nshift 1 0 0\nshift 1 0 0\nshift 1 0 0\nsession\nwait 3\nbox 3 0 0 7 0 0\nend\n";

// The registry of a run of the job of one cell and this script. Its journal is whole, by its own test and by the one
// here.
fn played<R: Threads + Wait + Sync, G: Gate>(
    rt: &R,
    alloc: Global,
    text: &str,
    gate: &G,
) -> Result<Registry, Fail> {
    let registry = run_job(rt, alloc, small_job(alloc, text)?, gate)?;
    if registry.is_whole() && is_whole(registry.job(), registry.journal()) {
        Ok(registry)
    } else {
        Err(Fail::new("journal"))
    }
}

fn is_answer(
    answer: Option<&Answer>,
    query: u32,
    step: u32,
    route: Route,
    vertices: &[u32],
) -> bool {
    match answer {
        Some(answer) => {
            answer.query == query
                && answer.step == step
                && answer.route == route
                && answer.vertices.items() == vertices
        }
        None => false,
    }
}

// The step that a session pinned first.
fn first_pin(journal: &[Event], who: u32) -> Option<u32> {
    for event in journal {
        if let Event::Pin { session, step } = *event {
            if session == who {
                return Some(step);
            }
        }
    }
    None
}

// A session that waits for the last step has one answer, whatever the order of the threads.
#[test]
fn a_session_waits_for_its_step(rt: HostRuntime) -> Result<(), Fail> {
    for _ in 0..200 {
        let registry = played(&rt, rt.alloc(), THREE_STEPS, &NoGate)?;
        assert_eq!(rt; registry.journal().len(), 6);
        assert_eq!(rt; first_pin(registry.journal(), 0), Some(3));
        assert_eq!(rt; registry.answers().len(), 1);
        assert!(rt; is_answer(registry.answers().first(), 0, 3, Route::Probe, &[0, 1]));
    }
    Ok(())
}

// Three sessions, of which the first has its first turn at step 0, 1, 2 or 3.
const FIRST_TURNS: [&str; 4] = [
    "octopus script 1\nshift 1 0 0\nshift 1 0 0\nshift 1 0 0\nsession\nbox 0 0 0 7 0 0\nbox 1 0 0 7 0 0\nsession\nwait 1\nbox 0 0 0 7 0 0\nwait 3\nbox 0 0 0 7 0 0\nsession\nwait 3\nbox 0 0 0 7 0 0\nend\n",
    "octopus script 1\nshift 1 0 0\nshift 1 0 0\nshift 1 0 0\nsession\nwait 1\nbox 0 0 0 7 0 0\nbox 1 0 0 7 0 0\nsession\nwait 1\nbox 0 0 0 7 0 0\nwait 3\nbox 0 0 0 7 0 0\nsession\nwait 3\nbox 0 0 0 7 0 0\nend\n",
    "octopus script 1\nshift 1 0 0\nshift 1 0 0\nshift 1 0 0\nsession\nwait 2\nbox 0 0 0 7 0 0\nbox 1 0 0 7 0 0\nsession\nwait 1\nbox 0 0 0 7 0 0\nwait 3\nbox 0 0 0 7 0 0\nsession\nwait 3\nbox 0 0 0 7 0 0\nend\n",
    "octopus script 1\nshift 1 0 0\nshift 1 0 0\nshift 1 0 0\nsession\nwait 3\nbox 0 0 0 7 0 0\nbox 1 0 0 7 0 0\nsession\nwait 1\nbox 0 0 0 7 0 0\nwait 3\nbox 0 0 0 7 0 0\nsession\nwait 3\nbox 0 0 0 7 0 0\nend\n",
];

// Whether the answers of the first boxes name the steps that were pinned, and list the two points on the axis.
fn are_answers(answers: &[Answer]) -> bool {
    for answer in answers {
        if answer.vertices.items() != [0, 1].as_slice() && answer.query == 0 {
            return false;
        }
    }
    answers.len() == 5
}

// The publisher is held before the step after the first turn's, so that the first pin is at each step in turn.
#[test]
fn first_pins_are_at_each_step(rt: HostRuntime) -> Result<(), Fail> {
    for _ in 0..50 {
        for (step, text) in FIRST_TURNS.iter().enumerate() {
            let step = step as u32;
            let gate = Late::of((3, step.wrapping_add(1)), 0);
            let registry = played(&rt, rt.alloc(), text, &gate)?;
            assert_eq!(rt; first_pin(registry.journal(), 0), Some(step));
            assert_eq!(rt; registry.journal().len(), 14);
            assert!(rt; are_answers(registry.answers()));
        }
    }
    Ok(())
}

// A session has step 0 out while the publisher publishes the steps after it.
#[test]
fn a_pin_is_held_while_steps_are_published(rt: HostRuntime) -> Result<(), Fail> {
    let text = "octopus script 1\nstay\nstay\nsession\nbox 0 0 0 4 0 0\nend\n";
    let gate = Meetings::of([((1, 1), (0, 0)), ((0, 0), (1, 2))]);
    let registry = played(&rt, rt.alloc(), text, &gate)?;
    assert!(rt; !gate.has_note());
    assert_eq!(rt; first_pin(registry.journal(), 0), Some(0));
    assert!(rt;
        matches!(
            registry.journal().first(),
            Some(Event::Pin {
                session: 0,
                step: 0
            })
        )
    );
    assert!(rt; matches!(registry.journal().get(1), Some(Event::Publish { step: 1 })));
    assert!(rt; is_answer(registry.answers().first(), 0, 0, Route::Probe, &[0, 1]));
    Ok(())
}

// Two sessions have one step out at the same time.
#[test]
fn two_sessions_meet_at_a_step(rt: HostRuntime) -> Result<(), Fail> {
    let text = "octopus script 1\nsession\nbox 0 0 0 4 0 0\nsession\nbox 0 0 0 4 0 0\nend\n";
    let gate = Meetings::of([((0, 0), (1, 0)), ((1, 0), (0, 0))]);
    let registry = played(&rt, rt.alloc(), text, &gate)?;
    assert!(rt; !gate.has_note());
    assert_eq!(rt; registry.journal().len(), 5);
    Ok(())
}

// Jobs without sessions or without steps, and how many events their journals have.
const BARE: [(&str, usize); 4] = [
    ("octopus script 1\nend\n", 1),
    ("octopus script 1\nstay\nstay\nend\n", 3),
    (
        "octopus script 1\nsession\nsession\nbox 0 0 0 0 0 0\nend\n",
        3,
    ),
    (
        "octopus script 2\nsession\nhold\nbox 0 0 0 0 0 0\nbox 4 0 0 4 0 0\nfree\nend\n",
        3,
    ),
];

#[test]
fn bare_jobs_end(rt: HostRuntime) -> Result<(), Fail> {
    for (text, events) in BARE {
        let registry = played(&rt, rt.alloc(), text, &NoGate)?;
        assert_eq!(rt; registry.journal().len(), events, "{text}");
    }
    Ok(())
}

// A run by `play_job` with memory enough is whole.
#[test]
fn a_played_job_is_whole(rt: HostRuntime) -> Result<(), Fail> {
    let job = small_job(rt.alloc(), THREE_STEPS)?;
    let played = play_job(&rt, rt.alloc(), job, &NoGate)?;
    assert!(rt; matches!(&played, Played::Whole { .. }));
    Ok(())
}
