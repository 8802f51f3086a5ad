//! Reports written by hand, of jobs, answers and journals that stand here.
use super::*;
use crate::text::text_of;
use mesh_base::{Answer, Route, VertexList};
use run_script::Job;
use sample_meshes::one_cell;
use script_format::read_script;
use std::alloc::{AllocError, Global};
use std::process::Abort;
use std::test::Fail;
use step_registry::Event;

// The job of a script on one tetrahedron.
fn job_of(rt: &impl Abort, alloc: Global, script: &str) -> Result<Job, Fail> {
    assert!(rt; script.len() < 1000);
    let script = read_script(alloc, script.as_bytes())?;
    Ok(Job::check(alloc, one_cell(alloc)?, script)?)
}

// An answer of session 0.
fn answer(
    alloc: Global,
    query: u32,
    step: u32,
    route: Route,
    vertices: &[u32],
) -> Result<Answer, AllocError> {
    let mut items = Vec::new(alloc);
    items.extend_from_slice(vertices)?;
    Ok(Answer {
        session: 0,
        query,
        step,
        route,
        vertices: VertexList::of(items),
    })
}

const MOVED: &str =
    "octopus script 1\nshift 1 0 0\nshift 1 0 0\nshift 1 0 0\nsession\nwait 3\nbox 3 0 0 7 0 0\nend\n";

const MOVED_REPORT: &str = "octopus report 1
steps 3
sessions 1
session 0 boxes 1
box 0 step 3 route probe count 2
0 1
journal 6
publish 1
publish 2
publish 3
pin 0 3
unpin 0 3
close
end
";

#[test]
fn a_session_that_waits(rt: HostRuntime) -> Result<(), Fail> {
    let alloc = rt.alloc();
    let job = job_of(&rt, alloc, MOVED)?;
    let journal = [
        Event::Publish { step: 1 },
        Event::Publish { step: 2 },
        Event::Publish { step: 3 },
        Event::Pin {
            session: 0,
            step: 3,
        },
        Event::Unpin {
            session: 0,
            step: 3,
            answered: true,
        },
        Event::Close,
    ];
    let answers = [answer(alloc, 0, 3, Route::Probe, &[0, 1])?];
    let text = text_of(alloc, &job, &answers, &journal)?;
    assert!(rt; text.as_slice() == MOVED_REPORT.as_bytes());
    Ok(())
}

const HELD: &str = "octopus script 2\nsession\nhold\nbox 4 0 0 4 0 0\nbox 9 9 9 9 9 9\nfree\nend\n";

const HELD_REPORT: &str = "octopus report 1
steps 0
sessions 1
session 0 boxes 2
box 0 step 0 route probe count 1
1
box 1 step 0 route scan count 0
journal 3
close
pin 0 0
unpin 0 0
end
";

#[test]
fn a_session_that_holds_a_step(rt: HostRuntime) -> Result<(), Fail> {
    let alloc = rt.alloc();
    let job = job_of(&rt, alloc, HELD)?;
    let journal = [
        Event::Close,
        Event::Pin {
            session: 0,
            step: 0,
        },
        Event::Unpin {
            session: 0,
            step: 0,
            answered: true,
        },
    ];
    let answers = [
        answer(alloc, 0, 0, Route::Probe, &[1])?,
        answer(alloc, 1, 0, Route::Scan, &[])?,
    ];
    let text = text_of(alloc, &job, &answers, &journal)?;
    assert!(rt; text.as_slice() == HELD_REPORT.as_bytes());
    Ok(())
}
