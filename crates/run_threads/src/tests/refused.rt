//! A run that is refused memory at some place.
use super::jobs::try_small_job;
use crate::{Played, play_job};
use oct_edge::NoGate;
use std::test::Fail;
use step_registry::Registry;

// Three plans, each with another edit or motion, and three sessions.
const TEXT: &str =
    "octopus script 2\nsplit 0 1 1 1\nshift 1 0 0\npoint 9 9 9\nrelax\nshake 7 3\nsession\nbox 0 0 0 7 7 7\nwait 1\nhold\nbox 0 0 0 7 0 0\nbox 1 1 1 1 1 1\nfree\nsession\nwait 3\nbox 0 0 0 7 7 7\nsession\nwait 2\nbox 0 0 0 1 1 1\nbox 0 0 0 7 0 0\nend\n";

// A registry of a run that was cut short is closed and not whole, and holds the newest step alone.
fn is_cut_short(registry: &Registry) -> bool {
    registry.closed() && !registry.is_whole() && registry.held().len() == 1
}

// Whether the run ended as a run may.
#[test]
fn refused_runs_end(rt: HostRuntime) -> Result<(), Fail> {
    let Some(job) = try_small_job(rt.alloc(), TEXT) else {
        return Ok(());
    };
    match play_job(&rt, rt.alloc(), job, &NoGate) {
        Ok(Played::Whole { registry }) => assert!(rt; registry.is_whole()),
        Ok(Played::NoMemory { registry }) => assert!(rt; is_cut_short(&registry)),
        Err(_) => {}
    }
    Ok(())
}
