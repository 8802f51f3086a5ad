//! The answer of a box, with its reads counted.
ghost use Rattle.std.specs.Prelude.{◌≡◌, ℕ, ◌+◌, ◌≤◌, length, Contains, IfOk};
ghost use Rattle.std.specs.List.Sorted.{IsStrictlyIncreasing};
ghost use Rattle.mesh_base.specs.Query.{route, answer, scan, IsAnswer, IsCovered, read_bound};

use crate::full::scan;
use box_crawl::{Marks, crawl};
use mesh_base::laws::answers_are_scans;
use mesh_base::{BoxQ, NoMemory, Route, VertexList};
use probe_walk::{Probed, WalkEnd, probe, walk};
use std::alloc::Global;
use std::sync::ledger::Ledger;
use step_view::{Step, Steps};

// The answer, by its three cases.
fn by_cases<L: Ledger>(
    alloc: Global,
    step: &Step,
    area: &BoxQ,
    scratch: &mut Marks,
    reads: &mut Steps<L>,
) -> Result<(Route, VertexList), NoMemory>
    requires reach { length step.now.mesh.points ≤ length scratch.old }
    ensures route { IfOk result (λ r. r.0 ≡ route step.now.mesh area.now) }
    ensures list { IfOk result (λ r. r.1 ≡ answer step.now.mesh area.now) }
    ensures answer { IfOk result (λ r. IsAnswer step.now.mesh area.now r.0 r.1) }
    ensures len { length scratch.new ≡ length scratch.old }
    ensures reads { reads.new ≤ reads.old + read_bound step.now.mesh area.now (answer step.now.mesh area.now) }
{
    let Probed { inside, nearest } = probe(alloc, step, area, reads)?;
    if !inside.items().is_empty() {
        let list = crawl(alloc, step, area, inside.items(), scratch, reads)?;
        return Ok((Route::Probe, list));
    }
    if let Some(from) = nearest {
        if let WalkEnd::Inside { vertex } = walk(step, area, from, reads) {
            let list = crawl(alloc, step, area, &[vertex], scratch, reads)?;
            return Ok((Route::Walk, list));
        }
    }
    let list = scan(alloc, step, area, reads)?;
    Ok((Route::Scan, list))
}

/// The answer of the box, and how it was found: from the surface vertices inside, else from the end of a walk that ends
/// inside, else by a scan. The list is ascending, and each of its vertices is inside. Where the box is covered, that is
/// all vertices inside.
///
/// The marks reach all points of the step. They may be used again for any step that they reach, after NoMemory too. It
/// reads at most the places that `read_bound` counts: the surface, the walk's neighbours, and the neighbours of what it
/// finds, or all vertices where it scans. It takes memory for the list alone.
pub fn answer_box<L: Ledger>(
    alloc: Global,
    step: &Step,
    area: &BoxQ,
    scratch: &mut Marks,
    reads: &mut Steps<L>,
) -> Result<(Route, VertexList), NoMemory>
    requires reach { length step.now.mesh.points ≤ length scratch.old }
    ensures route { IfOk result (λ r. r.0 ≡ route step.now.mesh area.now) }
    ensures list { IfOk result (λ r. r.1 ≡ answer step.now.mesh area.now) }
    ensures answer { IfOk result (λ r. IsAnswer step.now.mesh area.now r.0 r.1) }

    // What follows for the list.
    ensures ascending { IfOk result (λ r. IsStrictlyIncreasing r.1) }
    ensures inside { IfOk result (λ r. (v : ℕ) → Contains r.1 v → Contains (scan step.now.mesh area.now) v) }
    ensures covered { IfOk result (λ r. IsCovered step.now.mesh area.now → r.1 ≡ scan step.now.mesh area.now) }

    ensures len { length scratch.new ≡ length scratch.old }
    ensures reads { reads.new ≤ reads.old + read_bound step.now.mesh area.now (answer step.now.mesh area.now) }
{
    let (route, list) = by_cases(alloc, step, area, scratch, reads)?;
    answers_are_scans();
    Ok((route, list))
}
