//! The answer of a box, where nobody counts the reads.
ghost use Rattle.std.specs.Prelude.{◌≡◌, ℕ, ◌<◌, ◌≤◌, length, Contains, IfOk};
ghost use Rattle.std.specs.List.Sorted.{IsStrictlyIncreasing};
ghost use Rattle.mesh_base.specs.Query.{route, answer, scan, IsAnswer, IsCovered};

use crate::by_route::answer_box;
use box_crawl::Marks;
use mesh_base::{BoxQ, NoMemory, Route, VertexList};
use std::alloc::Global;
use std::marker::Brand;
use std::sync::ledger::{Blank, Ledger};
use step_view::{Step, Steps};

// The answer, with a counter of its own.
fn answer_fresh<L: Ledger>(
    alloc: Global,
    blank: Blank,
    step: &Step,
    area: &BoxQ,
    scratch: &mut Marks,
) -> Result<(Route, VertexList), NoMemory>
    requires name { blank.name ≡ L.name }
    requires parts { blank.parts ≡ L.parts }
    requires some { 0 < L.parts }
    requires reach { length step.now.mesh.points ≤ length scratch.old }
    ensures route { IfOk result (λ r. r.0 ≡ route step.now.mesh area.now) }
    ensures list { IfOk result (λ r. r.1 ≡ answer step.now.mesh area.now) }
    ensures answer { IfOk result (λ r. IsAnswer step.now.mesh area.now r.0 r.1) }
    ensures ascending { IfOk result (λ r. IsStrictlyIncreasing r.1) }
    ensures inside { IfOk result (λ r. (v : ℕ) → Contains r.1 v → Contains (scan step.now.mesh area.now) v) }
    ensures covered { IfOk result (λ r. IsCovered step.now.mesh area.now → r.1 ≡ scan step.now.mesh area.now) }
    ensures len { length scratch.new ≡ length scratch.old }
{
    let mut reads = Steps::<L>::open(blank);
    answer_box(alloc, step, area, scratch, &mut reads)
}

/// What `answer_box` answers, for a caller that counts no reads.
pub fn answer_plain(
    alloc: Global,
    step: &Step,
    area: &BoxQ,
    scratch: &mut Marks,
) -> Result<(Route, VertexList), NoMemory>
    requires reach { length step.now.mesh.points ≤ length scratch.old }
    ensures route { IfOk result (λ r. r.0 ≡ route step.now.mesh area.now) }
    ensures list { IfOk result (λ r. r.1 ≡ answer step.now.mesh area.now) }
    ensures answer { IfOk result (λ r. IsAnswer step.now.mesh area.now r.0 r.1) }
    ensures ascending { IfOk result (λ r. IsStrictlyIncreasing r.1) }
    ensures inside { IfOk result (λ r. (v : ℕ) → Contains r.1 v → Contains (scan step.now.mesh area.now) v) }
    ensures covered { IfOk result (λ r. IsCovered step.now.mesh area.now → r.1 ≡ scan step.now.mesh area.now) }
    ensures len { length scratch.new ≡ length scratch.old }
{
    answer_fresh::<Brand>(alloc, Blank::new(1), step, area, scratch)
}
