//! How many places are read for boxes of a cell that was split twice. A count is a proof: nothing is counted when it
//! runs.
ghost use Rattle.std.specs.Prelude.{◌≡◌, ◌<◌, ◌≤◌, [], ◌∷◌, length, IfOk};
ghost use Rattle.mesh_base.specs.Samples.{at, box, split_twice};
ghost use Rattle.mesh_base.specs.declared.answer.Route.TheVariants.{Probe, Walk, Scan};

use crate::by_route::answer_box;
use box_crawl::Marks;
use mesh_base::laws::sample_answers;
use mesh_base::{BoxQ, NoMemory, Route, VertexList};
use std::alloc::Global;
use std::sync::ledger::{Blank, Ledger};
use step_view::{Step, Steps};

/// A box round one vertex in the middle is answered by at most 20 reads: 4 of the surface, 1 + 5 + 5 of the walk, and 5
/// of what it finds.
pub fn inner_reads<L: Ledger>(
    alloc: Global,
    blank: Blank,
    step: &Step,
    area: &BoxQ,
    scratch: &mut Marks,
) -> Result<(Route, VertexList), NoMemory>
    requires name { blank.name ≡ L.name }
    requires parts { blank.parts ≡ L.parts }
    requires some { 0 < L.parts }
    requires reach { length step.now.mesh.points ≤ length scratch.old }
    requires mesh { step.now.mesh ≡ split_twice }
    requires area { area.now ≡ box (at 4 4 4) (at 4 4 4) }
    ensures route { IfOk result (λ r. r.0 ≡ Walk) }
    ensures list { IfOk result (λ r. r.1 ≡ 4 ∷ []) }
    ensures len { length scratch.new ≡ length scratch.old }
{
    sample_answers();
    let mut reads = Steps::<L>::open(blank);
    let answer = answer_box(alloc, step, area, scratch, &mut reads)?;
    reads.at_most(20);
    Ok(answer)
}

/// A box far outside is answered by at most 15 reads: 4 of the surface, 1 + 4 of the walk, which is stuck, and 6 of the
/// scan.
pub fn far_reads<L: Ledger>(
    alloc: Global,
    blank: Blank,
    step: &Step,
    area: &BoxQ,
    scratch: &mut Marks,
) -> Result<(Route, VertexList), NoMemory>
    requires name { blank.name ≡ L.name }
    requires parts { blank.parts ≡ L.parts }
    requires some { 0 < L.parts }
    requires reach { length step.now.mesh.points ≤ length scratch.old }
    requires mesh { step.now.mesh ≡ split_twice }
    requires area { area.now ≡ box (at 100 100 100) (at 101 101 101) }
    ensures route { IfOk result (λ r. r.0 ≡ Scan) }
    ensures list { IfOk result (λ r. r.1 ≡ []) }
    ensures len { length scratch.new ≡ length scratch.old }
{
    sample_answers();
    let mut reads = Steps::<L>::open(blank);
    let answer = answer_box(alloc, step, area, scratch, &mut reads)?;
    reads.at_most(15);
    Ok(answer)
}

/// A box with one vertex of the surface inside is answered by at most 8 reads: 4 of the surface, and 4 of what it
/// finds.
pub fn front_reads<L: Ledger>(
    alloc: Global,
    blank: Blank,
    step: &Step,
    area: &BoxQ,
    scratch: &mut Marks,
) -> Result<(Route, VertexList), NoMemory>
    requires name { blank.name ≡ L.name }
    requires parts { blank.parts ≡ L.parts }
    requires some { 0 < L.parts }
    requires reach { length step.now.mesh.points ≤ length scratch.old }
    requires mesh { step.now.mesh ≡ split_twice }
    requires area { area.now ≡ box (at 2 0 0) (at 16 6 3) }
    ensures route { IfOk result (λ r. r.0 ≡ Probe) }
    ensures list { IfOk result (λ r. r.1 ≡ 1 ∷ []) }
    ensures len { length scratch.new ≡ length scratch.old }
{
    sample_answers();
    let mut reads = Steps::<L>::open(blank);
    let answer = answer_box(alloc, step, area, scratch, &mut reads)?;
    reads.at_most(8);
    Ok(answer)
}

/// A box round all is answered by at most 32 reads: 4 of the surface, and 28 of what it finds.
pub fn whole_reads<L: Ledger>(
    alloc: Global,
    blank: Blank,
    step: &Step,
    area: &BoxQ,
    scratch: &mut Marks,
) -> Result<(Route, VertexList), NoMemory>
    requires name { blank.name ≡ L.name }
    requires parts { blank.parts ≡ L.parts }
    requires some { 0 < L.parts }
    requires reach { length step.now.mesh.points ≤ length scratch.old }
    requires mesh { step.now.mesh ≡ split_twice }
    requires area { area.now ≡ box (at 0 0 0) (at 16 16 16) }
    ensures route { IfOk result (λ r. r.0 ≡ Probe) }
    ensures list { IfOk result (λ r. r.1 ≡ 0 ∷ 1 ∷ 2 ∷ 3 ∷ 4 ∷ 5 ∷ []) }
    ensures len { length scratch.new ≡ length scratch.old }
{
    sample_answers();
    let mut reads = Steps::<L>::open(blank);
    let answer = answer_box(alloc, step, area, scratch, &mut reads)?;
    reads.at_most(32);
    Ok(answer)
}
