//! The crawl over neighbours inside the box.
ghost use Rattle.std.specs.Prelude.{◌≡◌, ℕ, ◌+◌, ◌<◌, ◌≤◌, [], ◌∷◌, ◌++◌, true, not, ◌&&◌, if◌then◌else◌, length, Contains, IfOk, OnOk};
ghost use Rattle.mesh_base.specs.Numbers.{IsListOf};
ghost use Rattle.mesh_base.specs.Place.{is_inside};
ghost use Rattle.mesh_base.specs.Mesh.{neighbours, degree, place};
ghost use Rattle.mesh_base.specs.Query.{is_in, scan, JoinedToOne, joined_to, degrees};
ghost use Rattle.box_crawl.specs.Marked.{is_marked};
ghost use Rattle.box_crawl.specs.Found.{IsTally, IsMore};

use crate::found::{put, put_all};
use crate::marks::Marks;
use mesh_base::{BoxQ, NoMemory, VertexList};
use std::alloc::Global;
use std::sync::ledger::Ledger;
use step_view::{Step, Steps};

// Reads the place of w, unless it is marked, and puts it in, if it is inside.
fn look<L: Ledger>(
    step: &Step,
    area: &BoxQ,
    w: u32,
    found: &mut Vec<u32>,
    marks: &mut Marks,
    reads: &mut Steps<L>,
) -> Result<(), NoMemory>
    requires point { w < length step.now.mesh.points }
    requires reach { length step.now.mesh.points ≤ length marks.old }
    requires tally { IsTally found.old.items marks.old }
    ensures len { length marks.new ≡ length marks.old }
    ensures tally { OnOk result (IsTally found.new.items marks.new) }
    ensures items { OnOk result (found.new.items ≡ found.old.items
        ++ (if not (is_marked marks.old w) && is_inside area.now (place step.now.mesh w) then w ∷ [] else [])) }
    ensures reads { reads.new ≤ reads.old + 1 }
{
    if !marks.is_marked(w) {
        if area.has(step.at(w, reads)) {
            put(found, marks, w)?;
        }
    }
    Ok(())
}

// Puts in the neighbours of v inside.
fn visit<L: Ledger>(
    step: &Step,
    area: &BoxQ,
    v: u32,
    found: &mut Vec<u32>,
    marks: &mut Marks,
    reads: &mut Steps<L>,
) -> Result<(), NoMemory>
    requires point { v < length step.now.mesh.points }
    requires reach { length step.now.mesh.points ≤ length marks.old }
    requires tally { IsTally found.old.items marks.old }
    ensures len { length marks.new ≡ length marks.old }
    ensures tally { OnOk result (IsTally found.new.items marks.new) }
    ensures more { OnOk result (IsMore step.now.mesh area.now v found.old.items found.new.items) }
    ensures done { OnOk result ((w : ℕ) → Contains (neighbours step.now.mesh v) w
        → is_in step.now.mesh area.now w ≡ true → Contains found.new.items w) }
    ensures reads { reads.new ≤ reads.old + degree step.now.mesh v }
{
    for w in step.neighbours(v) {
        look(step, area, *w, found, marks, reads)?;
    }
    Ok(())
}

// Puts in all that inside paths lead to from what is there.
fn spread_all<L: Ledger>(
    step: &Step,
    area: &BoxQ,
    found: &mut Vec<u32>,
    marks: &mut Marks,
    reads: &mut Steps<L>,
) -> Result<(), NoMemory>
    requires inside { (s : ℕ) → Contains found.old.items s → Contains (scan step.now.mesh area.now) s }
    requires reach { length step.now.mesh.points ≤ length marks.old }
    requires tally { IsTally found.old.items marks.old }
    ensures len { length marks.new ≡ length marks.old }
    ensures tally { OnOk result (IsTally found.new.items marks.new) }
    ensures every { OnOk result ((w : ℕ) → JoinedToOne step.now.mesh area.now found.old.items w
        → Contains found.new.items w) }
    ensures only { OnOk result ((w : ℕ) → Contains found.new.items w
        → JoinedToOne step.now.mesh area.now found.old.items w) }
    ensures reads { reads.new ≤ reads.old + degrees step.now.mesh area.now
        (joined_to step.now.mesh area.now found.old.items) }
{
    let mut at = 0;
    while at < found.len() {
        let v = found[at];
        visit(step, area, v, found, marks, reads)?;
        at += 1;
    }
    Ok(())
}

/// The vertices that are joined to the seeds by paths from neighbour to neighbour inside the box, ascending. The seeds
/// are among them.
///
/// The seeds are vertices inside, and may come more than once. The marks reach all points of the step. Any such marks
/// will do, and they may be used again for any step that they reach, after NoMemory too.
///
/// It looks once at each vertex that it finds, reads at most one place for each neighbour of it, and sorts what it
/// found, whatever the size of the mesh. Once in 2^32 - 1 crawls it passes over all marks. It takes memory for the list
/// alone.
pub fn crawl<L: Ledger>(
    alloc: Global,
    step: &Step,
    area: &BoxQ,
    seeds: &[u32],
    scratch: &mut Marks,
    reads: &mut Steps<L>,
) -> Result<VertexList, NoMemory>
    requires seeds { (s : ℕ) → Contains seeds.now s → Contains (scan step.now.mesh area.now) s }
    requires reach { length step.now.mesh.points ≤ length scratch.old }
    ensures joined { IfOk result (IsListOf (JoinedToOne step.now.mesh area.now seeds.now)) }
    ensures list { IfOk result (λ list. list ≡ joined_to step.now.mesh area.now seeds.now) }
    ensures len { length scratch.new ≡ length scratch.old }
    ensures reads { reads.new ≤ reads.old + degrees step.now.mesh area.now
        (joined_to step.now.mesh area.now seeds.now) }
{
    scratch.clear();
    let mut found = Vec::new(alloc);
    put_all(&mut found, scratch, seeds)?;
    spread_all(step, area, &mut found, scratch, reads)?;
    found.sort_unstable();
    Ok(VertexList::of(found))
}
