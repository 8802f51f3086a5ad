//! The full scan of a step.
ghost use Rattle.std.specs.Prelude.{◌≡◌, ◌+◌, ◌<◌, ◌≤◌, [], ◌∷◌, ◌++◌, if◌then◌else◌, length, IfOk, OnOk};
ghost use Rattle.mesh_base.specs.Mesh.{is_vertex, vertices};
ghost use Rattle.mesh_base.specs.Query.{is_in, scan};

use mesh_base::{BoxQ, NoMemory, VertexList};
use std::alloc::Global;
use std::sync::ledger::Ledger;
use step_view::{Step, Steps};

// Whether some live cell has v: it then has neighbours.
fn is_vertex(step: &Step, v: u32) -> bool
    requires { v < length step.now.mesh.points }
    ensures { result ≡ is_vertex step.now.mesh.cells v }
{
    let _valid = step.points();
    !step.neighbours(v).is_empty()
}

// Puts v in, if it is a vertex inside.
fn put_inside<L: Ledger>(
    step: &Step,
    area: &BoxQ,
    v: u32,
    found: &mut Vec<u32>,
    reads: &mut Steps<L>,
) -> Result<(), NoMemory>
    requires { v < length step.now.mesh.points }
    ensures items { OnOk result (found.new.items ≡ found.old.items
        ++ (if is_in step.now.mesh area.now v then v ∷ [] else [])) }
    ensures reads { reads.new ≡ reads.old + (if is_vertex step.now.mesh.cells v then 1 else 0) }
{
    if is_vertex(step, v) {
        if area.has(step.at(v, reads)) {
            found.push(v)?;
        }
    }
    Ok(())
}

/// All vertices inside the box, ascending. It looks at every vertex, and reads the place of each once.
pub fn scan<L: Ledger>(
    alloc: Global,
    step: &Step,
    area: &BoxQ,
    reads: &mut Steps<L>,
) -> Result<VertexList, NoMemory>
    ensures list { IfOk result (λ list. list ≡ scan step.now.mesh area.now) }
    ensures reads { reads.new ≤ reads.old + length (vertices step.now.mesh) }
{
    let mut found = Vec::new(alloc);
    for v in 0..step.points() {
        put_inside(step, area, v, &mut found, reads)?;
    }
    Ok(VertexList::of(found))
}
