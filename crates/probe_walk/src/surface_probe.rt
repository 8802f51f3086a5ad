//! One pass over the surface.
ghost use Rattle.std.specs.Prelude.{◌≡◌, ◌+◌, ◌≤◌, [], ◌∷◌, ◌++◌, if◌then◌else◌, length, IfOk, OnOk};
ghost use Rattle.std.specs.Option.{option_map};
ghost use Rattle.mesh_base.specs.Mesh.{surface};
ghost use Rattle.mesh_base.specs.Query.{probed, start};

use crate::near::{Near, better_of, near_of};
use mesh_base::{BoxQ, NoMemory, VertexList};
use std::alloc::Global;
use std::sync::ledger::Ledger;
use step_view::{Step, Steps};

/// What one pass over the surface finds about a box.
#[derive(Drop)]
pub struct Probed {
    /// The surface vertices inside, ascending.
    pub inside: VertexList,
    /// The surface vertex that is nearest to the box, and of those at the same distance the one with the least number.
    /// None where there is no surface.
    pub nearest: Option<u32>,
}

// Appends v if it is wanted.
fn push_if(found: &mut Vec<u32>, v: u32, wanted: bool) -> Result<(), NoMemory>
    ensures { OnOk result (found.new.items ≡ found.old.items ++ (if wanted then v ∷ [] else [])) }
{
    if wanted {
        found.push(v)?;
    }
    Ok(())
}

// The vertex alone.
fn vertex_of(best: Option<Near>) -> Option<u32>
    ensures { result ≡ option_map (λ n. n.vertex) best }
{
    match best {
        Some(near) => Some(near.vertex),
        None => None,
    }
}

/// The surface vertices inside the box, and the nearest one. It makes one pass over the surface and reads one place for
/// each of its vertices; after NoMemory at most that many. It takes memory for the list of those inside alone.
pub fn probe<L: Ledger>(
    alloc: Global,
    step: &Step,
    area: &BoxQ,
    reads: &mut Steps<L>,
) -> Result<Probed, NoMemory>
    ensures inside { IfOk result (λ r. r.inside ≡ probed step.now.mesh area.now) }
    ensures nearest { IfOk result (λ r. r.nearest ≡ start step.now.mesh area.now) }
    ensures all { OnOk result (reads.new ≡ reads.old + length (surface step.now.mesh)) }
    ensures reads { reads.new ≤ reads.old + length (surface step.now.mesh) }
{
    let mut inside = Vec::new(alloc);
    let mut best = None;
    for v in step.surface() {
        let near = near_of(step, area, *v, reads);
        push_if(&mut inside, *v, near.distance == 0)?;
        best = Some(better_of(best, near));
    }
    Ok(Probed {
        inside: VertexList::of(inside),
        nearest: vertex_of(best),
    })
}
