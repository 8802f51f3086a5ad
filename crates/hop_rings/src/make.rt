//! Rings round a list of vertices, and round the answer of a box.
ghost use Rattle.std.specs.Prelude.{◌≡◌, ℕ, ◌+◌, ◌<◌, ◌≤◌, List, length, Contains, IfOk};
ghost use Rattle.std.specs.List.Sorted.{IsStrictlyIncreasing};
ghost use Rattle.mesh_base.specs.Mesh.{vertices};
ghost use Rattle.mesh_base.specs.Query.{answer, route};
ghost use Rattle.hop_rings.specs.Rings.{AreRings, AreRingsOfOne, IsRing};
ghost use Rattle.hop_rings.specs.Reached.{AreNear};

use crate::ring::{Ring, RingList};
use crate::spread::next_ring;
use box_crawl::Marks;
use box_query::answer_plain;
use mesh_base::{BoxQ, NoMemory, Route, VertexList};
use std::alloc::Global;
use step_view::Step;

// For each point nothing, but that these are reached from themselves.
fn begin(alloc: Global, step: &Step, inside: &[u32]) -> Result<Vec<Option<u32>>, NoMemory>
    requires vertices { (v : ℕ) → Contains inside.now v → Contains (vertices step.now.mesh) v }
    ensures near { IfOk result (λ from. AreNear step.now.mesh inside.now 0 from.items) }
{
    let mut from = Vec::new(alloc);
    from.resize(step.points() as usize, None)?;
    for v in inside {
        from[*v as usize] = Some(*v);
    }
    Ok(from)
}

// Ring 0.
fn first_ring(alloc: Global, step: &Step, inside: &[u32]) -> Result<Ring, NoMemory>
    requires ascending { IsStrictlyIncreasing inside.now }
    requires vertices { (v : ℕ) → Contains inside.now v → Contains (vertices step.now.mesh) v }
    ensures { IfOk result (IsRing step.now.mesh inside.now 0) }
{
    Ok(Ring {
        vertices: VertexList::of(inside.to_vec(alloc)?),
        sources: VertexList::of(Vec::new(alloc)),
    })
}

/// The rings 0 to `most` of a step round these vertices: ring i has the vertices to which the shortest path along edges
/// from one of these has i edges. A vertex that no path leads to is in none, so behind the last one rings are empty.
///
/// The vertices are ascending without repeats, and `most` is a number of edges, at most 1,000. The only error is
/// NoMemory, and then nothing is kept.
///
/// It looks once at each vertex that it lists and at its neighbours, sorts each ring, and reads no place. Beside the
/// rings it takes 8 bytes for each point of the step, and passes over them once.
pub fn rings(alloc: Global, step: &Step, inside: &[u32], most: u32) -> Result<RingList, NoMemory>
    requires ascending { IsStrictlyIncreasing inside.now }
    requires vertices { (v : ℕ) → Contains inside.now v → Contains (vertices step.now.mesh) v }
    requires most { most ≤ 1000 }
    ensures len { IfOk result (λ rings. length rings ≡ most + 1) }
    ensures rings { IfOk result (AreRings step.now.mesh inside.now) }
    ensures one { IfOk result AreRingsOfOne }
{
    let mut from = begin(alloc, step, inside)?;
    let mut rings = Vec::with_capacity(alloc, most as usize + 1)?;
    rings.push(first_ring(alloc, step, inside)?)?;
    for n in 0..most as usize {
        let last: &Ring = &rings[n];
        let ring = next_ring(alloc, step, last.vertices.items(), &mut from)?;
        rings.push(ring)?;
    }
    Ok(RingList::of(rings))
}

/// How a box is answered on a step, and the rings 0 to `most` round the answer, as `rings` makes them.
///
/// The marks reach all points of the step, and `most` is a number of edges, at most 1,000. The only error is NoMemory;
/// the marks may be used again after it. It costs the answer of the box and the rings.
pub fn rings_round(
    alloc: Global,
    step: &Step,
    area: &BoxQ,
    scratch: &mut Marks,
    most: u32,
) -> Result<(Route, RingList), NoMemory>
    requires reach { length step.now.mesh.points ≤ length scratch.old }
    requires most { most ≤ 1000 }
    ensures route { IfOk result (λ r. r.0 ≡ route step.now.mesh area.now) }
    ensures count { IfOk result (λ r. length r.1 ≡ most + 1) }
    ensures rings { IfOk result (λ r. AreRings step.now.mesh (answer step.now.mesh area.now) r.1) }
    ensures one { IfOk result (λ r. AreRingsOfOne r.1) }
    ensures len { length scratch.new ≡ length scratch.old }
{
    let (route, inside) = answer_plain(alloc, step, area, scratch)?;
    let rings = rings(alloc, step, inside.items(), most)?;
    Ok((route, rings))
}
