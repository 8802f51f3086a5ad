//! One ring more.
ghost use Rattle.std.specs.Prelude.{◌≡◌, ℕ, suc, ◌<◌, List, [], ◌∷◌, ◌++◌, if◌then◌else◌, length, slice_index, slice_set, Some, None, Contains, IfOk, OnOk, IsTrue};
ghost use Rattle.mesh_base.specs.Numbers.{IsListOf};
ghost use Rattle.mesh_base.specs.Mesh.{are_neighbours};
ghost use Rattle.hop_rings.specs.Paths.{IsLevel};
ghost use Rattle.hop_rings.specs.Rings.{IsRing};
ghost use Rattle.hop_rings.specs.Reached.{AreNear, IsSpread, first_near, from_at, is_reached};

use crate::ring::Ring;
use mesh_base::{NoMemory, VertexList};
use std::alloc::Global;
use step_view::Step;

// Puts w in, unless it was reached, as reached from u.
fn reach(w: u32, u: u32, from: &mut [Option<u32>], found: &mut Vec<u32>) -> Result<(), NoMemory>
    requires { w < length from.old }
    ensures from { OnOk result (from.new ≡ (if is_reached from.old w then from.old
        else slice_set from.old w (Some u))) }
    ensures found { OnOk result (found.new.items ≡ (if is_reached from.old w then found.old.items
        else found.old.items ++ w ∷ [])) }
{
    if from[w as usize].is_none() {
        found.push(w)?;
        from[w as usize] = Some(u);
    }
    Ok(())
}

// Puts in the neighbours of u that were not reached.
fn visit(
    step: &Step,
    u: u32,
    from: &mut [Option<u32>],
    found: &mut Vec<u32>,
) -> Result<(), NoMemory>
    requires point { u < length step.now.mesh.points }
    requires points { length from.old ≡ length step.now.mesh.points }
    ensures { OnOk result (IsSpread (λ w. if are_neighbours step.now.mesh.cells u w then Some u
        else None) from.old from.new found.old.items found.new.items) }
{
    for w in step.neighbours(u) {
        reach(*w, u, from, found)?;
    }
    Ok(())
}

// Puts in the neighbours of all these vertices that were not reached.
fn visit_all(
    step: &Step,
    ring: &[u32],
    from: &mut [Option<u32>],
    found: &mut Vec<u32>,
) -> Result<(), NoMemory>
    requires ring { (u : ℕ) → Contains ring.now u → u < length step.now.mesh.points }
    requires points { length from.old ≡ length step.now.mesh.points }
    requires empty { found.old.items ≡ [] }
    ensures { OnOk result (IsSpread (first_near step.now.mesh ring.now) from.old from.new [] found.new.items) }
{
    for u in ring {
        visit(step, *u, from, found)?;
    }
    Ok(())
}

// Where each of these points was reached from.
fn sources_of(alloc: Global, vertices: &[u32], from: &[Option<u32>]) -> Result<Vec<u32>, NoMemory>
    requires points { (v : ℕ) → Contains vertices.now v → v < length from.now }
    requires reached { (v : ℕ) → Contains vertices.now v → IsTrue (is_reached from.now v) }
    ensures len { IfOk result (λ sources. length sources.items ≡ length vertices.now) }
    ensures sources { IfOk result (λ sources. (k : ℕ) → k < length vertices.now
        → from_at from.now (slice_index vertices.now k) ≡ Some (slice_index sources.items k)) }
{
    let mut sources = Vec::with_capacity(alloc, vertices.len())?;
    for v in vertices {
        sources.push(from[*v as usize].unwrap())?;
    }
    Ok(sources)
}

// The ring behind this one, where `from` says what was reached up to it.
pub(crate) fn next_ring(
    alloc: Global,
    step: &Step,
    ring: &[u32],
    from: &mut [Option<u32>],
) -> Result<Ring, NoMemory>
    requires ring { (u : ℕ) → Contains ring.now u → u < length step.now.mesh.points }
    requires points { length from.old ≡ length step.now.mesh.points }
    ensures ring { IfOk result (λ next. (vs : List ℕ) (n : ℕ) → IsListOf (IsLevel step.now.mesh vs n) ring.now
        → AreNear step.now.mesh vs n from.old → IsRing step.now.mesh vs (suc n) next) }
    ensures near { OnOk result ((vs : List ℕ) (n : ℕ) → IsListOf (IsLevel step.now.mesh vs n) ring.now
        → AreNear step.now.mesh vs n from.old → AreNear step.now.mesh vs (suc n) from.new) }
{
    let mut found = Vec::new(alloc);
    visit_all(step, ring, from, &mut found)?;
    found.sort_unstable();
    let sources = sources_of(alloc, &found, from)?;
    Ok(Ring {
        vertices: VertexList::of(found),
        sources: VertexList::of(sources),
    })
}
