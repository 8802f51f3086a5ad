//! Back from a vertex to ring 0.
ghost use Rattle.std.specs.Prelude.{◌≡◌, ℕ, ◌↔◌, List, length, Contains, IsTrue, IfSome, IfOk, MatchOption};
ghost use Rattle.std.specs.List.Sorted.{IsStrictlyIncreasing};
ghost use Rattle.mesh_base.specs.Mesh.{MeshView};
ghost use Rattle.hop_rings.specs.Paths.{IsShortest};
ghost use Rattle.hop_rings.specs.Rings.{AreRings, AreRingsOfOne, HasSource, IsInRing, IsTrail};

use crate::ring::Ring;
use mesh_base::{NoMemory, VertexList, place_of};
use std::alloc::Global;

// Whether the ring has v.
fn has(ring: &Ring, v: u32) -> bool
    requires { IsStrictlyIncreasing ring.now.vertices }
    ensures { IsTrue result ↔ Contains ring.now.vertices v }
{
    place_of(ring.vertices.items(), v).is_ok()
}

// The number of the ring that has v.
fn ring_of(rings: &[Ring], v: u32) -> Option<usize>
    requires rings { AreRingsOfOne rings.now }
    ensures { MatchOption result ((n : ℕ) → IsInRing rings.now n v → ⊥) (λ n. IsInRing rings.now n v) }
{
    for (n, ring) in rings.iter().enumerate() {
        if has(ring, v) {
            return Some(n);
        }
    }
    None
}

// The source of v in the ring that has it.
fn source_in(ring: &Ring, v: u32) -> u32
    requires ascending { IsStrictlyIncreasing ring.now.vertices }
    requires sources { length ring.now.sources ≡ length ring.now.vertices }
    requires member { Contains ring.now.vertices v }
    ensures { HasSource ring.now v result }
{
    let k = place_of(ring.vertices.items(), v).unwrap();
    let sources = ring.sources.items();
    sources[k]
}

// From ring 0 to v in ring `level`.
fn trail_to(alloc: Global, rings: &[Ring], level: usize, v: u32) -> Result<Vec<u32>, NoMemory>
    requires rings { AreRingsOfOne rings.now }
    requires member { IsInRing rings.now level v }
    ensures { IfOk result (λ path. IsTrail rings.now v path.items) }
{
    let mut path = vec![in alloc; v; level + 1]?;
    let mut n = level;
    while n > 0 {
        let source = source_in(&rings[n], path[n]);
        n -= 1;
        path[n] = source;
    }
    Ok(path)
}

/// A shortest path along edges to v from the vertices of ring 0: one vertex of each ring up to that of v, and each is
/// the source of the next. None where v is in no ring.
///
/// The rings are those of one mesh round some vertices of it, from ring 0 on. The only error is NoMemory.
///
/// It searches each ring for v by halves, and then each ring on the way back. It takes 4 bytes for each vertex of the
/// path, and needs no mesh.
pub fn path_to(alloc: Global, rings: &[Ring], v: u32) -> Result<Option<VertexList>, NoMemory>
    requires rings { AreRingsOfOne rings.now }
    ensures found { IfOk result (λ found. MatchOption found ((n : ℕ) → IsInRing rings.now n v → ⊥)
        (IsTrail rings.now v)) }
    ensures shortest { IfOk result (λ found. IfSome found
        (λ path. (mesh : MeshView) (vs : List ℕ) → AreRings mesh vs rings.now → IsShortest mesh vs v path)) }
{
    match ring_of(rings, v) {
        None => Ok(None),
        Some(level) => Ok(Some(VertexList::of(trail_to(alloc, rings, level, v)?))),
    }
}
