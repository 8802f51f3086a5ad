//! Laws of distances and walks.
ghost use Rattle.std.specs.Prelude.{◌≡◌, ◌↔◌, ℕ, ◌+◌, ◌*◌, ◌^◌, ◌<◌, ◌≤◌, List, ◌∷◌, length, slice_index, IsTrue};
ghost use Rattle.mesh_base.specs.Place.{Area, Place, IsPlace, IsArea, is_inside, apart2, dist2};
ghost use Rattle.mesh_base.specs.Mesh.{MeshView};
ghost use Rattle.mesh_base.specs.Walk.{IsWalk, distance, walk};

/// The squared distance from a box is the least of those from its points. It is 0 exactly for places inside, and at
/// most 3·2^62 for coordinates in range.
pub fn distances_are_exact()
    ensures least { (area : Area) (p q : Place) → IsTrue (is_inside area q) → dist2 area p ≤ apart2 p q }
    ensures reached { (area : Area) (p : Place) → IsArea area.lo area.hi
        → (q : Place) × IsTrue (is_inside area q) × (dist2 area p ≡ apart2 p q) }
    ensures zero { (area : Area) (p : Place) → (dist2 area p ≡ 0) ↔ IsTrue (is_inside area p) }
    ensures most { (area : Area) (p : Place)
        → IsArea area.lo area.hi → IsPlace area.lo → IsPlace area.hi → IsPlace p
        → dist2 area p ≤ 3 * 2 ^ 62 }
{}

/// The computed walk is whole: each vertex is followed by its next one, and the last has none.
pub fn walks_are_whole()
    ensures { (mesh : MeshView) (area : Area) (v : ℕ)
        → (ws : List ℕ) × (walk mesh area v ≡ v ∷ ws) × IsWalk mesh area v ws }
{}

/// Along a walk the distance falls strictly, and a walk never meets a vertex twice.
pub fn walks_come_nearer()
    ensures falls { (mesh : MeshView) (area : Area) (v i j : ℕ) → i < j → j < length (walk mesh area v)
        → distance mesh area (slice_index (walk mesh area v) j)
        < distance mesh area (slice_index (walk mesh area v) i) }
    ensures once { (mesh : MeshView) (area : Area) (v i j : ℕ)
        → i < length (walk mesh area v) → j < length (walk mesh area v)
        → slice_index (walk mesh area v) i ≡ slice_index (walk mesh area v) j → i ≡ j }
{}
