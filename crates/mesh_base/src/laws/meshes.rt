//! Laws of neighbours, faces and the surface.
ghost use Rattle.std.specs.Prelude.{◌≡◌, ◌↔◌, ℕ, ◌≤◌, List, Option, Contains, IsTrue};
ghost use Rattle.mesh_base.specs.Mesh.{MeshView, Corners, Face, AreAllDifferent, IsFace, IsMesh, live, is_vertex, are_neighbours, neighbours, faces, face_count, count, surface, vertices};

/// Each corner of a live cell is a vertex of a valid mesh, and a vertex is a corner of a live cell.
pub fn vertices_are_corners()
    ensures { (mesh : MeshView) (v : ℕ) → IsMesh mesh.points mesh.cells
        → Contains (vertices mesh) v ↔ IsTrue (is_vertex mesh.cells v) }
{}

/// Being a neighbour is mutual, and no vertex is its own neighbour.
pub fn neighbours_are_mutual()
    ensures listed { (mesh : MeshView) (v w : ℕ) → IsMesh mesh.points mesh.cells
        → Contains (neighbours mesh v) w → Contains (neighbours mesh w) v }
    ensures symmetric { (cells : List (Option Corners)) (v w : ℕ)
        → IsTrue (are_neighbours cells v w) → IsTrue (are_neighbours cells w v) }
    ensures irreflexive { (cells : List (Option Corners)) (v : ℕ) → ¬ IsTrue (are_neighbours cells v v) }
{}

/// Every surface vertex is a vertex.
pub fn surfaces_are_vertices()
    ensures { (mesh : MeshView) (v : ℕ) → Contains (surface mesh) v → Contains (vertices mesh) v }
{}

/// A face of a live cell is counted at least once. Counting a face among the faces of all live cells is counting the
/// live cells that have all three of its vertices.
pub fn faces_are_counted()
    ensures own { (cells : List (Option Corners)) (c : Corners) (f : Face)
        → Contains (live cells) c → Contains (faces c) f → 1 ≤ count cells f }
    ensures same { (cells : List (Option Corners)) (f : Face)
        → AreAllDifferent cells → IsFace f → face_count cells f ≡ count cells f }
{}
