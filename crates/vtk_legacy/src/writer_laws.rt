//! Laws of the text that is written. Each is a function that does nothing and whose contract is the law.
ghost use Rattle.std.specs.Prelude.{◌≡◌, ◌++◌, ◌+◌, List, length, Option, All, Ok};
ghost use Rattle.mesh_base.specs.Mesh.{MeshView, Corners, IsMesh, live};
ghost use Rattle.mesh_base.specs.Place.{IsPlace};
ghost use Rattle.vtk_legacy.specs.MeshText.{mesh_text};
ghost use Rattle.vtk_legacy.specs.Written.{mesh_spelling, without_absent, points_spelling, count_spelling, cells_spelling, types_spelling};

/// The text that is written of a mesh is accepted, and is read as the mesh without its absent cells.
pub fn written_is_read()
    ensures { (mesh : MeshView) → IsMesh mesh.points mesh.cells → All IsPlace mesh.points →
        mesh_text (mesh_spelling mesh) ≡ Ok (without_absent mesh) }
{}

/// A mesh without its absent cells is a mesh, and the same text is written of it.
pub fn written_meshes_are_whole()
    ensures mesh { (mesh : MeshView) → IsMesh mesh.points mesh.cells →
        IsMesh (without_absent mesh).points (without_absent mesh).cells }
    ensures text { (mesh : MeshView) → mesh_spelling (without_absent mesh) ≡ mesh_spelling mesh }
{}

/// The text of a mesh is its points, the number of its live cells, its cells and their types; and that of cells is that
/// of their chunks.
pub fn parts_are_the_text()
    ensures text { (mesh : MeshView) → mesh_spelling mesh
        ≡ points_spelling mesh.points ++ (count_spelling (length (live mesh.cells))
        ++ (cells_spelling mesh.cells ++ types_spelling (length (live mesh.cells)))) }
    ensures chunks { (a b : List (Option Corners)) → cells_spelling (a ++ b) ≡ cells_spelling a ++ cells_spelling b }
    ensures live { (a b : List (Option Corners)) → length (live (a ++ b)) ≡ length (live a) + length (live b) }
{}
