//! Laws over the definitions.
ghost use Rattle.std.specs.Prelude.{◌≡◌, ℕ, List, true, Result, Ok};
ghost use Rattle.mesh_base.specs.Mesh.{MeshView, IsMesh};
ghost use Rattle.vtk_legacy.specs.MeshText.{Fault, mesh_text, blank_line_len};
ghost use Rattle.vtk_legacy.specs.Metadata.{EndsAtBlankLine};

/// Each text has an outcome, a mesh or its first fault, and only one.
pub fn texts_have_one_outcome()
    ensures one { (text : List ℕ) → (outcome : Result MeshView Fault) × (mesh_text text ≡ outcome) }
    ensures only { (text : List ℕ) (a b : Result MeshView Fault) → mesh_text text ≡ a → mesh_text text ≡ b → a ≡ b }
{}

/// The mesh of a text is within the limits, and each of its cells has four different points of it.
pub fn texts_have_valid_meshes()
    ensures { (text : List ℕ) (mesh : MeshView) → mesh_text text ≡ Ok mesh → IsMesh mesh.points mesh.cells }
{}

/// A METADATA part ends behind its first line of blanks, and where there is none with the text.
pub fn metadata_ends_at_a_blank_line()
    ensures { (bytes : List ℕ) → EndsAtBlankLine bytes (blank_line_len true bytes) }
{}
