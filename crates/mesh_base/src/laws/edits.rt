//! Laws of edits and motions.
ghost use Rattle.std.specs.Prelude.{◌≡◌, ℕ, All, length};
ghost use Rattle.mesh_base.specs.Place.{IsPlace};
ghost use Rattle.mesh_base.specs.Mesh.{MeshView, IsMesh};
ghost use Rattle.mesh_base.specs.Edit.{AddsInRange, EditFits, edited};
ghost use Rattle.mesh_base.specs.Kernel.{moved};
ghost use Rattle.mesh_base.specs.declared.edit.Edit.{Edit};
ghost use Rattle.mesh_base.specs.declared.edit.Kernel.{Kernel};

/// An edit that fits a valid mesh gives a valid mesh again, and keeps every coordinate from -2^30 to 2^30.
pub fn edits_keep_meshes()
    ensures valid { (mesh : MeshView) (edit : Edit)
        → IsMesh mesh.points mesh.cells → EditFits mesh edit
        → IsMesh (edited mesh edit).points (edited mesh edit).cells }
    ensures in_range { (mesh : MeshView) (edit : Edit)
        → All IsPlace mesh.points → AddsInRange edit → All IsPlace (edited mesh edit).points }
{}

/// A motion gives each point one place, and keeps every coordinate from -2^30 to 2^30.
pub fn motions_stay_in_range()
    ensures each { (mesh : MeshView) (kernel : Kernel) (k : ℕ) → length (moved mesh kernel k) ≡ length mesh.points }
    ensures in_range { (mesh : MeshView) (kernel : Kernel) (k : ℕ) → All IsPlace (moved mesh kernel k) }
{}
