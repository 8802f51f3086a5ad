//! Laws over the definitions. Each is a function that does nothing and whose contract is the law.
ghost use Rattle.std.specs.Prelude.{◌≡◌, ◌↔◌, List, None};
ghost use Rattle.mesh_base.specs.Mesh.{MeshView};
ghost use Rattle.mesh_base.specs.Edit.{EditFits};
ghost use Rattle.mesh_base.specs.declared.edit.Edit.{Edit};
ghost use Rattle.run_script.specs.declared.script.Item.{Item};
ghost use Rattle.run_script.specs.Scripts.{HoldsClose};
ghost use Rattle.run_script.specs.Jobs.{edit_fault, turns};
ghost use Rattle.run_script.specs.Asks.{asks_of, boxes_of};

/// An edit has no fault on a mesh exactly where it fits the mesh.
pub fn edits_without_fault_are_those_that_fit()
    ensures { (mesh : MeshView) (edit : Edit) → (edit_fault mesh edit ≡ None) ↔ EditFits mesh edit }
{}

/// The boxes of a session's turns, one turn after the other, are the boxes of its items in order, and the need of each
/// one's turn is the greatest wait before it, or 0. Each hold of the items has its end.
pub fn turns_have_the_boxes_in_order()
    ensures { (items : List Item) → HoldsClose None items → boxes_of (turns items) ≡ asks_of items }
{}
