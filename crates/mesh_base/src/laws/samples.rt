//! The definitions worked out on small meshes.
ghost use Rattle.std.specs.Prelude.{◌≡◌, ◌^◌, pos, neg_ℤ, List, [], ◌∷◌, Option, None};
ghost use Rattle.mesh_base.specs.Place.{dist2};
ghost use Rattle.mesh_base.specs.Mesh.{surface, neighbours, vertices, count, face_of};
ghost use Rattle.mesh_base.specs.Scan.{scan};
ghost use Rattle.mesh_base.specs.Parts.{IsCovered};
ghost use Rattle.mesh_base.specs.Walk.{distance};
ghost use Rattle.mesh_base.specs.Answer.{walked};
ghost use Rattle.mesh_base.specs.Edit.{EditFits};
ghost use Rattle.mesh_base.specs.Kernel.{moved};
ghost use Rattle.mesh_base.specs.Samples.{at, cell, box, one_cell, split_once, split_twice, opened, doubled, with_spare, all_fours, far_out, empty, least_corner, greatest_corner, IsWorked};
ghost use Rattle.mesh_base.specs.declared.edit.Edit.TheVariants.{Add, Remove};
ghost use Rattle.mesh_base.specs.declared.edit.Axis.TheVariants.{X, Y, Z};
ghost use Rattle.mesh_base.specs.declared.edit.Kernel.TheVariants.{Stay, Shift, Pull, Shake, Relax, Turn};
ghost use Rattle.mesh_base.specs.declared.answer.Route.TheVariants.{Probe, Walk, Scan};

/// A cell that is split becomes absent, and its quarters come at the end of the list, round the new point. An edit
/// doesn't fit where its cell is absent already or isn't there, or where its corners aren't points or aren't different.
pub fn sample_edits()
    ensures once { split_once.cells ≡ None ∷ cell 4 1 2 3 ∷ cell 0 4 2 3 ∷ cell 0 1 4 3 ∷ cell 0 1 2 4 ∷ [] }
    ensures twice { split_twice.cells
        ≡ None ∷ cell 4 1 2 3 ∷ None ∷ cell 0 1 4 3 ∷ cell 0 1 2 4 ∷ cell 5 4 2 3 ∷ cell 0 5 2 3 ∷ cell 0 4 5 3
        ∷ cell 0 4 2 5 ∷ [] }
    ensures points { split_twice.points ≡ at 0 0 0 ∷ at 16 0 0 ∷ at 0 16 0 ∷ at 0 0 16 ∷ at 4 4 4 ∷ at 2 6 3 ∷ [] }
    ensures removed { opened.cells
        ≡ None ∷ cell 4 1 2 3 ∷ None ∷ None ∷ cell 0 1 2 4 ∷ cell 5 4 2 3 ∷ cell 0 5 2 3 ∷ cell 0 4 5 3
        ∷ cell 0 4 2 5 ∷ [] }
    ensures added { doubled.cells ≡ cell 0 1 2 3 ∷ cell 0 1 2 3 ∷ [] }
    ensures spare { with_spare.points ≡ at 0 0 0 ∷ at 4 0 0 ∷ at 0 4 0 ∷ at 0 0 4 ∷ at 1 0 0 ∷ [] }
    ensures fits { EditFits split_twice (Remove 3) }
    ensures gone { ¬ EditFits opened (Remove 3) }
    ensures no_cell { ¬ EditFits split_twice (Remove 9) }
    ensures no_point { ¬ EditFits split_twice (Add (0 ∷ 1 ∷ 2 ∷ 9 ∷ [])) }
    ensures same_point { ¬ EditFits split_twice (Add (0 ∷ 1 ∷ 2 ∷ 2 ∷ [])) }
{}

/// The neighbours of each vertex of a cell that was split twice.
pub fn sample_neighbours()
    ensures of_0 { neighbours split_twice 0 ≡ 1 ∷ 2 ∷ 3 ∷ 4 ∷ 5 ∷ [] }
    ensures of_1 { neighbours split_twice 1 ≡ 0 ∷ 2 ∷ 3 ∷ 4 ∷ [] }
    ensures of_2 { neighbours split_twice 2 ≡ 0 ∷ 1 ∷ 3 ∷ 4 ∷ 5 ∷ [] }
    ensures of_3 { neighbours split_twice 3 ≡ 0 ∷ 1 ∷ 2 ∷ 4 ∷ 5 ∷ [] }
    ensures of_4 { neighbours split_twice 4 ≡ 0 ∷ 1 ∷ 2 ∷ 3 ∷ 5 ∷ [] }
    ensures of_5 { neighbours split_twice 5 ≡ 0 ∷ 2 ∷ 3 ∷ 4 ∷ [] }
{}

/// The surface stays that of the cell while it is split inside, and grows where a cell is removed. Where each face has
/// two cells there is none.
pub fn sample_surfaces()
    ensures split { surface split_twice ≡ 0 ∷ 1 ∷ 2 ∷ 3 ∷ [] }
    ensures opened { surface opened ≡ 0 ∷ 1 ∷ 2 ∷ 3 ∷ 4 ∷ [] }
    ensures doubled { surface doubled ≡ [] }
    ensures all_fours { surface all_fours ≡ [] }
    ensures shared { count all_fours.cells (face_of 2 0 1) ≡ 2 }
    ensures spare { vertices with_spare ≡ 0 ∷ 1 ∷ 2 ∷ 3 ∷ [] }
    ensures empty { surface empty ≡ [] }
{}

/// Routes, answers and read bounds of some boxes.
pub fn sample_answers()
    // The walk goes from 0 to 4, which lies inside.
    ensures inner { IsWorked split_twice (box (at 4 4 4) (at 4 4 4)) Walk (4 ∷ []) 20 }
    ensures inner_walk { walked split_twice (box (at 4 4 4) (at 4 4 4)) ≡ 0 ∷ 4 ∷ [] }

    // The walk is stuck at 1, the first of three vertices at one distance.
    ensures far { IsWorked split_twice (box (at 100 100 100) (at 101 101 101)) Scan [] 15 }
    ensures far_walk { walked split_twice (box (at 100 100 100) (at 101 101 101)) ≡ 1 ∷ [] }
    ensures far_distance { distance split_twice (box (at 100 100 100) (at 101 101 101)) 1 ≡ 27056 }

    // Inside are 1 and 5, which are no neighbours, and 5 isn't of the surface.
    ensures front { IsWorked split_twice (box (at 2 0 0) (at 16 6 3)) Probe (1 ∷ []) 8 }
    ensures front_scan { scan split_twice (box (at 2 0 0) (at 16 6 3)) ≡ 1 ∷ 5 ∷ [] }
    ensures front_uncovered { ¬ IsCovered split_twice (box (at 2 0 0) (at 16 6 3)) }

    ensures whole { IsWorked split_twice (box (at 0 0 0) (at 16 16 16)) Probe (0 ∷ 1 ∷ 2 ∷ 3 ∷ 4 ∷ 5 ∷ []) 32 }
    ensures whole_covered { IsCovered split_twice (box (at 0 0 0) (at 16 16 16)) }

    // Without a surface every box is scanned.
    ensures doubled { IsWorked doubled (box (at 0 0 0) (at 4 0 0)) Scan (0 ∷ 1 ∷ []) 4 }
    ensures all_fours { IsWorked all_fours (box (at 0 0 0) (at 1 1 1)) Scan (0 ∷ 4 ∷ []) 5 }
    ensures empty { IsWorked empty (box (at 0 0 0) (at 16 16 16)) Scan [] 0 }

    // A point that no cell has is never answered.
    ensures spare { scan with_spare (box (at 0 0 0) (at 4 0 0)) ≡ 0 ∷ 1 ∷ [] }
{}

/// Each motion on the four points of one cell, and a shift that is held at the greatest coordinate.
pub fn sample_motions()
    ensures stay { moved (one_cell 4) Stay 1 ≡ at 0 0 0 ∷ at 4 0 0 ∷ at 0 4 0 ∷ at 0 0 4 ∷ [] }
    ensures shift { moved (one_cell 4) (Shift (pos 3) (pos 0) (neg_ℤ (pos 1))) 1
        ≡ (pos 3, pos 0, neg_ℤ (pos 1)) ∷ (pos 7, pos 0, neg_ℤ (pos 1)) ∷ (pos 3, pos 4, neg_ℤ (pos 1)) ∷ at 3 0 3
        ∷ [] }
    ensures pull { moved (one_cell 4) (Pull (at 10 0 0) (pos 1) (pos 3)) 1
        ≡ at 3 0 0 ∷ at 6 0 0 ∷ at 3 2 0 ∷ at 3 0 2 ∷ [] }
    ensures shake { moved (one_cell 4) (Shake 7 3) 1
        ≡ (pos 0, neg_ℤ (pos 3), pos 0) ∷ (pos 2, neg_ℤ (pos 1), pos 1) ∷ (neg_ℤ (pos 2), pos 2, neg_ℤ (pos 3))
        ∷ (neg_ℤ (pos 2), pos 2, pos 4) ∷ [] }
    ensures relax { moved (one_cell 4) Relax 1 ≡ at 1 1 1 ∷ at 0 1 1 ∷ at 1 0 1 ∷ at 1 1 0 ∷ [] }
    ensures turn_x { moved (one_cell 4) (Turn X) 1
        ≡ at 0 0 0 ∷ at 4 0 0 ∷ at 0 0 4 ∷ (pos 0, neg_ℤ (pos 4), pos 0) ∷ [] }
    ensures turn_y { moved (one_cell 4) (Turn Y) 1
        ≡ at 0 0 0 ∷ (pos 0, pos 0, neg_ℤ (pos 4)) ∷ at 0 4 0 ∷ at 4 0 0 ∷ [] }
    ensures turn_z { moved (one_cell 4) (Turn Z) 1
        ≡ at 0 0 0 ∷ at 0 4 0 ∷ (neg_ℤ (pos 4), pos 0, pos 0) ∷ at 0 0 4 ∷ [] }
    ensures held { moved far_out (Shift (pos 1) (pos 1) (pos 1)) 1
        ≡ at (2 ^ 30) 1 1 ∷ at 1 1 1 ∷ at 1 2 1 ∷ at 1 1 2 ∷ [] }
{}

/// The longest distance that there is.
pub fn sample_distances()
    ensures { dist2 (box greatest_corner greatest_corner) least_corner ≡ 13835058055282163712 }
{}
