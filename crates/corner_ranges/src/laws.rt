//! What the ranges have together. Nothing is computed.
ghost use Rattle.std.specs.Prelude.{◌≡◌, ℕ, ◌+◌, ◌*◌, ◌≤◌, List, [], Option, sum_by};
ghost use Rattle.mesh_base.specs.Mesh.{Corners, AreWithin};
ghost use Rattle.corner_ranges.specs.Ranges.{all_corners, corners_in, corners_before};

/// Range after range, the corners of the ranges become those of all live cells, each once: before the first range there
/// are none, each range adds its own, and after the ranges of all points none is missing.
pub fn ranges_are_whole()
    ensures none { (cells : List (Option Corners)) → corners_before 0 cells ≡ [] }
    ensures next { (g : Corners → ℕ) (range : ℕ) (cells : List (Option Corners))
        → sum_by g (corners_before (range + 1) cells)
        ≡ sum_by g (corners_before range cells) + sum_by g (corners_in range cells) }
    ensures all { (points ranges : ℕ) (cells : List (Option Corners)) → AreWithin points cells → points ≤ ranges * 32768
        → corners_before ranges cells ≡ all_corners cells }
{}
