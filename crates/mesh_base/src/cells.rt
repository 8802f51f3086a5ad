//! Lists of cells, of which some are absent.
ghost use Rattle.std.specs.Prelude.{◌≡◌, IfSome};
ghost use Rattle.mesh_base.specs.Mesh.{AreDifferent, AreAllDifferent};
ghost use Rattle.mesh_base.specs.Edit.{cell_at};

use crate::Cell;

/// Cell i, if it is there and live.
pub fn live_cell(cells: &[Option<Cell>], i: usize) -> Option<Cell>
    ensures { result ≡ cell_at cells.now i }
{
    match cells.get(i) {
        Some(cell) => *cell,
        None => None,
    }
}

fn is_different(cell: &Option<Cell>)
    ensures { IfSome cell.now AreDifferent }
{
    if let Some(cell) = cell {
        let _corners = cell.corners();
    }
}

/// The corners of each live cell differ, as its type says. It is called for what it ensures, and computes nothing.
pub fn are_all_different(cells: &[Option<Cell>])
    ensures { AreAllDifferent cells.now }
{
    for cell in cells {
        is_different(cell);
    }
}
