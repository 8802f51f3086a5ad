//! The scan of a box: what every other way to answer it is measured by.
ghost use Rattle.std.specs.Prelude.{◌≡◌, ℕ, ◌<◌, [], ◌∷◌, ◌||◌, false, length, slice_index_or, vec_len, IfSome, IfOk};
ghost use Rattle.mesh_base.specs.Mesh.{AreWithin, IsWithin, is_vertex};
ghost use Rattle.mesh_base.specs.Scan.{scan};

use crate::NoMemory;
use crate::boxes::BoxQ;
use crate::cell::Cell;
use crate::lists::VertexList;
use crate::mesh::Mesh;
use std::alloc::Global;

// Marks the corners of the cell, if it is live.
fn mark(marks: &mut Vec<bool>, cell: &Option<Cell>)
    requires { IfSome cell.now (IsWithin (vec_len marks.old)) }
    ensures len { vec_len marks.new ≡ vec_len marks.old }
    ensures marks { (v : ℕ) → v < vec_len marks.old
        → slice_index_or marks.new.items v false
        ≡ (slice_index_or marks.old.items v false || is_vertex (cell.now ∷ []) v) }
{
    if let Some(cell) = cell {
        let [a, b, c, d] = cell.corners();
        marks[a as usize] = true;
        marks[b as usize] = true;
        marks[c as usize] = true;
        marks[d as usize] = true;
    }
}

// For each point number, whether some live cell has it.
fn vertex_marks(alloc: Global, points: usize, cells: &[Option<Cell>]) -> Result<Vec<bool>, NoMemory>
    requires { AreWithin points cells.now }
    ensures len { IfOk result (λ marks. length marks.items ≡ points) }
    ensures marks { IfOk result (λ marks. (v : ℕ) → v < points
        → slice_index_or marks.items v false ≡ is_vertex cells.now v) }
{
    let mut marks = vec![in alloc; false; points]?;
    for cell in cells {
        mark(&mut marks, cell);
    }
    Ok(marks)
}

/// The numbers of all vertices whose point is inside the box, ascending. A point that no live cell has is no vertex.
///
/// It goes once over the cells and once over the points, and takes a byte for each point beside the list.
pub fn scan_mesh(alloc: Global, mesh: &Mesh, area: &BoxQ) -> Result<VertexList, NoMemory>
    ensures { IfOk result (λ found. found ≡ scan mesh.now area.now) }
{
    let points = mesh.points();
    let marks = vertex_marks(alloc, points.len(), mesh.cells())?;
    let mut found = Vec::new(alloc);
    for v in 0..points.len() {
        if marks[v] && area.has(points[v]) {
            found.push(v as u32)?;
        }
    }
    Ok(VertexList::of(found))
}
