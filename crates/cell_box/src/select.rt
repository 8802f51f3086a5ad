//! The cells of a list of vertices, and of a box.
ghost use Rattle.std.specs.Prelude.{◌≡◌, ℕ, ◌<◌, ◌≤◌, [], length, slice_index_or, sum_by, Contains, IfOk};
ghost use Rattle.std.specs.List.Sorted.{IsStrictlyIncreasing};
ghost use Rattle.mesh_base.specs.Mesh.{vertices};
ghost use Rattle.mesh_base.specs.Query.{IsCovered, answer, route, scan};
ghost use Rattle.cell_box.specs.Often.{times};
ghost use Rattle.cell_box.specs.Cells.{cells_by, incidence_of};

use crate::how::How;
use crate::incidence::Incidence;
use crate::numbers::CellNumbers;
use crate::often::often;
use box_crawl::Marks;
use box_query::answer_plain;
use mesh_base::{BoxQ, NoMemory, Route};
use std::alloc::Global;
use step_view::Step;

// The cells of these points, one row after the other: a cell comes once for each of its corners there.
fn gather(alloc: Global, incidence: &Incidence, inside: &[u32]) -> Result<Vec<u32>, NoMemory>
    requires points { (v : ℕ) → Contains inside.now v → v < length incidence.now }
    ensures { IfOk result (λ found. (i : ℕ) → times found.items i
        ≡ sum_by (λ v. times (slice_index_or incidence.now v []) i) inside.now) }
{
    let mut found = Vec::new(alloc);
    for v in inside {
        found.extend_from_slice(incidence.cells_at(*v))?;
    }
    Ok(found)
}

/// The live cells of a step all of whose corners, or at least one, are among these vertices. The numbers are ascending,
/// each comes once.
///
/// The vertices are ascending without repeats, and the incidence is that of the step.
///
/// It looks at the cells of these vertices alone, whatever the size of the mesh: it gathers them, 4 bytes for each
/// vertex of each cell, and sorts them once.
pub fn cells_of(
    alloc: Global,
    step: &Step,
    incidence: &Incidence,
    inside: &[u32],
    how: How,
) -> Result<CellNumbers, NoMemory>
    requires incidence { incidence.now ≡ incidence_of step.now.mesh }
    requires ascending { IsStrictlyIncreasing inside.now }
    requires vertices { (v : ℕ) → Contains inside.now v → Contains (vertices step.now.mesh) v }
    ensures { IfOk result (λ cells. cells ≡ cells_by how step.now.mesh inside.now) }
{
    let _points = step.points();
    let mut gathered = gather(alloc, incidence, inside)?;
    gathered.sort_unstable();
    Ok(CellNumbers::of(often(alloc, &gathered, how.least())?))
}

/// How a box is answered on a step, and the live cells all of whose corners, or at least one, are in the answer. Where
/// the box is covered, they are those of its scan.
///
/// The marks reach all points of the step, and the incidence is that of the step. It costs what the answer and its
/// cells do.
pub fn cells_in(
    alloc: Global,
    step: &Step,
    incidence: &Incidence,
    area: &BoxQ,
    scratch: &mut Marks,
    how: How,
) -> Result<(Route, CellNumbers), NoMemory>
    requires incidence { incidence.now ≡ incidence_of step.now.mesh }
    requires reach { length step.now.mesh.points ≤ length scratch.old }
    ensures route { IfOk result (λ r. r.0 ≡ route step.now.mesh area.now) }
    ensures cells { IfOk result (λ r. r.1 ≡ cells_by how step.now.mesh (answer step.now.mesh area.now)) }
    ensures covered { IfOk result (λ r. IsCovered step.now.mesh area.now
        → r.1 ≡ cells_by how step.now.mesh (scan step.now.mesh area.now)) }
    ensures len { length scratch.new ≡ length scratch.old }
{
    let (route, inside) = answer_plain(alloc, step, area, scratch)?;
    let cells = cells_of(alloc, step, incidence, inside.items(), how)?;
    Ok((route, cells))
}
