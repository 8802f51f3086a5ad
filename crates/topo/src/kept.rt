//! What an edit leaves of the chunks that are kept.
ghost use Rattle.std.specs.Prelude.{◌≡◌, ◌/◌, ◌≤◌, Option, None, length, take, slice_set, IfSome};
ghost use Rattle.std.specs.Arc.{arc_value};
ghost use Rattle.mesh_base.specs.Mesh.{MeshView, AreWithin};
ghost use Rattle.mesh_base.specs.Edit.{edited, EditFits};
ghost use Rattle.topo.specs.Shapes.{AreKeptCells, AreKeptRows, topology_of, touched_by, left_rows, left_corners};

use crate::cells::{CellChunk, cell_chunks};
use crate::chunks::CHUNK;
use crate::rows::RowChunk;
use crate::surface::SurfaceList;
use crate::tables::Tables;
use mesh_base::{Cell, Edit, NoMemory};
use std::alloc::Global;
use std::sync::Arc;

/// The chunks that are those of the topology still. None stands where an edit has changed something since.
#[derive(Drop)]
pub struct KeptChunks {
    pub cells: Vec<Option<Arc<CellChunk>>>,
    pub rows: Vec<Option<Arc<RowChunk>>>,
    pub surface: Option<Arc<SurfaceList>>,
}

impl KeptChunks {
    /// Nothing is kept.
    pub fn new(alloc: Global) -> KeptChunks
        ensures cells { length result.cells.items ≡ 0 }
        ensures rows { length result.rows.items ≡ 0 }
    {
        KeptChunks {
            cells: Vec::new(alloc),
            rows: Vec::new(alloc),
            surface: None,
        }
    }

    /// Keeps the chunks of these cells, before any shape has them.
    pub fn keep_cells(&mut self, alloc: Global, tables: &Tables) -> Result<(), NoMemory>
        requires { AreKeptCells arc_value tables.now.cells self.old.cells.items }
        ensures cells { AreKeptCells arc_value tables.now.cells self.new.cells.items }
        ensures rows { self.new.rows ≡ self.old.rows }
    {
        let _few = tables.cells();
        let _chunks = cell_chunks(alloc, &mut self.cells, tables.store())?;
        Ok(())
    }
}

// The chunk that has entry i isn't kept any more.
fn forget<T: Drop>(kept: &mut Vec<Option<Arc<T>>>, i: usize)
    ensures { kept.new.items ≡ slice_set kept.old.items (i / 4096) None }
{
    let k = i / CHUNK;
    if k < kept.len() {
        kept[k] = None;
    }
}

// Nor are those that have entry i or a later one.
fn forget_from<T: Drop>(kept: &mut Vec<Option<Arc<T>>>, i: usize)
    ensures { kept.new.items ≡ take (i / 4096) kept.old.items }
{
    kept.truncate(i / CHUNK);
}

// Nor are those of the four points of a cell.
fn forget_corners(kept: &mut Vec<Option<Arc<RowChunk>>>, cell: &Cell)
    ensures { kept.new.items ≡ slice_set (slice_set (slice_set (slice_set kept.old.items (cell.now.0 / 4096) None)
        (cell.now.1 / 4096) None) (cell.now.2 / 4096) None) (cell.now.3 / 4096) None }
{
    let [a, b, c, d] = cell.corners();
    forget(kept, a as usize);
    forget(kept, b as usize);
    forget(kept, c as usize);
    forget(kept, d as usize);
}

/// The chunks of cells that an edit changes, where there were so many cells.
pub fn forget_cells(kept: &mut Vec<Option<Arc<CellChunk>>>, edit: &Edit, count: usize)
    ensures { (mesh : MeshView) → length mesh.cells ≡ count → AreKeptCells arc_value mesh.cells kept.old.items
        → AreKeptCells arc_value (edited mesh edit.now).cells kept.new.items }
{
    match *edit {
        Edit::Point { .. } => {}
        Edit::Add { .. } => forget_from(kept, count),
        Edit::Remove { cell } => forget(kept, cell as usize),
        Edit::Split { cell, .. } => {
            forget(kept, cell as usize);
            forget_from(kept, count);
        }
    }
}

// Those of the points behind the last full chunk, where an edit adds a point.
fn forget_last(kept: &mut Vec<Option<Arc<RowChunk>>>, edit: &Edit, points: usize)
    ensures { kept.new.items ≡ left_rows edit.now points kept.old.items }
{
    match *edit {
        Edit::Point { .. } => forget_from(kept, points),
        Edit::Add { .. } => {}
        Edit::Remove { .. } => {}
        Edit::Split { .. } => forget_from(kept, points),
    }
}

// Those of the corners of a cell, if there is one.
fn forget_touched(kept: &mut Vec<Option<Arc<RowChunk>>>, touched: &Option<Cell>)
    ensures { kept.new.items ≡ left_corners touched.now kept.old.items }
{
    if let Some(cell) = touched {
        forget_corners(kept, cell);
    }
}

/// The chunks of neighbours that an edit changes, where there were so many points and these are the corners of its
/// cell.
pub fn forget_rows(
    kept: &mut Vec<Option<Arc<RowChunk>>>,
    edit: &Edit,
    points: usize,
    touched: &Option<Cell>,
)
    ensures { (mesh : MeshView) → length mesh.points ≡ points → AreWithin points mesh.cells → EditFits mesh edit.now
        → touched.now ≡ touched_by mesh edit.now → AreKeptRows arc_value (topology_of mesh) kept.old.items
        → AreKeptRows arc_value (topology_of (edited mesh edit.now)) kept.new.items }
{
    forget_last(kept, edit, points);
    forget_touched(kept, touched);
}
