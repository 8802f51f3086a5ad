//! The cells of a mesh that edits change, with its surface and neighbours.
ghost use Rattle.std.specs.Prelude.{◌≡◌, ◌==◌, ◌↔◌, ℕ, not, ◌<◌, ◌≤◌, length, filter, IsTrue, IfOk, OnOk, OnErr};
ghost use Rattle.std.specs.Arc.{arc_value};
ghost use Rattle.std.specs.List.{range_with_len};
ghost use Rattle.mesh_base.specs.Mesh.{MeshView, AreWithin, IsMesh, is_vertex, is_surface, are_neighbours, surface, neighbours};
ghost use Rattle.mesh_base.specs.Edit.{edited, EditFits};
ghost use Rattle.topo.specs.Topology.{IsTopologyOf, IsTopology, Fits};

use crate::kept::{KeptChunks, forget_cells, forget_rows};
use crate::shape::Shape;
use crate::tables::Tables;
use mesh_base::{Cell, CellList, Edit, MOST_CELLS, MOST_POINTS, Mesh, NoMemory};
use std::alloc::Global;
use std::marker::Model;
use std::sync::Arc;

/// How many points a mesh has, and its cells, with the surface and the neighbours that follow from them.
///
/// Points and cells are numbered from 0. An absent cell keeps its number. Contracts see a number and a list of cells,
/// and speak of every mesh that has so many points and these cells.
///
/// It keeps the last shape that `freeze_next` gave, until an edit comes, and its chunks, until an edit changes what is
/// in them: what is kept is what the topology is now.
#[derive(Drop)]
pub struct Topo {
    tables: Tables,
    last: Option<Arc<Shape>>,
    kept: KeptChunks,
}

impl Model for Topo {
    ghost use Rattle.std.specs.Prelude.{◌≡◌, IfSome};
    ghost use Rattle.std.specs.Arc.{arc_value};
    ghost use Rattle.topo.specs.Topology.{Topology};
    ghost use Rattle.topo.specs.Shapes.{AreKeptCells, AreKeptRows};

    ghost Value = { Topology };

    ghost view = { λ t. t.tables };

    ghost invariant = { λ t. IfSome t.last (λ shape. arc_value shape ≡ t.tables)
        × AreKeptCells arc_value t.tables.cells t.kept.cells.items × AreKeptRows arc_value t.tables t.kept.rows.items };
}

impl Topo {
    /// The topology of these cells over points numbered from 0. After NoMemory the list is gone.
    ///
    /// It passes a few times over the cells and the points, range of points by range of points.
    pub fn build(alloc: Global, points: u32, cells: CellList) -> Result<Topo, NoMemory>
        requires few_points { points ≤ MOST_POINTS }
        requires few_cells { length cells ≤ MOST_CELLS }
        requires within { AreWithin points cells }
        ensures { IfOk result (λ topo. topo ≡ record { points = points; cells = cells }) }
    {
        Ok(Topo {
            tables: Tables::build(alloc, points, cells)?,
            last: None,
            kept: KeptChunks::new(alloc),
        })
    }

    /// The topology of this mesh, which stays as it is. After NoMemory the topology's share of it is gone.
    ///
    /// It costs what `build` costs, and copies no cell: the cells are shared with the mesh until an edit changes one.
    /// The chunks of its shapes that no edit changes stay parts of the mesh.
    pub fn of_mesh(alloc: Global, mesh: Arc<Mesh>) -> Result<Topo, NoMemory>
        ensures { IfOk result (λ topo. topo ≡ record {
          points = length (arc_value mesh).points;
          cells = (arc_value mesh).cells;
        }) }
    {
        let tables = Tables::of_mesh(alloc, mesh)?;
        let mut kept = KeptChunks::new(alloc);
        kept.keep_cells(alloc, &tables)?;
        Ok(Topo {
            tables,
            last: None,
            kept,
        })
    }

    /// How many points there are.
    pub fn points(&self) -> u32
        ensures points { result ≡ self.now.points }
        ensures few { self.now.points ≤ MOST_POINTS }
    {
        self.tables.points()
    }

    /// The cells, by their numbers. An absent one is None.
    pub fn cells(&self) -> &[Option<Cell>]
        ensures cells { result.now ≡ self.now.cells }
        ensures valid { (mesh : MeshView) → IsTopologyOf mesh self.now → IsMesh mesh.points mesh.cells }
        ensures topology { IsTopology self.now.points self.now.cells }
    {
        self.tables.cells()
    }

    /// The neighbours of point v, ascending: the other corners of the live cells that have it. A vertex has some, and
    /// another point has none. Nothing is searched or copied.
    pub fn neighbours(&self, v: u32) -> &[u32]
        requires { v < self.now.points }
        ensures mesh { (mesh : MeshView) → IsTopologyOf mesh self.now → result.now ≡ neighbours mesh v }
        ensures listed { result.now ≡ filter (are_neighbours self.now.cells v) (range_with_len 0 self.now.points) }
        ensures vertex { not (length result.now == 0) ≡ is_vertex self.now.cells v }
    {
        self.tables.neighbours(v)
    }

    /// The vertices of the surface, ascending: those on a face that exactly one live cell has. Nothing is searched or
    /// copied.
    pub fn surface(&self) -> &[u32]
        ensures mesh { (mesh : MeshView) → IsTopologyOf mesh self.now → result.now ≡ surface mesh }
        ensures listed { result.now ≡ filter (is_surface self.now.cells) (range_with_len 0 self.now.points) }
    {
        self.tables.surface()
    }

    /// A shape that is what the topology is now, and stays so whatever is edited later. After NoMemory nothing has
    /// changed.
    ///
    /// It copies the neighbours, the surface and the cells, whether or not an edit came since the last one. Cells that
    /// are still those of a mesh aren't copied.
    pub fn freeze(&self, alloc: Global) -> Result<Arc<Shape>, NoMemory>
        ensures { IfOk result (λ shape. arc_value shape ≡ self.now) }
    {
        let shape = Shape::of(alloc, &self.tables, &mut KeptChunks::new(alloc))?;
        Ok(Arc::new(alloc, shape)?)
    }

    /// The same as `freeze` gives. After NoMemory nothing has changed.
    ///
    /// Where no edit was made since the last shape that it gave, it gives that very shape, at the cost of one count.
    /// Otherwise it shares each chunk that no edit changed, at the cost of one count, and copies the others and the
    /// surface.
    pub fn freeze_next(&mut self, alloc: Global) -> Result<Arc<Shape>, NoMemory>
        ensures ok { IfOk result (λ shape. arc_value shape ≡ self.old) }
        ensures same { self.new ≡ self.old }
    {
        if let Some(shape) = &self.last {
            return Ok(shape.clone()?);
        }
        let shape = Shape::of(alloc, &self.tables, &mut self.kept)?;
        let shape = Arc::new(alloc, shape)?;
        self.last = Some(shape.clone()?);
        Ok(shape)
    }

    /// Whether the edit fits: the points and the cell that it names are there, the cell is live, the four numbers of a
    /// new cell differ, and the mesh stays within its limits of 1,000,000 points and 4,000,000 cells.
    pub fn edit_ok(&self, edit: &Edit) -> bool
        ensures fits { IsTrue result ↔ Fits self.now edit.now }
        ensures each { (mesh : MeshView) → IsTopologyOf mesh self.now → IsTrue result ↔ EditFits mesh edit.now }
    {
        self.tables.edit_ok(edit)
    }

    /// Makes the edit, in place. After NoMemory the topology is as it was.
    ///
    /// A cell that comes or goes costs its put or its take in the tables of faces and of neighbours, and a vertex that
    /// so comes to the surface or leaves it moves what stands behind it in the list of the surface. A split costs six
    /// look-ups of faces and twelve searches in lists of neighbours, and leaves the surface as it is. An edit takes
    /// memory only where a list or a table has to grow, but for the first edit of a cell: it copies the cells of a
    /// topology that shares its mesh's.
    pub fn edit(&mut self, alloc: Global, edit: &Edit) -> Result<(), NoMemory>
        requires fits { Fits self.old edit.now }
        ensures edited { OnOk result ((mesh : MeshView) → IsTopologyOf mesh self.old
            → IsTopologyOf (edited mesh edit.now) self.new) }
        ensures err { OnErr result (self.new ≡ self.old) }
    {
        let points = self.tables.points() as usize;
        let cells = self.tables.cells().len();
        let touched = self.tables.touched(edit);
        self.tables.edit(alloc, edit)?;
        self.last = None;
        forget_cells(&mut self.kept.cells, edit, cells);
        forget_rows(&mut self.kept.rows, edit, points, &touched);
        Ok(())
    }
}
