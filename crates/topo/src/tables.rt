//! The cells of a mesh with the two tables that follow from them, changed by edits.
ghost use Rattle.std.specs.Prelude.{◌≡◌, ◌==◌, ◌↔◌, ℕ, not, ◌+◌, ◌<◌, ◌≤◌, List, Option, [], ◌∷◌, ◌++◌, Some, None, length, filter, map, slice_set, IfSome, IsSome, IsTrue, IfOk, OnOk, OnErr};
ghost use Rattle.std.specs.Arc.{arc_value};
ghost use Rattle.std.specs.List.{range_with_len};
ghost use Rattle.mesh_base.specs.Mesh.{MeshView, corners_of, AreDifferent, AreWithin, IsWithin, IsMesh, is_vertex, is_surface, are_neighbours, surface, neighbours};
ghost use Rattle.mesh_base.specs.Limits.{most_to_split};
ghost use Rattle.mesh_base.specs.Edit.{cell_at, edited, quarters, split_cells, EditFits};
ghost use Rattle.topo.specs.Topology.{Topology, IsTopologyOf, IsTopology, Fits};
ghost use Rattle.topo.specs.Shapes.{touched_by};
ghost use Rattle.topo.specs.Cells.{listed};

use crate::list::Cells;
use edge_table::EdgeTable;
use face_table::FaceTable;
use mesh_base::{
    Cell, CellList, Edit, MOST_CELLS, MOST_POINTS, Mesh, NoMemory, are_all_different, live_cell,
};
use std::alloc::Global;
use std::marker::Model;
use std::sync::Arc;

/// How many points a mesh has, and its cells, with the tables from which the surface and the neighbours are read.
#[derive(Drop)]
pub struct Tables {
    points: u32,
    cells: Cells,
    faces: FaceTable,
    edges: EdgeTable,
}

impl Model for Tables {
    ghost use Rattle.topo.specs.Topology.{Topology};
    ghost use Rattle.topo.specs.Tables.{AreTables};
    ghost use Rattle.topo.specs.Cells.{listed};

    ghost Value = { Topology };

    ghost view = { λ t. record { points = t.points; cells = listed t.cells } };

    ghost invariant = { λ t. AreTables t.points (listed t.cells) t.faces t.edges };
}

// The cell with these corners, which differ.
fn cell_of(corners: [u32; 4]) -> Cell
    requires { AreDifferent (corners_of corners) }
    ensures { result ≡ corners_of corners }
{
    Cell::new(corners).unwrap()
}

// The four cells that have the point in place of one corner.
fn quarters_of(point: u32, cell: &Cell) -> [Cell; 4]
    requires { IsWithin point cell.now }
    ensures { map Some result ≡ quarters point cell.now }
{
    let [a, b, c, d] = cell.corners();
    [
        cell_of([point, b, c, d]),
        cell_of([a, point, c, d]),
        cell_of([a, b, point, d]),
        cell_of([a, b, c, point]),
    ]
}

impl Tables {
    /// The tables of these cells over points numbered from 0.
    pub fn build(alloc: Global, points: u32, cells: CellList) -> Result<Tables, NoMemory>
        requires few_points { points ≤ MOST_POINTS }
        requires few_cells { length cells ≤ MOST_CELLS }
        requires within { AreWithin points cells }
        ensures { IfOk result (λ tables. tables ≡ record { points = points; cells = cells }) }
    {
        Tables::of(alloc, points, Cells::Own(cells.into_items()))
    }

    /// The tables of the points and the cells of this mesh, whose list of cells is shared.
    pub fn of_mesh(alloc: Global, mesh: Arc<Mesh>) -> Result<Tables, NoMemory>
        ensures { IfOk result (λ tables. tables ≡ record {
          points = length (arc_value mesh).points;
          cells = (arc_value mesh).cells;
        }) }
    {
        let points = mesh.points().len() as u32;
        Tables::of(alloc, points, Cells::Shared(mesh))
    }

    // The tables of these cells, wherever they stand.
    fn of(alloc: Global, points: u32, cells: Cells) -> Result<Tables, NoMemory>
        requires few_points { points ≤ MOST_POINTS }
        requires few_cells { length (listed cells) ≤ MOST_CELLS }
        requires within { AreWithin points (listed cells) }
        ensures { IfOk result (λ tables. tables ≡ record { points = points; cells = listed cells }) }
    {
        are_all_different(cells.as_slice());
        let faces = FaceTable::build(alloc, points, cells.as_slice())?;
        let edges = EdgeTable::build(alloc, points, cells.as_slice())?;
        Ok(Tables {
            points,
            cells,
            faces,
            edges,
        })
    }

    /// How many points there are.
    pub fn points(&self) -> u32
        ensures points { result ≡ self.now.points }
        ensures few { self.now.points ≤ MOST_POINTS }
    {
        self.points
    }

    /// The cells, by their numbers. An absent one is None.
    pub fn cells(&self) -> &[Option<Cell>]
        ensures cells { result.now ≡ self.now.cells }
        ensures valid { (mesh : MeshView) → IsTopologyOf mesh self.now → IsMesh mesh.points mesh.cells }
        ensures topology { IsTopology self.now.points self.now.cells }
    {
        self.cells.as_slice()
    }

    /// Where the cells stand.
    pub fn store(&self) -> &Cells
        ensures { listed result.now ≡ self.now.cells }
    {
        &self.cells
    }

    /// The neighbours of point v, ascending.
    pub fn neighbours(&self, v: u32) -> &[u32]
        requires { v < self.now.points }
        ensures mesh { (mesh : MeshView) → IsTopologyOf mesh self.now → result.now ≡ neighbours mesh v }
        ensures listed { result.now ≡ filter (are_neighbours self.now.cells v) (range_with_len 0 self.now.points) }
        ensures vertex { not (length result.now == 0) ≡ is_vertex self.now.cells v }
    {
        self.edges.neighbours(v)
    }

    /// The vertices of the surface, ascending.
    pub fn surface(&self) -> &[u32]
        ensures mesh { (mesh : MeshView) → IsTopologyOf mesh self.now → result.now ≡ surface mesh }
        ensures listed { result.now ≡ filter (is_surface self.now.cells) (range_with_len 0 self.now.points) }
    {
        self.faces.surface()
    }

    // Cell i, if it is there and live.
    fn live_cell(&self, i: u32) -> Option<Cell>
        ensures cell { result ≡ cell_at self.now.cells i }
    {
        live_cell(self.cells.as_slice(), i as usize)
    }

    /// Whether the edit fits.
    pub fn edit_ok(&self, edit: &Edit) -> bool
        ensures fits { IsTrue result ↔ Fits self.now edit.now }
        ensures each { (mesh : MeshView) → IsTopologyOf mesh self.now → IsTrue result ↔ EditFits mesh edit.now }
    {
        match *edit {
            Edit::Point { .. } => self.has_point_room(),
            Edit::Add { corners } => {
                self.cells.as_slice().len() < MOST_CELLS
                    && self.has_points(corners)
                    && Cell::new(corners).is_some()
            }
            Edit::Remove { cell } => self.live_cell(cell).is_some(),
            Edit::Split { cell, .. } => {
                self.live_cell(cell).is_some()
                    && self.has_point_room()
                    && self.cells.as_slice().len() <= MOST_CELLS - 4
            }
        }
    }

    /// The corners of the cell that the edit puts in, takes out or splits.
    pub fn touched(&self, edit: &Edit) -> Option<Cell>
        ensures { (mesh : MeshView) → IsTopologyOf mesh self.now → EditFits mesh edit.now
            → result ≡ touched_by mesh edit.now }
    {
        match *edit {
            Edit::Point { .. } => None,
            Edit::Add { corners } => Cell::new(corners),
            Edit::Remove { cell } => self.live_cell(cell),
            Edit::Split { cell, .. } => self.live_cell(cell),
        }
    }

    /// Makes the edit, in place, or changes nothing.
    pub fn edit(&mut self, alloc: Global, edit: &Edit) -> Result<(), NoMemory>
        requires fits { Fits self.old edit.now }
        ensures edited { OnOk result ((mesh : MeshView) → IsTopologyOf mesh self.old
            → IsTopologyOf (edited mesh edit.now) self.new) }
        ensures err { OnErr result (self.new ≡ self.old) }
    {
        match *edit {
            Edit::Point { .. } => self.push_point(alloc),
            Edit::Add { corners } => self.push_cell(alloc, cell_of(corners)),
            Edit::Remove { cell } => self.remove(alloc, cell),
            Edit::Split { cell, .. } => self.split(alloc, cell),
        }
    }

    // Whether one more point is allowed.
    fn has_point_room(&self) -> bool
        ensures { IsTrue result ↔ (self.now.points < MOST_POINTS) }
    {
        (self.points as usize) < MOST_POINTS
    }

    // Whether the four numbers are points.
    fn has_points(&self, corners: [u32; 4]) -> bool
        ensures { IsTrue result ↔ IsWithin self.now.points (corners_of corners) }
    {
        let [a, b, c, d] = corners;
        a < self.points && b < self.points && c < self.points && d < self.points
    }

    // One point more, which no cell has.
    fn push_point(&mut self, alloc: Global) -> Result<(), NoMemory>
        requires { self.old.points < MOST_POINTS }
        ensures points { OnOk result (self.new.points ≡ self.old.points + 1) }
        ensures cells { OnOk result (self.new.cells ≡ self.old.cells) }
        ensures err { OnErr result (self.new ≡ self.old) }
    {
        self.faces.put_point(alloc)?;
        if let Err(refused) = self.edges.put_point(alloc) {
            self.faces.drop_point();
            return Err(refused);
        }
        self.points += 1;
        Ok(())
    }

    // One cell more, at the end of the list.
    fn push_cell(&mut self, alloc: Global, cell: Cell) -> Result<(), NoMemory>
        requires few { length self.old.cells < MOST_CELLS }
        requires within { IsWithin self.old.points cell }
        ensures points { self.new.points ≡ self.old.points }
        ensures cells { OnOk result (self.new.cells ≡ self.old.cells ++ Some cell ∷ []) }
        ensures err { OnErr result (self.new ≡ self.old) }
    {
        let _corners = cell.corners();
        self.cells.reserve(alloc, 1)?;
        self.faces.put_cell(alloc, cell)?;
        if let Err(refused) = self.edges.put_cell(alloc, cell) {
            self.faces.take_cell(cell);
            return Err(refused);
        }
        self.cells.push_reserved(cell);
        Ok(())
    }

    // Cell i, which is live, becomes absent.
    fn remove(&mut self, alloc: Global, i: u32) -> Result<(), NoMemory>
        requires { IsSome (cell_at self.old.cells i) }
        ensures points { self.new.points ≡ self.old.points }
        ensures cells { OnOk result (self.new.cells ≡ slice_set self.old.cells i None) }
        ensures err { OnErr result (self.new ≡ self.old) }
    {
        let removed = self.live_cell(i).unwrap();
        self.cells.reserve(alloc, 0)?;
        self.faces.take_cell(removed);
        self.edges.take_cell(removed);
        self.cells.remove(i);
        Ok(())
    }

    // Cell i, which is live, becomes absent, and four cells come that have a new point in place of one of its corners.
    fn split(&mut self, alloc: Global, i: u32) -> Result<(), NoMemory>
        requires live { IsSome (cell_at self.old.cells i) }
        requires few_points { self.old.points < MOST_POINTS }
        requires few_cells { length self.old.cells ≤ most_to_split }
        ensures points { OnOk result (self.new.points ≡ self.old.points + 1) }
        ensures cells { OnOk result (IfSome (cell_at self.old.cells i)
            (λ c. self.new.cells ≡ split_cells self.old.cells self.old.points i c)) }
        ensures err { OnErr result (self.new ≡ self.old) }
    {
        let cell = self.live_cell(i).unwrap();
        self.cells.reserve(alloc, 4)?;
        self.faces.reserve_split(alloc)?;
        self.edges.split_cell(alloc, self.points, cell)?;
        self.faces.split_cell(self.points, cell);
        self.cells.split(i, &quarters_of(self.points, &cell));
        self.points += 1;
        Ok(())
    }
}
