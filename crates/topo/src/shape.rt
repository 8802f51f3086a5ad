//! What a mesh is without the places of its points, as it was once.
ghost use Rattle.std.specs.Prelude.{◌≡◌, ◌==◌, ℕ, not, ◌+◌, ◌*◌, ◌<◌, ◌≤◌, List, Option, length, filter, IfOk, IfSome};
ghost use Rattle.std.specs.Arc.{arc_value};
ghost use Rattle.std.specs.List.{range_with_len};
ghost use Rattle.mesh_base.specs.Mesh.{MeshView, Corners, IsMesh, is_vertex, is_surface, are_neighbours, surface, neighbours};
ghost use Rattle.mesh_base.specs.Edit.{cell_at};
ghost use Rattle.topo.specs.Chunks.{chunk_of};
ghost use Rattle.topo.specs.Shapes.{AreKeptCells, AreKeptRows};
ghost use Rattle.topo.specs.Topology.{Topology, IsTopologyOf, IsTopology};

use crate::cells::{CellChunk, cell_chunks};
use crate::chunks::CHUNK;
use crate::kept::KeptChunks;
use crate::rows::{RowChunk, row_chunks};
use crate::surface::{SurfaceList, surface_list};
use crate::tables::Tables;
use mesh_base::{Cell, MOST_POINTS, NoMemory};
use std::alloc::Global;
use std::marker::Model;
use std::sync::Arc;

/// How many points a mesh has, its cells, its surface and its neighbours, as they were when a `Topo` was frozen. It
/// never changes, so that steps can share it.
///
/// The cells and the neighbours stand in chunks of 4,096, which shapes can share with each other. Contracts see what
/// they see of a `Topo`.
#[derive(Drop)]
pub struct Shape {
    points: u32,
    count: u32,
    cells: Vec<Arc<CellChunk>>,
    surface: Arc<SurfaceList>,
    rows: Vec<Arc<RowChunk>>,
}

impl Model for Shape {
    ghost use Rattle.std.specs.Prelude.{flat_map};
    ghost use Rattle.std.specs.Arc.{arc_value};
    ghost use Rattle.topo.specs.Topology.{Topology};
    ghost use Rattle.topo.specs.Shapes.{IsShape};

    ghost Value = { Topology };

    ghost view = { λ s. record { points = s.points; cells = flat_map arc_value s.cells.items } };

    ghost invariant = { λ s. IsShape arc_value arc_value
        (record { points = s.points; cells = flat_map arc_value s.cells.items }) s.count
        (arc_value s.surface) s.cells.items s.rows.items };
}

impl Shape {
    /// What the topology is now. Chunks that are kept are shared, and new ones are kept from now on.
    pub(crate) fn of(
        alloc: Global,
        tables: &Tables,
        kept: &mut KeptChunks,
    ) -> Result<Shape, NoMemory>
        requires cells { AreKeptCells arc_value tables.now.cells kept.old.cells.items }
        requires rows { AreKeptRows arc_value tables.now kept.old.rows.items }
        ensures shape { IfOk result (λ shape. shape ≡ tables.now) }
        ensures cells { AreKeptCells arc_value tables.now.cells kept.new.cells.items }
        ensures rows { AreKeptRows arc_value tables.now kept.new.rows.items }
    {
        let count = tables.cells().len() as u32;
        let cells = cell_chunks(alloc, &mut kept.cells, tables.store())?;
        let rows = row_chunks(alloc, &mut kept.rows, tables)?;
        let surface = surface_list(alloc, &mut kept.surface, tables.surface())?;
        Ok(Shape {
            points: tables.points(),
            count,
            cells,
            surface,
            rows,
        })
    }

    /// How many points there are.
    pub fn points(&self) -> u32
        ensures points { result ≡ self.now.points }
        ensures few { self.now.points ≤ MOST_POINTS }
    {
        self.points
    }

    /// How many cells there are, absent ones included.
    pub fn cells(&self) -> u32
        ensures cells { result ≡ length self.now.cells }
        ensures valid { (mesh : MeshView) → IsTopologyOf mesh self.now → IsMesh mesh.points mesh.cells }
        ensures topology { IsTopology self.now.points self.now.cells }
    {
        self.count
    }

    /// Cell i. An absent one is None.
    pub fn cell(&self, i: u32) -> Option<Cell>
        requires { i < length self.now.cells }
        ensures { result ≡ cell_at self.now.cells i }
    {
        let i = i as usize;
        self.cells[i / CHUNK].cells()[i % CHUNK]
    }

    /// The cells from number 4,096 k on, of which it gives at most 4,096.
    pub fn cell_chunk(&self, k: u32) -> &[Option<Cell>]
        requires { 4096 * k < length self.now.cells }
        ensures { result.now ≡ chunk_of self.now.cells k }
    {
        self.cells[k as usize].cells()
    }

    /// A copy of all cells.
    pub fn to_cells(&self, alloc: Global) -> Result<Vec<Option<Cell>>, NoMemory>
        ensures { IfOk result (λ cells. cells.items ≡ self.now.cells) }
    {
        let mut cells = Vec::with_capacity(alloc, self.count as usize)?;
        for chunk in &self.cells {
            cells.extend_from_slice(chunk.cells())?;
        }
        Ok(cells)
    }

    /// The neighbours of point v, ascending: the other corners of the live cells that have it. A vertex has some, and
    /// another point has none. Nothing is searched or copied.
    pub fn neighbours(&self, v: u32) -> &[u32]
        requires { v < self.now.points }
        ensures mesh { (mesh : MeshView) → IsTopologyOf mesh self.now → result.now ≡ neighbours mesh v }
        ensures listed { result.now ≡ filter (are_neighbours self.now.cells v) (range_with_len 0 self.now.points) }
        ensures vertex { not (length result.now == 0) ≡ is_vertex self.now.cells v }
    {
        let v = v as usize;
        self.rows[v / CHUNK].row(v % CHUNK)
    }

    /// The vertices of the surface, ascending: those on a face that exactly one live cell has. Nothing is searched or
    /// copied.
    pub fn surface(&self) -> &[u32]
        ensures mesh { (mesh : MeshView) → IsTopologyOf mesh self.now → result.now ≡ surface mesh }
        ensures listed { result.now ≡ filter (is_surface self.now.cells) (range_with_len 0 self.now.points) }
    {
        self.surface.list()
    }
}
