//! The cells of a shape, in chunks.
ghost use Rattle.std.specs.Prelude.{◌≡◌, ◌<◌, ◌≤◌, ◌*◌, List, Option, length, IfOk, OnOk, IfSome};
ghost use Rattle.std.specs.Arc.{arc_value};
ghost use Rattle.mesh_base.specs.Mesh.{Corners};
ghost use Rattle.topo.specs.Chunks.{chunk_of, Each, Kept, AreChunks};
ghost use Rattle.topo.specs.Cells.{listed};

use crate::chunks::{chunk_count, part_of};
use crate::list::Cells;
use mesh_base::{Cell, MOST_CELLS, MOST_POINTS, Mesh, NoMemory};
use std::alloc::Global;
use std::marker::Model;
use std::sync::Arc;

// The cells of a chunk: chunk k of those of a mesh, or others.
#[derive(Drop)]
enum ChunkCells {
    Part { mesh: Arc<Mesh>, k: usize },
    Own(Vec<Option<Cell>>),
}

/// The cells of a chunk, of which some are absent.
#[derive(Drop)]
pub struct CellChunk {
    cells: ChunkCells,
}

impl Model for CellChunk {
    ghost use Rattle.std.specs.Prelude.{List, Option};
    ghost use Rattle.mesh_base.specs.Mesh.{Corners};
    ghost use Rattle.topo.specs.Cells.{chunk_cells, IsChunk};

    ghost Value = { List (Option Corners) };

    ghost view = { λ c. chunk_cells c.cells };

    ghost invariant = { λ c. IsChunk c.cells };
}

impl CellChunk {
    /// Chunk k of these: a part of the mesh that they are shared with, or a copy.
    pub fn of(alloc: Global, cells: &Cells, k: usize) -> Result<Arc<CellChunk>, NoMemory>
        requires few { k ≤ MOST_POINTS }
        requires within { 4096 * k ≤ length (listed cells.now) }
        ensures { IfOk result (λ chunk. arc_value chunk ≡ chunk_of (listed cells.now) k) }
    {
        let cells = match cells {
            Cells::Shared(mesh) => ChunkCells::Part {
                mesh: mesh.clone()?,
                k,
            },
            Cells::Own(list) => ChunkCells::Own(part_of(list, k).to_vec(alloc)?),
        };
        Ok(Arc::new(alloc, CellChunk { cells })?)
    }

    /// The cells.
    pub fn cells(&self) -> &[Option<Cell>]
        ensures { result.now ≡ self.now }
    {
        match &self.cells {
            ChunkCells::Part { mesh, k } => part_of(mesh.cells(), *k),
            ChunkCells::Own(list) => list.as_slice(),
        }
    }
}

// Chunk k: the kept one, or a new one that is kept from now on.
fn cell_chunk(
    alloc: Global,
    kept: &mut Vec<Option<Arc<CellChunk>>>,
    cells: &Cells,
    k: usize,
) -> Result<Arc<CellChunk>, NoMemory>
    requires few { k ≤ MOST_POINTS }
    requires within { 4096 * k ≤ length (listed cells.now) }
    requires kept { Each (Kept (λ j c. arc_value c ≡ chunk_of (listed cells.now) j)) kept.old.items }
    ensures kept { Each (Kept (λ j c. arc_value c ≡ chunk_of (listed cells.now) j)) kept.new.items }
    ensures chunk { IfOk result (λ chunk. arc_value chunk ≡ chunk_of (listed cells.now) k) }
{
    if let Some(Some(chunk)) = kept.get(k) {
        return Ok(chunk.clone()?);
    }
    let chunk = CellChunk::of(alloc, cells, k)?;
    if k < kept.len() {
        kept[k] = Some(chunk.clone()?);
    } else if k == kept.len() {
        kept.push(Some(chunk.clone()?))?;
    }
    Ok(chunk)
}

/// The cells in chunks: those that are kept, and new ones where none is, which are kept from now on.
pub fn cell_chunks(
    alloc: Global,
    kept: &mut Vec<Option<Arc<CellChunk>>>,
    cells: &Cells,
) -> Result<Vec<Arc<CellChunk>>, NoMemory>
    requires few { length (listed cells.now) ≤ MOST_CELLS }
    requires kept { Each (Kept (λ j c. arc_value c ≡ chunk_of (listed cells.now) j)) kept.old.items }
    ensures kept { Each (Kept (λ j c. arc_value c ≡ chunk_of (listed cells.now) j)) kept.new.items }
    ensures chunks { IfOk result (λ chunks. AreChunks arc_value (listed cells.now) chunks.items) }
{
    let count = chunk_count(cells.as_slice().len());
    let mut chunks = Vec::with_capacity(alloc, count)?;
    for k in 0..count {
        let chunk = cell_chunk(alloc, kept, cells, k)?;
        chunks.push_reserved(chunk);
    }
    Ok(chunks)
}
