//! The neighbours of a shape, in chunks.
ghost use Rattle.std.specs.Prelude.{◌≡◌, ◌<◌, ◌≤◌, ◌+◌, ◌*◌, ℕ, List, Option, length, IfOk, IfSome};
ghost use Rattle.std.specs.Arc.{arc_value};
ghost use Rattle.topo.specs.Chunks.{Each, Kept};
ghost use Rattle.topo.specs.Tables.{IsRowAt};
ghost use Rattle.topo.specs.RowChunks.{RowsView, row_of, HasRow, IsRowChunk};

use crate::chunks::{CHUNK, chunk_count};
use crate::tables::Tables;
use mesh_base::NoMemory;
use std::alloc::Global;
use std::marker::Model;
use std::sync::Arc;

/// The neighbours of the points of a chunk, one list after the other, and where each begins.
#[derive(Drop)]
pub struct RowChunk {
    starts: Vec<usize>,
    near: Vec<u32>,
}

impl Model for RowChunk {
    ghost use Rattle.topo.specs.RowChunks.{RowsView};

    ghost Value = { RowsView };

    ghost view = { λ c. record { starts = c.starts.items; near = c.near.items } };
}

// How many neighbours so many points have together, each point counted for itself.
fn neighbour_count(tables: &Tables, first: u32, count: u32) -> usize
    requires within { first + count ≤ tables.now.points }
{
    let _few = tables.points();
    let mut sum = 0usize;
    for j in 0..count {
        sum = sum.saturating_add(tables.neighbours(first + j).len());
    }
    sum
}

// The neighbours of so many points one after the other, and where those of each begin. Both lists are made at their
// length.
fn list_neighbours(
    alloc: Global,
    tables: &Tables,
    first: u32,
    count: u32,
) -> Result<(Vec<usize>, Vec<u32>), NoMemory>
    requires within { first + count ≤ tables.now.points }
    ensures len { IfOk result (λ lists. length lists.0.items ≡ count + 1) }
    ensures rows { IfOk result (λ lists. (j : ℕ) → j < count
        → IsRowAt lists.0.items lists.1.items j (row_of tables.now (first + j))) }
{
    let _few = tables.points();
    let mut starts = Vec::with_capacity(alloc, count as usize + 1)?;
    let mut near = Vec::with_capacity(alloc, neighbour_count(tables, first, count))?;
    starts.push(0)?;
    for j in 0..count {
        near.extend_from_slice(tables.neighbours(first + j))?;
        starts.push(near.len())?;
    }
    Ok((starts, near))
}

impl RowChunk {
    /// The neighbours of the points of chunk k.
    pub fn of(alloc: Global, tables: &Tables, k: usize) -> Result<Arc<RowChunk>, NoMemory>
        requires within { 4096 * k ≤ tables.now.points }
        ensures { IfOk result (λ chunk. IsRowChunk tables.now k (arc_value chunk)) }
    {
        let points = tables.points();
        let first = k as u32 * CHUNK as u32;
        let rest = points - first;
        let count = if rest < CHUNK as u32 {
            rest
        } else {
            CHUNK as u32
        };
        let (starts, near) = list_neighbours(alloc, tables, first, count)?;
        Ok(Arc::new(alloc, RowChunk { starts, near })?)
    }

    /// List number j.
    pub fn row(&self, j: usize) -> &[u32]
        requires { (row : List ℕ) × HasRow self.now j row }
        ensures { (row : List ℕ) → HasRow self.now j row → result.now ≡ row }
    {
        let start = self.starts[j];
        let end = self.starts[j + 1];
        &self.near[start..end]
    }
}

// Chunk k: the kept one, or a new one that is kept from now on.
fn row_chunk(
    alloc: Global,
    kept: &mut Vec<Option<Arc<RowChunk>>>,
    tables: &Tables,
    k: usize,
) -> Result<Arc<RowChunk>, NoMemory>
    requires within { 4096 * k ≤ tables.now.points }
    requires kept { Each (Kept (λ j c. IsRowChunk tables.now j (arc_value c))) kept.old.items }
    ensures kept { Each (Kept (λ j c. IsRowChunk tables.now j (arc_value c))) kept.new.items }
    ensures chunk { IfOk result (λ chunk. IsRowChunk tables.now k (arc_value chunk)) }
{
    if let Some(Some(chunk)) = kept.get(k) {
        return Ok(chunk.clone()?);
    }
    let chunk = RowChunk::of(alloc, tables, k)?;
    if k < kept.len() {
        kept[k] = Some(chunk.clone()?);
    } else if k == kept.len() {
        kept.push(Some(chunk.clone()?))?;
    }
    Ok(chunk)
}

/// The neighbours in chunks: those that are kept, and new ones where none is, which are kept from now on.
pub fn row_chunks(
    alloc: Global,
    kept: &mut Vec<Option<Arc<RowChunk>>>,
    tables: &Tables,
) -> Result<Vec<Arc<RowChunk>>, NoMemory>
    requires kept { Each (Kept (λ j c. IsRowChunk tables.now j (arc_value c))) kept.old.items }
    ensures kept { Each (Kept (λ j c. IsRowChunk tables.now j (arc_value c))) kept.new.items }
    ensures all { IfOk result (λ chunks. tables.now.points ≤ 4096 * length chunks.items) }
    ensures rows { IfOk result (λ chunks. Each (λ j c. IsRowChunk tables.now j (arc_value c)) chunks.items) }
{
    let count = chunk_count(tables.points() as usize);
    let mut chunks = Vec::with_capacity(alloc, count)?;
    for k in 0..count {
        let chunk = row_chunk(alloc, kept, tables, k)?;
        chunks.push_reserved(chunk);
    }
    Ok(chunks)
}
