//! Lists in chunks.
ghost use Rattle.std.specs.Prelude.{◌≡◌, ◌<◌, ◌≤◌, ◌*◌, ◌+◌, length};
ghost use Rattle.topo.specs.Chunks.{chunk_of};

use mesh_base::{MOST_CELLS, MOST_POINTS};

/// How many entries a chunk has. The last chunk of a list may have fewer.
pub const CHUNK: usize = 4096;

/// How many chunks a list has that has so many entries.
pub fn chunk_count(len: usize) -> usize
    requires { len ≤ MOST_CELLS }
    ensures all { len ≤ 4096 * result }
    ensures some { 4096 * result ≤ len + 4095 }
{
    (len + (CHUNK - 1)) / CHUNK
}

/// Chunk k of the list.
pub fn part_of<T>(list: &[T], k: usize) -> &[T]
    requires few { k ≤ MOST_POINTS }
    requires within { 4096 * k ≤ length list.now }
    ensures { result.now ≡ chunk_of list.now k }
{
    let start = k * CHUNK;
    let rest = list.len() - start;
    let end = if rest < CHUNK {
        start + rest
    } else {
        start + CHUNK
    };
    &list[start..end]
}
