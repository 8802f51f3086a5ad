//! The places of the points of a step.
ghost use Rattle.std.specs.Prelude.{◌≡◌, ◌==◌, ◌<◌, ◌≤◌, ◌*◌, ◌+◌, ◌++◌, List, pos, length, slice_index_or, IfOk, IfSome};
ghost use Rattle.std.specs.Arc.{arc_value};
ghost use Rattle.mesh_base.specs.Place.{Place};
ghost use Rattle.topo.specs.Chunks.{chunk_of, behind_full, AreChunks};

use crate::chunks::{CHUNK, chunk_count, part_of};
use mesh_base::{MOST_POINTS, NoMemory, Point, PointList};
use std::alloc::Global;
use std::marker::Model;
use std::sync::Arc;

// The places of a chunk.
#[derive(Drop)]
struct PlaceChunk {
    points: Vec<Point>,
}

impl Model for PlaceChunk {
    ghost use Rattle.std.specs.Prelude.{List};
    ghost use Rattle.mesh_base.specs.Place.{Place};

    ghost Value = { List Place };

    ghost view = { λ c. c.points.items };
}

/// The places of all points, by their numbers. They never change, so that steps can share them.
///
/// They stand in chunks of 4,096, which positions can share with others.
#[derive(Drop)]
pub struct Positions {
    len: u32,
    chunks: Vec<Arc<PlaceChunk>>,
}

impl Model for Positions {
    ghost use Rattle.std.specs.Prelude.{◌≡◌, List, ◌≤◌, length, flat_map};
    ghost use Rattle.std.specs.Arc.{arc_value};
    ghost use Rattle.mesh_base.specs.Place.{Place};
    ghost use Rattle.topo.specs.Chunks.{AreChunks};
    ghost use Rattle.mesh_base.specs.Limits.{most_points};

    ghost Value = { List Place };

    ghost view = { λ p. flat_map arc_value p.chunks.items };

    ghost invariant = { λ p. (p.len ≤ most_points) × (length (flat_map arc_value p.chunks.items) ≡ p.len)
        × AreChunks arc_value (flat_map arc_value p.chunks.items) p.chunks.items };
}

// A chunk with these points: the old one, if it has them.
fn chunk_with(
    alloc: Global,
    old: Option<&Arc<PlaceChunk>>,
    points: &[Point],
) -> Result<Arc<PlaceChunk>, NoMemory>
    ensures { IfOk result (λ chunk. arc_value chunk ≡ points.now) }
{
    if let Some(chunk) = old {
        if chunk.points.as_slice() == points {
            return Ok(chunk.clone()?);
        }
    }
    let points = points.to_vec(alloc)?;
    Ok(Arc::new(alloc, PlaceChunk { points })?)
}

// The points in chunks, of which those are shared that are equal.
fn chunks_with(
    alloc: Global,
    old: &[Arc<PlaceChunk>],
    points: &[Point],
) -> Result<Vec<Arc<PlaceChunk>>, NoMemory>
    requires { length points.now ≤ MOST_POINTS }
    ensures { IfOk result (λ chunks. AreChunks arc_value points.now chunks.items) }
{
    let count = chunk_count(points.len());
    let mut chunks = Vec::with_capacity(alloc, count)?;
    for k in 0..count {
        let chunk = chunk_with(alloc, old.get(k), part_of(points, k))?;
        chunks.push_reserved(chunk);
    }
    Ok(chunks)
}

// Positions of these points, which share each chunk that is equal.
fn shared_with(
    alloc: Global,
    old: &[Arc<PlaceChunk>],
    points: &[Point],
) -> Result<Arc<Positions>, NoMemory>
    requires { length points.now ≤ MOST_POINTS }
    ensures { IfOk result (λ positions. arc_value positions ≡ points.now) }
{
    let positions = Positions {
        len: points.len() as u32,
        chunks: chunks_with(alloc, old, points)?,
    };
    Ok(Arc::new(alloc, positions)?)
}

impl Positions {
    /// The places in the list, of which there are at most 1,000,000. They are copied into chunks, and the list is let
    /// go.
    pub fn of(alloc: Global, points: PointList) -> Result<Arc<Positions>, NoMemory>
        requires { length points ≤ MOST_POINTS }
        ensures { IfOk result (λ positions. arc_value positions ≡ points) }
    {
        Positions::copied(alloc, &points.into_items())
    }

    /// The places in a list that the caller keeps. They are copied into chunks.
    pub fn copied(alloc: Global, points: &[Point]) -> Result<Arc<Positions>, NoMemory>
        requires { length points.now ≤ MOST_POINTS }
        ensures { IfOk result (λ positions. arc_value positions ≡ points.now) }
    {
        shared_with(alloc, &[], points)
    }

    /// The same as `of` gives. Each chunk that is equal to that of `old` is shared with it, at the cost of one count,
    /// and each other one is copied: it compares the places in one pass, and ends the pass over a chunk where two
    /// differ.
    pub fn after(
        alloc: Global,
        old: &Positions,
        points: PointList,
    ) -> Result<Arc<Positions>, NoMemory>
        requires { length points ≤ MOST_POINTS }
        ensures { IfOk result (λ positions. arc_value positions ≡ points) }
    {
        shared_with(alloc, &old.chunks, &points.into_items())
    }

    /// These places, and behind them those of `added`. Each full chunk is shared at the cost of one count; no place is
    /// compared, and none is copied but those behind the full chunks.
    pub fn joined(&self, alloc: Global, added: &[Point]) -> Result<Arc<Positions>, NoMemory>
        requires { length self.now + length added.now ≤ MOST_POINTS }
        ensures { IfOk result (λ positions. arc_value positions ≡ self.now ++ added.now) }
    {
        let positions = Positions {
            len: self.len + added.len() as u32,
            chunks: self.chunks_joined(alloc, added)?,
        };
        Ok(Arc::new(alloc, positions)?)
    }

    // The places behind the full chunks, and then those that are added.
    fn rest_with(&self, alloc: Global, added: &[Point]) -> Result<Vec<Point>, NoMemory>
        ensures { IfOk result (λ rest. rest.items ≡ behind_full self.now ++ added.now) }
    {
        let mut rest = Vec::new(alloc);
        if let Some(chunk) = self.chunks.get(self.len as usize / CHUNK) {
            rest.extend_from_slice(&chunk.points)?;
        }
        rest.extend_from_slice(added)?;
        Ok(rest)
    }

    // Both together in chunks, of which the full ones are shared.
    fn chunks_joined(
        &self,
        alloc: Global,
        added: &[Point],
    ) -> Result<Vec<Arc<PlaceChunk>>, NoMemory>
        requires { length self.now + length added.now ≤ MOST_POINTS }
        ensures { IfOk result (λ chunks. AreChunks arc_value (self.now ++ added.now) chunks.items) }
    {
        let rest = self.rest_with(alloc, added)?;
        let full = self.len as usize / CHUNK;
        let behind = chunk_count(rest.len());
        let mut chunks = Vec::with_capacity(alloc, full + behind)?;
        for k in 0..full {
            chunks.push_reserved(self.chunks[k].clone()?);
        }
        for k in 0..behind {
            chunks.push_reserved(chunk_with(alloc, None, part_of(&rest, k))?);
        }
        Ok(chunks)
    }

    /// How many points there are.
    pub fn len(&self) -> u32
        ensures len { result ≡ length self.now }
        ensures few { length self.now ≤ MOST_POINTS }
    {
        self.len
    }

    /// Whether there are none.
    pub fn is_empty(&self) -> bool
        ensures { result ≡ (length self.now == 0) }
    {
        self.len == 0
    }

    /// The place of point v, at the cost of two look-ups: of the chunk, and in it.
    pub fn get(&self, v: u32) -> Point
        requires { v < length self.now }
        ensures { result ≡ slice_index_or self.now v (pos 0, pos 0, pos 0) }
    {
        let v = v as usize;
        self.chunks[v / CHUNK].points[v % CHUNK]
    }
}
