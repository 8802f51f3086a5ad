//! A neighbour that several cells more have.
ghost use Rattle.std.specs.Prelude.{◌≡◌, ℕ, ◌+◌, ◌^◌, ◌<◌, length, slice_index, MatchResult, if◌then◌else◌, nat_eq, OnOk};
ghost use Rattle.std.specs.List.Sorted.{IsStrictlyIncreasing};
ghost use Rattle.smallvec.specs.SmallVec.{HasRoomFor};
ghost use Rattle.mesh_base.specs.Numbers.{IsPlaceOf};
ghost use Rattle.edge_table.specs.Pairs.{number_at, IsRow};

use crate::row::{INLINE, Row, insert_at, place_in, read_at, write_at};
use mesh_base::NoMemory;
use smallvec::SmallVec;

// Where w is among the neighbours, or where it belongs: at once where that is at the end.
fn place_near_end(near: &SmallVec<u32, INLINE>, w: u32) -> Result<usize, usize>
    requires ascending { IsStrictlyIncreasing near.now.items }
    ensures { MatchResult result
        (λ i. (i < length near.now.items) × (slice_index near.now.items i ≡ w))
        (IsPlaceOf w near.now.items) }
{
    let count = near.len();
    if count == 0 {
        return Err(0);
    }
    if read_at(near, count - 1) < w {
        return Err(count);
    }
    place_in(near, w)
}

// n cells more have w.
fn add_times(near: &mut SmallVec<u32, INLINE>, counts: &mut SmallVec<u32, INLINE>, w: u32, n: u32)
    requires row { IsRow near.old.items counts.old.items }
    requires some { 0 < n }
    requires near_room { HasRoomFor near.old 1 }
    requires counts_room { HasRoomFor counts.old 1 }
    requires fits { number_at near.old.items counts.old.items w + n < 2 ^ 32 }
    ensures row { IsRow near.new.items counts.new.items }
    ensures numbers { (u : ℕ) → number_at near.new.items counts.new.items u
        ≡ number_at near.old.items counts.old.items u + (if nat_eq w u then n else 0) }
{
    match place_near_end(near, w) {
        Ok(i) => {
            let m = read_at(counts, i);
            write_at(counts, i, m + n);
        }
        Err(place) => {
            insert_at(near, place, w);
            insert_at(counts, place, n);
        }
    }
}

/// n cells more have w beside the point. After NoMemory the row shows what it did.
pub fn add_to(row: &mut Row, w: u32, n: u32) -> Result<(), NoMemory>
    requires row { IsRow row.old.near.items row.old.counts.items }
    requires some { 0 < n }
    requires fits { number_at row.old.near.items row.old.counts.items w + n < 2 ^ 32 }
    ensures row { IsRow row.new.near.items row.new.counts.items }
    ensures numbers { OnOk result ((u : ℕ) → number_at row.new.near.items row.new.counts.items u
        ≡ number_at row.old.near.items row.old.counts.items u + (if nat_eq w u then n else 0)) }
{
    row.near.reserve(1)?;
    row.counts.reserve(1)?;
    add_times(&mut row.near, &mut row.counts, w, n);
    Ok(())
}
