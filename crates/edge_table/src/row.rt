//! The neighbours of one point.
ghost use Rattle.std.specs.Prelude.{◌≡◌, ℕ, ◌+◌, ◌^◌, ◌<◌, ◌≤◌, length, slice_index, slice_set, insert, MatchResult, if◌then◌else◌, nat_eq, OnOk};
ghost use Rattle.std.specs.List.Sorted.{IsStrictlyIncreasing};
ghost use Rattle.smallvec.specs.SmallVec.{HasRoomFor};
ghost use Rattle.mesh_base.specs.Numbers.{IsPlaceOf};
ghost use Rattle.edge_table.specs.Pairs.{number_at, IsRow};

use mesh_base::{MOST_CELLS, NoMemory, place_of};
use smallvec::SmallVec;
use std::alloc::Global;

/// How many neighbours stand in a row itself. A cell's put asks for room for three more, so a row of up to 15 takes no
/// other memory: each point inside a block of cubes has 14 neighbours.
pub const INLINE: usize = 18;

/// The neighbours of a point in ascending order, and at the same places how many live cells have both.
#[derive(Drop)]
pub struct Row {
    pub near: SmallVec<u32, INLINE>,
    pub counts: SmallVec<u32, INLINE>,
}

/// Where w is among the neighbours, or where it belongs.
pub fn place_in(near: &SmallVec<u32, INLINE>, w: u32) -> Result<usize, usize>
    requires ascending { IsStrictlyIncreasing near.now.items }
    ensures { MatchResult result
        (λ i. (i < length near.now.items) × (slice_index near.now.items i ≡ w))
        (IsPlaceOf w near.now.items) }
{
    place_of(near.as_slice(), w)
}

/// The number at i.
pub fn read_at(counts: &SmallVec<u32, INLINE>, i: usize) -> u32
    requires { i < length counts.now.items }
    ensures { result ≡ slice_index counts.now.items i }
{
    counts[i]
}

/// Writes the number at i.
pub fn write_at(counts: &mut SmallVec<u32, INLINE>, i: usize, n: u32)
    requires { i < length counts.old.items }
    ensures items { counts.new.items ≡ slice_set counts.old.items i n }
    ensures capacity { counts.new.capacity ≡ counts.old.capacity }
{
    counts[i] = n;
}

/// Puts x in at i, where there is room.
pub fn insert_at(list: &mut SmallVec<u32, INLINE>, i: usize, x: u32)
    requires place { i ≤ length list.old.items }
    requires room { HasRoomFor list.old 1 }
    ensures items { list.new.items ≡ insert list.old.items i x }
    ensures capacity { list.new.capacity ≡ list.old.capacity }
{
    let _ = list.insert(i, x);
}

// n cells more have w.
fn add_near(near: &mut SmallVec<u32, INLINE>, counts: &mut SmallVec<u32, INLINE>, w: u32, n: u32)
    requires some { 0 < n }
    requires row { IsRow near.old.items counts.old.items }
    requires near_room { HasRoomFor near.old 1 }
    requires counts_room { HasRoomFor counts.old 1 }
    requires fits { number_at near.old.items counts.old.items w + n < 2 ^ 32 }
    ensures row { IsRow near.new.items counts.new.items }
    ensures numbers { (u : ℕ) → number_at near.new.items counts.new.items u
        ≡ number_at near.old.items counts.old.items u + (if nat_eq w u then n else 0) }
    ensures near_len { length near.new.items ≤ length near.old.items + 1 }
    ensures grows { (u : ℕ) → number_at near.new.items counts.new.items u
        ≤ number_at near.old.items counts.old.items u + n }
    ensures near_capacity { near.new.capacity ≡ near.old.capacity }
    ensures counts_capacity { counts.new.capacity ≡ counts.old.capacity }
{
    match place_in(near, w) {
        Ok(i) => {
            let before = read_at(counts, i);
            write_at(counts, i, before + n);
        }
        Err(i) => {
            insert_at(near, i, w);
            insert_at(counts, i, n);
        }
    }
}

// One cell more has w, which is a neighbour.
fn raise_near(near: &SmallVec<u32, INLINE>, counts: &mut SmallVec<u32, INLINE>, w: u32)
    requires row { IsRow near.now.items counts.old.items }
    requires there { 0 < number_at near.now.items counts.old.items w }
    requires fits { number_at near.now.items counts.old.items w + 1 < 2 ^ 32 }
    ensures row { IsRow near.now.items counts.new.items }
    ensures numbers { (u : ℕ) → number_at near.now.items counts.new.items u
        ≡ number_at near.now.items counts.old.items u + (if nat_eq w u then 1 else 0) }
    ensures grows { (u : ℕ) → number_at near.now.items counts.new.items u
        ≤ number_at near.now.items counts.old.items u + 1 }
{
    if let Ok(i) = place_in(near, w) {
        let before = read_at(counts, i);
        write_at(counts, i, before + 1);
    }
}

// n cells have w, which is greater than each neighbour.
fn append_near(near: &mut SmallVec<u32, INLINE>, counts: &mut SmallVec<u32, INLINE>, w: u32, n: u32)
    requires some { 0 < n }
    requires row { IsRow near.old.items counts.old.items }
    requires last { (u : ℕ) → 0 < number_at near.old.items counts.old.items u → u < w }
    requires near_room { HasRoomFor near.old 1 }
    requires counts_room { HasRoomFor counts.old 1 }
    ensures row { IsRow near.new.items counts.new.items }
    ensures numbers { (u : ℕ) → number_at near.new.items counts.new.items u
        ≡ number_at near.old.items counts.old.items u + (if nat_eq w u then n else 0) }
    ensures grows { (u : ℕ) → number_at near.new.items counts.new.items u
        ≤ number_at near.old.items counts.old.items u + n }
{
    let last = near.len();
    insert_at(near, last, w);
    insert_at(counts, last, n);
}

// One cell less has w.
fn drop_near(near: &mut SmallVec<u32, INLINE>, counts: &mut SmallVec<u32, INLINE>, w: u32)
    requires row { IsRow near.old.items counts.old.items }
    requires there { 0 < number_at near.old.items counts.old.items w }
    ensures row { IsRow near.new.items counts.new.items }
    ensures numbers { (u : ℕ) → number_at near.new.items counts.new.items u + (if nat_eq w u then 1 else 0)
        ≡ number_at near.old.items counts.old.items u }
{
    if let Ok(i) = place_in(near, w) {
        let n = read_at(counts, i);
        if n == 1 {
            near.remove(i);
            counts.remove(i);
        } else {
            write_at(counts, i, n - 1);
        }
    }
}

/// Makes room for so many more neighbours. What the row shows stays the same.
pub fn reserve_more(row: &mut Row, more: usize) -> Result<(), NoMemory>
    ensures near { row.new.near.items ≡ row.old.near.items }
    ensures counts { row.new.counts.items ≡ row.old.counts.items }
    ensures near_capacity { row.old.near.capacity ≤ row.new.near.capacity }
    ensures counts_capacity { row.old.counts.capacity ≤ row.new.counts.capacity }
    ensures near_room { OnOk result (HasRoomFor row.new.near more) }
    ensures counts_room { OnOk result (HasRoomFor row.new.counts more) }
{
    row.near.reserve(more)?;
    row.counts.reserve(more)
}

/// One cell more has x, y and z beside the point.
pub fn add_three(row: &mut Row, x: u32, y: u32, z: u32)
    requires row { IsRow row.old.near.items row.old.counts.items }
    requires near_room { HasRoomFor row.old.near 3 }
    requires counts_room { HasRoomFor row.old.counts 3 }
    requires fits { (u : ℕ) → number_at row.old.near.items row.old.counts.items u < MOST_CELLS }
    ensures row { IsRow row.new.near.items row.new.counts.items }
    ensures numbers { (u : ℕ) → number_at row.new.near.items row.new.counts.items u
        ≡ number_at row.old.near.items row.old.counts.items u
        + (if nat_eq x u then 1 else 0) + (if nat_eq y u then 1 else 0) + (if nat_eq z u then 1 else 0) }
{
    add_near(&mut row.near, &mut row.counts, x, 1);
    add_near(&mut row.near, &mut row.counts, y, 1);
    add_near(&mut row.near, &mut row.counts, z, 1);
}

/// The point's cell with x, y and z is split round w, which is greater than each neighbour: one cell more has each of
/// the three beside the point, and three cells have w.
pub fn split_three(row: &mut Row, x: u32, y: u32, z: u32, w: u32)
    requires row { IsRow row.old.near.items row.old.counts.items }
    requires there { (u : ℕ) → (if nat_eq x u then 1 else 0) + (if nat_eq y u then 1 else 0)
        + (if nat_eq z u then 1 else 0)
        ≤ number_at row.old.near.items row.old.counts.items u }
    requires last { (u : ℕ) → 0 < number_at row.old.near.items row.old.counts.items u → u < w }
    requires near_room { HasRoomFor row.old.near 1 }
    requires counts_room { HasRoomFor row.old.counts 1 }
    requires fits { (u : ℕ) → number_at row.old.near.items row.old.counts.items u < MOST_CELLS }
    ensures row { IsRow row.new.near.items row.new.counts.items }
    ensures numbers { (u : ℕ) → number_at row.new.near.items row.new.counts.items u
        ≡ number_at row.old.near.items row.old.counts.items u
        + (if nat_eq x u then 1 else 0) + (if nat_eq y u then 1 else 0) + (if nat_eq z u then 1 else 0)
        + (if nat_eq w u then 3 else 0) }
{
    append_near(&mut row.near, &mut row.counts, w, 3);
    raise_near(&row.near, &mut row.counts, x);
    raise_near(&row.near, &mut row.counts, y);
    raise_near(&row.near, &mut row.counts, z);
}

/// The row of a new point round which a cell with these corners is split: three cells have each of them beside the
/// point.
pub fn row_inside(alloc: Global, corners: [u32; 4]) -> Row
    ensures row { IsRow result.near.items result.counts.items }
    ensures numbers { (u : ℕ) → number_at result.near.items result.counts.items u
        ≡ (if nat_eq (slice_index corners 0) u then 3 else 0) + (if nat_eq (slice_index corners 1) u then 3 else 0)
        + (if nat_eq (slice_index corners 2) u then 3 else 0) + (if nat_eq (slice_index corners 3) u then 3 else 0) }
{
    let [a, b, c, d] = corners;
    let mut near = SmallVec::new(alloc);
    let mut counts = SmallVec::new(alloc);
    add_near(&mut near, &mut counts, a, 3);
    add_near(&mut near, &mut counts, b, 3);
    add_near(&mut near, &mut counts, c, 3);
    add_near(&mut near, &mut counts, d, 3);
    Row { near, counts }
}

/// One cell less has x, y and z beside the point.
pub fn drop_three(row: &mut Row, x: u32, y: u32, z: u32)
    requires row { IsRow row.old.near.items row.old.counts.items }
    requires there { (u : ℕ) → (if nat_eq x u then 1 else 0) + (if nat_eq y u then 1 else 0)
        + (if nat_eq z u then 1 else 0)
        ≤ number_at row.old.near.items row.old.counts.items u }
    ensures row { IsRow row.new.near.items row.new.counts.items }
    ensures numbers { (u : ℕ) → number_at row.new.near.items row.new.counts.items u
        + (if nat_eq x u then 1 else 0) + (if nat_eq y u then 1 else 0) + (if nat_eq z u then 1 else 0)
        ≡ number_at row.old.near.items row.old.counts.items u }
{
    drop_near(&mut row.near, &mut row.counts, x);
    drop_near(&mut row.near, &mut row.counts, y);
    drop_near(&mut row.near, &mut row.counts, z);
}
