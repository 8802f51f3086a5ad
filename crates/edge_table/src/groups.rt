//! Counts the pairs of cells point by point.
ghost use Rattle.std.specs.Prelude.{◌≡◌, ℕ, ◌+◌, ◌^◌, ◌<◌, ◌≤◌, [], length, sum_by, vec_len, slice_index_or, IfSome, OnOk};
ghost use Rattle.mesh_base.specs.Mesh.{AreWithin};
ghost use Rattle.corner_ranges.specs.Ranges.{slot_share};
ghost use Rattle.edge_table.specs.Pairs.{pair_count, cell_pairs};
ghost use Rattle.edge_table.specs.Rows.{shown, AreRows};
ghost use Rattle.edge_table.specs.Corner.{pair_of, corner_pairs, seen_pairs};

use crate::row::Row;
use crate::times::add_to;
use corner_ranges::{Corner, CornerRanges, point_at};
use mesh_base::{Cell, MOST_CELLS, NoMemory, are_all_different};
use std::alloc::Global;

// The most that one entry of the seen pairs counts.
const MOST: u32 = 1_000;

// Where the pair is among those that were seen, if the mark of its second point tells.
fn place_of_seen(seen: &[(u32, u32, u32)], marks: &[u32], v: u32, w: u32) -> Option<usize>
    ensures within { IfSome result (λ i. i < length seen.now) }
    ensures first { IfSome result (λ i. (slice_index_or seen.now i (v, w, 0)).0 ≡ v) }
    ensures second { IfSome result (λ i. (slice_index_or seen.now i (v, w, 0)).1 ≡ w) }
{
    let at = *marks.get(w as usize)? as usize;
    if at < seen.len() && seen[at].1 == w && seen[at].0 == v {
        return Some(at);
    }
    None
}

// Marks point w with a place.
fn mark(marks: &mut Vec<u32>, w: u32, at: usize) {
    if let Some(place) = marks.get_mut(w as usize) {
        *place = at.min(u32::MAX as usize) as u32;
    }
}

// One more for the pair that is seen.
fn note(
    seen: &mut Vec<(u32, u32, u32)>,
    marks: &mut Vec<u32>,
    v: u32,
    w: u32,
) -> Result<(), NoMemory>
    ensures seen { OnOk result ((a u : ℕ) →
        seen_pairs seen.new.items a u ≡ seen_pairs seen.old.items a u + pair_of v w 1 a u) }
{
    match place_of_seen(seen, marks, v, w) {
        Some(i) if seen[i].2 < MOST => seen[i].2 += 1,
        _ => {
            mark(marks, w, seen.len());
            seen.push((v, w, 1))?;
        }
    }
    Ok(())
}

// Notes the pairs at the corner in the slot, if it isn't empty.
fn note_slot(
    seen: &mut Vec<(u32, u32, u32)>,
    marks: &mut Vec<u32>,
    slot: &Option<Corner>,
) -> Result<(), NoMemory>
    ensures seen { OnOk result ((a u : ℕ) →
        seen_pairs seen.new.items a u ≡ seen_pairs seen.old.items a u + slot_share (corner_pairs a u) slot.now) }
{
    if let Some(corner) = slot {
        let [v, x, y, z] = corner.numbers();
        note(seen, marks, v, x)?;
        note(seen, marks, v, y)?;
        note(seen, marks, v, z)?;
    }
    Ok(())
}

// Counts the pair as often as it was seen, if its first point is in the table.
fn count_pair(rows: &mut Vec<Row>, pair: (u32, u32, u32)) -> Result<(), NoMemory>
    requires rows { AreRows (shown rows.old.items) }
    requires fits { pair.0 < vec_len rows.old → pair_count (shown rows.old.items) pair.0 pair.1 + pair.2 < 2 ^ 32 }
    ensures rows { AreRows (shown rows.new.items) }
    ensures len { vec_len rows.new ≡ vec_len rows.old }
    ensures pairs { OnOk result ((a u : ℕ) → a < vec_len rows.old →
        pair_count (shown rows.new.items) a u
        ≡ pair_count (shown rows.old.items) a u + pair_of pair.0 pair.1 pair.2 a u) }
{
    let (v, w, n) = pair;
    if n > 0 && (v as usize) < rows.len() {
        add_to(&mut rows[v as usize], w, n)?;
    }
    Ok(())
}

// Counts the pairs that were seen, in ascending order, and then is done with them.
fn count_seen(rows: &mut Vec<Row>, seen: &mut Vec<(u32, u32, u32)>) -> Result<(), NoMemory>
    requires rows { AreRows (shown rows.old.items) }
    requires fits { (a u : ℕ) → a < vec_len rows.old
        → pair_count (shown rows.old.items) a u + seen_pairs seen.old.items a u < 2 ^ 32 }
    ensures rows { AreRows (shown rows.new.items) }
    ensures len { vec_len rows.new ≡ vec_len rows.old }
    ensures seen { OnOk result (seen.new.items ≡ []) }
    ensures pairs { OnOk result ((a u : ℕ) → a < vec_len rows.old →
        pair_count (shown rows.new.items) a u ≡ pair_count (shown rows.old.items) a u + seen_pairs seen.old.items a u) }
{
    seen.sort_unstable();
    for i in 0..seen.len() {
        let pair = seen[i];
        count_pair(rows, pair)?;
    }
    seen.truncate(0);
    Ok(())
}

// Counts the pairs at the corners in these slots. It puts each neighbour of a point into its row once, where the
// corners of the point stand side by side.
fn count_slots(
    rows: &mut Vec<Row>,
    seen: &mut Vec<(u32, u32, u32)>,
    marks: &mut Vec<u32>,
    slots: &[Option<Corner>],
) -> Result<(), NoMemory>
    requires seen { seen.old.items ≡ [] }
    requires rows { AreRows (shown rows.old.items) }
    requires fits { (a u : ℕ) → a < vec_len rows.old
        → pair_count (shown rows.old.items) a u + sum_by (slot_share (corner_pairs a u)) slots.now < 2 ^ 32 }
    ensures rows { AreRows (shown rows.new.items) }
    ensures len { vec_len rows.new ≡ vec_len rows.old }
    ensures seen { OnOk result (seen.new.items ≡ []) }
    ensures pairs { OnOk result ((a u : ℕ) → a < vec_len rows.old →
        pair_count (shown rows.new.items) a u
        ≡ pair_count (shown rows.old.items) a u + sum_by (slot_share (corner_pairs a u)) slots.now) }
{
    for i in 0..slots.len() {
        note_slot(seen, marks, &slots[i])?;
        if point_at(slots, i) != point_at(slots, i + 1) {
            count_seen(rows, seen)?;
        }
    }
    count_seen(rows, seen)
}

/// Counts the pairs of these cells in rows that have none, range of points by range of points.
pub fn count_cells(
    alloc: Global,
    rows: &mut Vec<Row>,
    points: u32,
    cells: &[Option<Cell>],
) -> Result<(), NoMemory>
    requires few_cells { length cells.now ≤ MOST_CELLS }
    requires within { AreWithin points cells.now }
    requires rows { AreRows (shown rows.old.items) }
    requires none { (a u : ℕ) → pair_count (shown rows.old.items) a u ≡ 0 }
    ensures rows { AreRows (shown rows.new.items) }
    ensures len { vec_len rows.new ≡ vec_len rows.old }
    ensures pairs { OnOk result ((a u : ℕ) → a < vec_len rows.old
        → pair_count (shown rows.new.items) a u ≡ cell_pairs cells.now a u) }
{
    are_all_different(cells);
    let mut ranges = CornerRanges::new(alloc, points, cells)?;
    let mut marks = vec![in alloc; 0u32; points as usize]?;
    let mut seen = Vec::new(alloc);
    let count = ranges.count();
    for range in 0..count {
        ranges.fill(range)?;
        count_slots(rows, &mut seen, &mut marks, ranges.slots())?;
    }
    Ok(())
}
