//! Slots for the corners of a range.
//!
//! Which slot a corner gets is a hint, and no contract speaks of it: a slot that isn't there or is taken is left as it
//! is, and the corner gets a new one. So nothing rests on the order, and each corner has exactly one slot.
ghost use Rattle.std.specs.Prelude.{◌≡◌, ℕ, ◌+◌, ◌==◌, [], ◌∷◌, filter, sum_by, OnOk};
ghost use Rattle.mesh_base.specs.Mesh.{Corners, AreDifferent};
ghost use Rattle.corner_ranges.specs.Ranges.{range_of, corners_in, slot_share};
ghost use Rattle.corner_ranges.specs.Visits.{visit_share};

use crate::{Corner, RANGE};
use mesh_base::{Cell, NoMemory, live_cell};
use std::alloc::Global;

// One more for each corner of the cell, at the place after its point.
fn count_corners(ends: &mut Vec<u32>, cell: &Cell) {
    for v in cell.corners() {
        if let Some(n) = ends.get_mut((v as usize).saturating_add(1)) {
            *n = n.wrapping_add(1);
        }
    }
}

/// Where the slots of each point begin, and at last where those of all points end.
pub fn first_slots(
    alloc: Global,
    points: u32,
    cells: &[Option<Cell>],
) -> Result<Vec<u32>, NoMemory> {
    let mut starts = vec![in alloc; 0u32; (points as usize).saturating_add(1)]?;
    for cell in cells.iter().flatten() {
        count_corners(&mut starts, cell);
    }
    let mut sum = 0u32;
    for n in starts.iter_mut() {
        sum = sum.wrapping_add(*n);
        *n = sum;
    }
    Ok(starts)
}

// Lists where the slots of each point of the range begin among those of the range, and tells how many these are.
fn start_range(starts: &[u32], next: &mut Vec<u32>, range: u32) -> Result<usize, NoMemory> {
    let width = RANGE as usize;
    let starts = starts
        .get((range as usize).saturating_mul(width)..)
        .unwrap_or(&[]);
    let first = starts.first().copied().unwrap_or(0);
    let end = match starts.get(width) {
        Some(end) => *end,
        None => starts.last().copied().unwrap_or(0),
    };
    next.clear();
    for start in starts.iter().take(width) {
        next.push(start.wrapping_sub(first))?;
    }
    Ok(end.wrapping_sub(first) as usize)
}

// The next slot of point v.
fn next_slot(next: &mut Vec<u32>, v: u32) -> usize {
    match next.get_mut((v % RANGE) as usize) {
        Some(slot) => {
            let at = *slot;
            *slot = at.wrapping_add(1);
            at as usize
        }
        None => usize::MAX,
    }
}

// Puts the corner into the slot if that is there and empty, and else into a new one.
fn put_at(slots: &mut Vec<Option<Corner>>, at: usize, corner: Corner) -> Result<(), NoMemory>
    ensures shares { OnOk result ((g : Corners → ℕ) →
        sum_by (slot_share g) slots.new.items ≡ sum_by (slot_share g) slots.old.items + g corner) }
{
    if at < slots.len() && slots[at].is_none() {
        slots[at] = Some(corner);
    } else {
        slots.push(Some(corner))?;
    }
    Ok(())
}

// Puts in the corner at v if that is a point of the range.
fn put_corner(
    next: &mut Vec<u32>,
    slots: &mut Vec<Option<Corner>>,
    range: u32,
    v: u32,
    x: u32,
    y: u32,
    z: u32,
) -> Result<(), NoMemory>
    requires different { AreDifferent (v, x, y, z) }
    ensures shares { OnOk result ((g : Corners → ℕ) → sum_by (slot_share g) slots.new.items
        ≡ sum_by (slot_share g) slots.old.items + sum_by g (filter (λ k. range_of k.0 == range) ((v, x, y, z) ∷ []))) }
{
    if v / RANGE == range {
        let at = next_slot(next, v);
        put_at(slots, at, Corner::new(v, x, y, z))?;
    }
    Ok(())
}

// Puts in those corners of the cell, if there is one, that are at points of the range.
fn put_cell(
    next: &mut Vec<u32>,
    slots: &mut Vec<Option<Corner>>,
    range: u32,
    cell: &Option<Cell>,
) -> Result<(), NoMemory>
    ensures shares { OnOk result ((g : Corners → ℕ) → sum_by (slot_share g) slots.new.items
        ≡ sum_by (slot_share g) slots.old.items + sum_by g (corners_in range (cell.now ∷ []))) }
{
    match cell {
        Some(cell) => {
            let [a, b, c, d] = cell.corners();
            put_corner(next, slots, range, a, b, c, d)?;
            put_corner(next, slots, range, b, a, c, d)?;
            put_corner(next, slots, range, c, a, b, d)?;
            put_corner(next, slots, range, d, a, b, c)
        }
        None => Ok(()),
    }
}

/// Fills the slots anew with the corners at the points of the range that the cells with these numbers have.
pub fn fill_slots(
    starts: &[u32],
    next: &mut Vec<u32>,
    slots: &mut Vec<Option<Corner>>,
    cells: &[Option<Cell>],
    numbers: &[u32],
    range: u32,
) -> Result<(), NoMemory>
    ensures shares { OnOk result ((g : Corners → ℕ) →
        sum_by (slot_share g) slots.new.items ≡ sum_by (visit_share g range cells.now) numbers.now) }
{
    let count = start_range(starts, next, range)?;
    slots.clear();
    slots.resize(count, None)?;
    for i in numbers {
        let cell = live_cell(cells, *i as usize);
        put_cell(next, slots, range, &cell)?;
    }
    Ok(())
}
