//! Which cells have corners in which range.
ghost use Rattle.std.specs.Prelude.{◌≡◌, ℕ, ◌+◌, ◌<◌, ◌≤◌, not, ◌&&◌, [], length, sum_by, vec_len, nat_eq, if◌then◌else◌, IfOk, OnOk};
ghost use Rattle.corner_ranges.specs.Visits.{reaches, listed, HaveRanges};

use crate::RANGE;
use mesh_base::{Cell, MOST_CELLS, NoMemory};
use std::alloc::Global;

// Lists number i for the range, if that is wanted and there is such a range.
fn list_in(visits: &mut Vec<Vec<u32>>, range: u32, i: u32, wanted: bool) -> Result<(), NoMemory>
    ensures len { vec_len visits.new ≡ vec_len visits.old }
    ensures listed { OnOk result ((h : ℕ → ℕ) (r : ℕ) → r < vec_len visits.old →
        sum_by h (listed visits.new.items r)
        ≡ sum_by h (listed visits.old.items r) + (if wanted && nat_eq range r then h i else 0)) }
{
    if wanted && (range as usize) < visits.len() {
        visits[range as usize].push(i)?;
    }
    Ok(())
}

// Whether the range is none of three.
fn is_other(range: u32, p: u32, q: u32, r: u32) -> bool
    ensures { result ≡ not (nat_eq range p) && (not (nat_eq range q) && not (nat_eq range r)) }
{
    range != p && range != q && range != r
}

// Lists the cell, if there is one, once for each range that it has a corner in.
fn list_cell(visits: &mut Vec<Vec<u32>>, i: u32, cell: &Option<Cell>) -> Result<(), NoMemory>
    ensures len { vec_len visits.new ≡ vec_len visits.old }
    ensures listed { OnOk result ((h : ℕ → ℕ) (r : ℕ) → r < vec_len visits.old →
        sum_by h (listed visits.new.items r)
        ≡ sum_by h (listed visits.old.items r) + (if reaches cell.now r then h i else 0)) }
{
    if let Some(cell) = cell {
        let [a, b, c, d] = cell.corners();
        let (p, q, r, s) = (a / RANGE, b / RANGE, c / RANGE, d / RANGE);
        list_in(visits, p, i, true)?;
        list_in(visits, q, i, is_other(q, p, p, p))?;
        list_in(visits, r, i, is_other(r, p, q, q))?;
        list_in(visits, s, i, is_other(s, p, q, r))?;
    }
    Ok(())
}

// Empty lists for so many ranges.
fn empty_lists(alloc: Global, count: u32) -> Result<Vec<Vec<u32>>, NoMemory>
    ensures len { IfOk result (λ visits. vec_len visits ≡ count) }
    ensures empty { IfOk result (λ visits. (r : ℕ) → listed visits.items r ≡ []) }
{
    let mut visits = Vec::new(alloc);
    for _range in 0..count {
        visits.push(Vec::new(alloc))?;
    }
    Ok(visits)
}

/// Lists, for each of so many ranges, the numbers of the cells with a corner in it.
pub fn list_cells(
    alloc: Global,
    count: u32,
    cells: &[Option<Cell>],
) -> Result<Vec<Vec<u32>>, NoMemory>
    requires few_cells { length cells.now ≤ MOST_CELLS }
    ensures len { IfOk result (λ visits. vec_len visits ≡ count) }
    ensures listed { IfOk result (λ visits. HaveRanges cells.now count visits.items) }
{
    let mut visits = empty_lists(alloc, count)?;
    for i in 0..cells.len() {
        list_cell(&mut visits, i as u32, &cells[i])?;
    }
    Ok(visits)
}
