//! The cells of each point, gathered by counting: how many there are, where each row begins, and then each cell at the
//! next place of its rows.
ghost use Rattle.std.specs.Prelude.{◌≡◌, ℕ, ◌+◌, ◌-◌, ◌<◌, ◌≤◌, ◌^◌, List, [], length, replicate, slice_index, IfOk};
ghost use Rattle.mesh_base.specs.Mesh.{AreWithin};
ghost use Rattle.cell_box.specs.Rows.{IsCounted, IsPlaced, corners_before, start_of, sum_to};

use mesh_base::{MOST_CELLS, NoMemory};
use std::alloc::Global;
use topo::Shape;

// Counts the corners of cell number i.
fn count_cell(shape: &Shape, i: u32, starts: &mut [usize])
    requires cell { i < length shape.now.cells }
    requires few { length shape.now.cells ≤ MOST_CELLS }
    requires within { AreWithin (length starts.old - 1) shape.now.cells }
    requires counted { IsCounted (corners_before shape.now.cells i) starts.old }
    ensures counted { IsCounted (corners_before shape.now.cells (i + 1)) starts.new }
{
    if let Some(cell) = shape.cell(i) {
        for v in cell.corners() {
            starts[v as usize + 1] += 1;
        }
    }
}

// How many corners there are at each point, from place 1 on.
fn count_all(shape: &Shape, starts: &mut [usize])
    requires points { length starts.old ≡ shape.now.points + 1 }
    requires zeros { starts.old ≡ replicate (length starts.old) 0 }
    ensures counted { IsCounted (corners_before shape.now.cells (length shape.now.cells)) starts.new }
{
    for i in 0..shape.cells() {
        count_cell(shape, i, starts);
    }
}

// From place 1 on, the sum of the numbers before in place of each. It gives the sum of all.
fn sum_up(starts: &mut [usize]) -> usize
    requires some { 0 < length starts.old }
    requires few { (v : ℕ) → v < length starts.old → sum_to starts.old v < 2 ^ 63 }
    ensures total { result ≡ sum_to starts.old (length starts.old - 1) }
    ensures first { slice_index starts.new 0 ≡ slice_index starts.old 0 }
    ensures sums { (v : ℕ) → v + 1 < length starts.old → slice_index starts.new (v + 1) ≡ sum_to starts.old v }
{
    let mut total = 0;
    for v in 0..starts.len() - 1 {
        let count = starts[v + 1];
        starts[v + 1] = total;
        total += count;
    }
    total
}

// Where the row of each point begins, at the place behind its number, and 0 in front. Beside it, how long all rows are.
pub(crate) fn starts_of(alloc: Global, shape: &Shape) -> Result<(Vec<usize>, usize), NoMemory>
    ensures len { IfOk result (λ r. length r.0.items ≡ shape.now.points + 1) }
    ensures total { IfOk result (λ r. r.1 ≡ start_of
        (corners_before shape.now.cells (length shape.now.cells)) shape.now.points) }
    ensures placed { IfOk result (λ r. (numbers : List ℕ)
        → IsPlaced (corners_before shape.now.cells (length shape.now.cells)) [] r.0.items numbers) }
{
    let _cells = shape.cells();
    let points = shape.points() as usize;
    let mut starts = vec![in alloc; 0usize; points + 1]?;
    let places = starts.as_mut_slice();
    count_all(shape, places);
    let total = sum_up(places);
    Ok((starts, total))
}

// Places cell number i in the rows of its corners.
fn place_cell(shape: &Shape, i: u32, starts: &mut [usize], numbers: &mut [u32])
    requires cell { i < length shape.now.cells }
    requires few { length shape.now.cells ≤ MOST_CELLS }
    requires within { AreWithin (length starts.old - 1) shape.now.cells }
    requires room { length numbers.old ≡ start_of (corners_before shape.now.cells (length shape.now.cells))
        (length starts.old - 1) }
    requires placed { IsPlaced (corners_before shape.now.cells (length shape.now.cells))
        (corners_before shape.now.cells i) starts.old numbers.old }
    ensures placed { IsPlaced (corners_before shape.now.cells (length shape.now.cells))
        (corners_before shape.now.cells (i + 1)) starts.new numbers.new }
{
    if let Some(cell) = shape.cell(i) {
        for v in cell.corners() {
            let end = starts[v as usize + 1];
            numbers[end] = i;
            starts[v as usize + 1] = end + 1;
        }
    }
}

// Places all cells.
pub(crate) fn place_all(shape: &Shape, starts: &mut [usize], numbers: &mut [u32])
    requires points { length starts.old ≡ shape.now.points + 1 }
    requires room { length numbers.old ≡ start_of (corners_before shape.now.cells (length shape.now.cells))
        (length starts.old - 1) }
    requires placed { IsPlaced (corners_before shape.now.cells (length shape.now.cells))
        (corners_before shape.now.cells 0) starts.old numbers.old }
    ensures placed { IsPlaced (corners_before shape.now.cells (length shape.now.cells))
        (corners_before shape.now.cells (length shape.now.cells)) starts.new numbers.new }
{
    for i in 0..shape.cells() {
        place_cell(shape, i, starts, numbers);
    }
}
