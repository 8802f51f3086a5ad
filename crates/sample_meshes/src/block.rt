//! The block of cubes.
ghost use Rattle.std.specs.Prelude.{◌≡◌, ◌<◌, ◌≤◌, ◌+◌, ◌*◌, ℕ, IfOk, Some, None, map, nat_le, if◌then◌else◌};
ghost use Rattle.std.specs.List.{range_with_len};
ghost use Rattle.mesh_base.specs.Mesh.{IsWithin, AreWithin, AreDifferent, AreAllDifferent};
ghost use Rattle.sample_meshes.specs.Block.{block, block_cell, cubed, first_step, grid_place, low_corner, most_side, on_x, on_y, on_z, path_cell, second_step};

use mesh_base::{Cell, CellList, Mesh, NoMemory, Point, PointList};
use std::alloc::Global;
use std::marker::Model;

/// The most cubes along a side, so that the points of a block fit a mesh.
pub const MOST_SIDE: u32 = 87;

/// How many cubes a block has along a side, from 1 to 87.
#[derive(Clone, Copy, Debug, PartialEq, Eq)]
pub struct Side {
    cubes: u32,
}

impl Model for Side {
    ghost Value = { ℕ };

    ghost view = { λ side. side.cubes };

    ghost invariant = { λ side. (1 ≤ side.cubes) × (side.cubes ≤ most_side) };

    ghost inverse = { λ n. record { cubes = n } };
}

impl Side {
    /// So many cubes, or `None` where there are none. There are at most 87.
    pub fn new(cubes: u32) -> Option<Side>
        requires { cubes ≤ most_side }
        ensures { result ≡ (if nat_le 1 cubes then Some cubes else None) }
    {
        if cubes >= 1 {
            Some(Side { cubes })
        } else {
            None
        }
    }

    /// The number of cubes along a side.
    pub fn cubes(self) -> u32
        ensures number { result ≡ self }
        ensures range { (1 ≤ result) × (result ≤ most_side) }
    {
        self.cubes
    }
}

// The point with this number, where there are `side` points along a side.
fn grid_point(side: u32, v: u32) -> Point
    requires side { (0 < side) × (side ≤ 88) }
    requires number { v < cubed side }
    ensures { result ≡ grid_place side v }
{
    let x = (16 * (v % side)) as i32;
    let y = (16 * (v / side % side)) as i32;
    let z = (16 * (v / (side * side))) as i32;
    match Point::new(x, y, z) {
        Some(point) => point,
        None => unreachable!(),
    }
}

// How far the number of a point rises along the two axes of a pair.
fn pair_steps(side: u32, pair: u32) -> (u32, u32)
    requires side { (0 < side) × (side ≤ 88) }
    requires pair { pair < 6 }
    ensures steps { result ≡ (first_step side pair, second_step side pair) }
    ensures sum { result.0 + result.1 ≤ side + side * side }
    ensures rise { (0 < result.0) × (0 < result.1) }
{
    let along_z = side * side;
    match pair {
        0 => (1, side),
        1 => (1, along_z),
        2 => (side, 1),
        3 => (side, along_z),
        4 => (along_z, 1),
        _ => (along_z, side),
    }
}

// The low corner of a cube.
fn low_corner_of(n: u32, cube: u32) -> u32
    requires side { (0 < n) × (n ≤ 87) }
    requires number { cube < cubed n }
    ensures corner { result ≡ low_corner n cube }
    ensures room { result + 1 + (n + 1) + (n + 1) * (n + 1) < cubed (n + 1) }
{
    let side = n + 1;
    cube % n + cube / n % n * side + cube / (n * n) * (side * side)
}

// The cell with this number, where there are n cubes along a side.
fn cell_at(n: u32, t: u32) -> Cell
    requires side { (0 < n) × (n ≤ 87) }
    requires number { t < 6 * cubed n }
    ensures cell { result ≡ block_cell n t }
    ensures within { IsWithin (cubed (n + 1)) result }
    ensures different { AreDifferent result }
{
    let side = n + 1;
    let p = low_corner_of(n, t / 6);
    let (first, second) = pair_steps(side, t % 6);
    let opposite = p + 1 + side + side * side;
    match Cell::new([p, p + first, p + first + second, opposite]) {
        Some(cell) => cell,
        None => unreachable!(),
    }
}

fn block_points(alloc: Global, side: u32) -> Result<PointList, NoMemory>
    requires { (0 < side) × (side ≤ 88) }
    ensures { IfOk result (λ points. points ≡ map (grid_place side) (range_with_len 0 (cubed side))) }
{
    let count = side * side * side;
    let mut points = Vec::with_capacity(alloc, count as usize)?;
    for v in 0..count {
        points.push(grid_point(side, v))?;
    }
    Ok(PointList::of(points))
}

fn block_cells(alloc: Global, n: u32) -> Result<CellList, NoMemory>
    requires { (0 < n) × (n ≤ 87) }
    ensures cells { IfOk result (λ cells. cells ≡ map (λ t. Some (block_cell n t)) (range_with_len 0 (6 * cubed n))) }
    ensures within { IfOk result (AreWithin (cubed (n + 1))) }
    ensures different { IfOk result AreAllDifferent }
{
    let count = 6 * (n * n * n);
    let mut cells = Vec::with_capacity(alloc, count as usize)?;
    for t in 0..count {
        cells.push(Some(cell_at(n, t)))?;
    }
    Ok(CellList::of(cells))
}

/// The block of n cubes a side, for `gen`.
///
/// Its time and its memory are those of the mesh: (n + 1)^3 points and 6 n^3 cells.
pub fn block_mesh(alloc: Global, n: u32) -> Result<Mesh, NoMemory>
    requires { (0 < n) × (n ≤ 87) }
    ensures { IfOk result (λ mesh. mesh ≡ block n) }
{
    let points = block_points(alloc, n + 1)?;
    let cells = block_cells(alloc, n)?;
    match Mesh::new(points, cells) {
        Some(mesh) => Ok(mesh),
        None => unreachable!(),
    }
}
