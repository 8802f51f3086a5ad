//! Meshes that are listed by hand.
ghost use Rattle.std.specs.Prelude.{◌≡◌, All, map, IfOk, SomeIff};
ghost use Rattle.mesh_base.specs.Place.{IsArea, IsPlace};
ghost use Rattle.sample_meshes.specs.Listed.{IsListed, cell_of as cell_at_row, listed, one_cell as the_cell, place_of};

use mesh_base::{BoxQ, Cell, CellList, Mesh, NoMemory, Point, PointList};
use std::alloc::Global;

/// The places of a cell that was split round point 4, of which a quarter was split round point 5.
pub const SPLIT_PLACES: [[i32; 3]; 6] = [
    [0, 0, 0],
    [16, 0, 0],
    [0, 16, 0],
    [0, 0, 16],
    [4, 4, 4],
    [2, 6, 3],
];

/// The corners of the cells that the two splits leave.
pub const SPLIT_CELLS: [[u32; 4]; 7] = [
    [4, 1, 2, 3],
    [0, 1, 4, 3],
    [0, 1, 2, 4],
    [5, 4, 2, 3],
    [0, 5, 2, 3],
    [0, 4, 5, 3],
    [0, 4, 2, 5],
];

// The point at this place, or None where it is out of range.
fn point_of(at: &[i32; 3]) -> Option<Point>
    ensures { SomeIff result (IsPlace (place_of at.now)) (place_of at.now) }
{
    let [x, y, z] = *at;
    Point::new(x, y, z)
}

/// The box between two corners. None where a coordinate is out of range, or the low corner has one above that of the
/// high one.
pub fn area_of(lo: &[i32; 3], hi: &[i32; 3]) -> Option<BoxQ>
    ensures { SomeIff result (IsPlace (place_of lo.now) × IsPlace (place_of hi.now)
        × IsArea (place_of lo.now) (place_of hi.now)) (record { lo = place_of lo.now; hi = place_of hi.now }) }
{
    BoxQ::new(point_of(lo)?, point_of(hi)?)
}

// The points at these places, or None where one is out of range.
fn points_of(alloc: Global, places: &[[i32; 3]]) -> Result<Option<PointList>, NoMemory>
    ensures { IfOk result (λ found. SomeIff found (All (λ at. IsPlace (place_of at)) places.now)
        (map place_of places.now)) }
{
    let mut points = Vec::with_capacity(alloc, places.len())?;
    for at in places {
        match point_of(at) {
            Some(point) => points.push(point)?,
            None => return Ok(None),
        }
    }
    Ok(Some(PointList::of(points)))
}

// The cell with these corners, or None where a number stands twice.
fn cell_of(row: &[u32; 4]) -> Option<Cell>
    ensures { result ≡ cell_at_row row.now }
{
    Cell::new(*row)
}

// The cells of these rows, of which some may be absent.
fn cells_of(alloc: Global, rows: &[[u32; 4]]) -> Result<CellList, NoMemory>
    ensures { IfOk result (λ cells. cells ≡ map cell_at_row rows.now) }
{
    let mut cells = Vec::with_capacity(alloc, rows.len())?;
    for row in rows {
        cells.push(cell_of(row))?;
    }
    Ok(CellList::of(cells))
}

/// The mesh with a point at each of these places and a cell for each of these rows of corners, in their order.
///
/// A row that has a number twice stands for an absent cell. None where a coordinate is out of range, a corner isn't the
/// number of a point, or the mesh would be above its limits.
pub fn mesh_of(
    alloc: Global,
    places: &[[i32; 3]],
    rows: &[[u32; 4]],
) -> Result<Option<Mesh>, NoMemory>
    ensures { IfOk result (λ found. SomeIff found (IsListed places.now rows.now) (listed places.now rows.now)) }
{
    let Some(points) = points_of(alloc, places)? else {
        return Ok(None);
    };
    let cells = cells_of(alloc, rows)?;
    Ok(Mesh::new(points, cells))
}

/// One cell, with a corner at the origin and the others 4 along each axis.
pub fn one_cell(alloc: Global) -> Result<Mesh, NoMemory>
    ensures { IfOk result (λ mesh. mesh ≡ the_cell) }
{
    let places = [[0, 0, 0], [4, 0, 0], [0, 4, 0], [0, 0, 4]];
    match mesh_of(alloc, &places, &[[0, 1, 2, 3]])? {
        Some(mesh) => Ok(mesh),
        None => unreachable!(),
    }
}
