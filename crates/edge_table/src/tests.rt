//! Tables beside neighbours that were worked out by hand, and beside tables that are built anew.
ghost use Rattle.std.specs.Prelude.{◌≡◌, ◌+◌, ◌<◌, Some, [], ◌∷◌, ◌++◌, length, OnOk, IfOk};
ghost use Rattle.mesh_base.specs.Mesh.{corners_of};
ghost use Rattle.edge_table.specs.Pairs.{IsPairsOf};

use crate::EdgeTable;
use mesh_base::{Cell, CellList, MOST_CELLS, MOST_POINTS, Mesh, Point, PointList, live_cell};
use sample_meshes::block_mesh;
use std::alloc::Global;
use std::test::Fail;

// A table of points that no cell has.
fn bare(alloc: Global, points: u32) -> Result<EdgeTable, Fail>
    ensures points { IfOk result (λ table. length table ≡ points) }
    ensures pairs { IfOk result (IsPairsOf []) }
{
    let mut table = EdgeTable::build(alloc, 0, &[])?;
    for _point in 0..points {
        table.put_point(alloc)?;
    }
    Ok(table)
}

// Appends a cell to the list, and puts it into the table.
fn append(
    alloc: Global,
    table: &mut EdgeTable,
    points: u32,
    cells: &mut Vec<Option<Cell>>,
    corners: [u32; 4],
) -> Result<(), Fail>
    requires points { length table.old ≡ points }
    requires pairs { IsPairsOf cells.old.items table.old }
    ensures points { length table.new ≡ length table.old }
    ensures pairs { OnOk result (IsPairsOf cells.new.items table.new) }
{
    let cell = Cell::new(corners).ok_or("a corner twice")?;
    let [a, b, c, d] = cell.corners();
    if a >= points || b >= points || c >= points || d >= points || cells.len() >= MOST_CELLS {
        return Err(Fail::new("limits"));
    }
    cells.reserve(1)?;
    table.put_cell(alloc, cell)?;
    cells.push_reserved(Some(cell));
    Ok(())
}

// Makes cell i absent, and takes it out of the table.
fn remove(table: &mut EdgeTable, cells: &mut Vec<Option<Cell>>, i: usize) -> Result<Cell, Fail>
    requires pairs { IsPairsOf cells.old.items table.old }
    ensures points { length table.new ≡ length table.old }
    ensures pairs { IsPairsOf cells.new.items table.new }
{
    match live_cell(cells, i) {
        Some(cell) if i < cells.len() => {
            table.take_cell(cell);
            cells[i] = None;
            Ok(cell)
        }
        _ => Err(Fail::new("no cell")),
    }
}

// Appends a cell to the list.
fn list(cells: &mut Vec<Option<Cell>>, corners: [u32; 4]) -> Result<(), Fail>
    ensures { OnOk result (cells.new.items ≡ cells.old.items ++ Some (corners_of corners) ∷ []) }
{
    let cell = Cell::new(corners).ok_or("a corner twice")?;
    cells.reserve(1)?;
    cells.push_reserved(Some(cell));
    Ok(())
}

// Replaces cell i by four cells round a new point.
fn split(
    alloc: Global,
    table: &mut EdgeTable,
    point: u32,
    cells: &mut Vec<Option<Cell>>,
    i: usize,
) -> Result<(), Fail>
    requires points { length table.old ≡ point }
    requires pairs { IsPairsOf cells.old.items table.old }
    ensures points { OnOk result (length table.new ≡ point + 1) }
    ensures pairs { OnOk result (IsPairsOf cells.new.items table.new) }
{
    match live_cell(cells, i) {
        Some(cell) if i < cells.len() && cells.len() < MOST_CELLS => {
            table.split_cell(alloc, point, cell)?;
            cells[i] = None;
            let [a, b, c, d] = cell.corners();
            list(cells, [point, b, c, d])?;
            list(cells, [a, point, c, d])?;
            list(cells, [a, b, point, d])?;
            list(cells, [a, b, c, point])?;
            Ok(())
        }
        _ => Err(Fail::new("no cell")),
    }
}

// A mesh with these cells, whose points lie all in one place.
fn mesh_of(alloc: Global, points: u32, cells: &[Option<Cell>]) -> Result<Mesh, Fail>
    ensures { IfOk result (λ mesh. length mesh.points ≡ points) }
{
    let place = Point::new(0, 0, 0).ok_or("place")?;
    let places = PointList::of(vec![in alloc; place; points as usize]?);
    let cells = CellList::of(cells.to_vec(alloc)?);
    let mesh = Mesh::new(places, cells).ok_or("limits")?;
    Ok(mesh)
}

// How many neighbours all points have together, where the table is that which is built anew from the cells.
fn compared(
    alloc: Global,
    table: &EdgeTable,
    points: u32,
    cells: &[Option<Cell>],
) -> Result<usize, Fail>
    requires points { length table.now ≡ points }
{
    let mesh = mesh_of(alloc, points, cells)?;
    let built = EdgeTable::build(alloc, points, mesh.cells())?;
    let mut sum = 0usize;
    for v in 0..points {
        if table.neighbours(v) != built.neighbours(v) {
            return Err(Fail::new(format_args!("neighbours of {v}")));
        }
        sum = sum.wrapping_add(built.neighbours(v).len());
    }
    Ok(sum)
}

// Whether each row has the neighbours that are wanted.
fn has_neighbours(table: &EdgeTable, wanted: &[&[u32]]) -> bool
    requires points { length table.now ≡ length wanted.now }
    requires few { length wanted.now < 1000 }
{
    for (v, near) in wanted.iter().enumerate() {
        if table.neighbours(v as u32) != *near {
            return false;
        }
    }
    true
}

// Appends cells, and puts them into the table.
fn fill(
    alloc: Global,
    table: &mut EdgeTable,
    points: u32,
    cells: &mut Vec<Option<Cell>>,
    corners: &[[u32; 4]],
) -> Result<(), Fail>
    requires points { length table.old ≡ points }
    requires pairs { IsPairsOf cells.old.items table.old }
    ensures points { length table.new ≡ length table.old }
    ensures pairs { OnOk result (IsPairsOf cells.new.items table.new) }
{
    for four in corners {
        append(alloc, table, points, cells, *four)?;
    }
    Ok(())
}

// Puts each cell in once more, and takes it out again.
fn refill(
    alloc: Global,
    table: &mut EdgeTable,
    points: u32,
    cells: &mut Vec<Option<Cell>>,
    corners: &[[u32; 4]],
) -> Result<(), Fail>
    requires points { length table.old ≡ points }
    requires pairs { IsPairsOf cells.old.items table.old }
    ensures points { length table.new ≡ length table.old }
    ensures pairs { OnOk result (IsPairsOf cells.new.items table.new) }
{
    for four in corners {
        let last = cells.len();
        append(alloc, table, points, cells, *four)?;
        remove(table, cells, last)?;
    }
    Ok(())
}

// Takes out the first cells.
fn clear(table: &mut EdgeTable, cells: &mut Vec<Option<Cell>>, count: usize) -> Result<(), Fail>
    requires pairs { IsPairsOf cells.old.items table.old }
    ensures points { length table.new ≡ length table.old }
    ensures pairs { OnOk result (IsPairsOf cells.new.items table.new) }
{
    for i in 0..count {
        remove(table, cells, i)?;
    }
    Ok(())
}

// Splits the first cells, each round a point of its own.
fn split_first(
    alloc: Global,
    table: &mut EdgeTable,
    points: u32,
    cells: &mut Vec<Option<Cell>>,
    count: u32,
) -> Result<(), Fail>
    requires points { length table.old ≡ points }
    requires few { points + count < MOST_POINTS }
    requires pairs { IsPairsOf cells.old.items table.old }
    ensures points { OnOk result (length table.new ≡ points + count) }
    ensures pairs { OnOk result (IsPairsOf cells.new.items table.new) }
{
    for i in 0..count {
        split(alloc, table, points + i, cells, i as usize)?;
    }
    Ok(())
}

// Puts the cells into a table, each once more and out again, and then takes all out.
fn check_case(alloc: Global, corners: &[[u32; 4]], wanted: &[&[u32]]) -> Result<(), Fail> {
    if wanted.len() >= 1000 {
        return Err(Fail::new("too many points"));
    }
    let points = wanted.len() as u32;
    let mut table = bare(alloc, points)?;
    let mut cells = Vec::new(alloc);
    fill(alloc, &mut table, points, &mut cells, corners)?;
    if !has_neighbours(&table, wanted) {
        return Err(Fail::new("neighbours"));
    }
    refill(alloc, &mut table, points, &mut cells, corners)?;
    if !has_neighbours(&table, wanted) {
        return Err(Fail::new("put and taken"));
    }
    compared(alloc, &table, points, cells.as_slice())?;
    clear(&mut table, &mut cells, corners.len())?;
    if compared(alloc, &table, points, cells.as_slice())? != 0 {
        return Err(Fail::new("all taken"));
    }
    Ok(())
}

#[test]
fn neighbours_are_those_of_the_cells(rt: HostRuntime) -> Result<(), Fail> {
    let alloc = rt.alloc();
    // a cell that was split twice
    check_case(
        alloc,
        &[
            [4, 1, 2, 3],
            [0, 1, 4, 3],
            [0, 1, 2, 4],
            [5, 4, 2, 3],
            [0, 5, 2, 3],
            [0, 4, 5, 3],
            [0, 4, 2, 5],
        ],
        &[
            &[1, 2, 3, 4, 5],
            &[0, 2, 3, 4],
            &[0, 1, 3, 4, 5],
            &[0, 1, 2, 4, 5],
            &[0, 1, 2, 3, 5],
            &[0, 2, 3, 4],
        ],
    )?;
    // a cell that stands twice, and a point that no cell has
    check_case(
        alloc,
        &[[3, 0, 1, 4], [4, 3, 1, 0]],
        &[&[1, 3, 4], &[0, 3, 4], &[], &[0, 1, 4], &[0, 1, 3]],
    )?;
    // no cells
    check_case(alloc, &[], &[&[], &[]])
}

#[test]
fn points_come_and_go(rt: HostRuntime) -> Result<(), Fail> {
    let mut table = bare(rt.alloc(), 1)?;
    table.put_point(rt.alloc())?;
    table.drop_point();
    table.put_point(rt.alloc())?;
    assert_eq!(rt; table.neighbours(1).len(), 0);
    Ok(())
}

// The corners of the cells of the block of 20 cubes a side.
fn block(alloc: Global) -> Result<Vec<[u32; 4]>, Fail> {
    let mut corners = Vec::new(alloc);
    for cell in block_mesh(alloc, 20)?.cells().iter().flatten() {
        corners.push(cell.corners())?;
    }
    Ok(corners)
}

// The sum of all degrees was counted by a script of a few lines that keeps a set for each point.
#[test]
fn ten_thousand_splits_are_as_built_anew(rt: HostRuntime) -> Result<(), Fail> {
    let alloc = rt.alloc();
    let corners = block(alloc)?;
    let mut table = bare(alloc, 9_261)?;
    let mut cells = Vec::new(alloc);
    fill(alloc, &mut table, 9_261, &mut cells, &corners)?;
    assert_eq!(rt; compared(alloc, &table, 9_261, cells.as_slice())?, 119_320);
    split_first(alloc, &mut table, 9_261, &mut cells, 10_000)?;
    assert_eq!(rt; cells.len(), 88_000);
    assert_eq!(rt; compared(alloc, &table, 19_261, cells.as_slice())?, 199_320);
    Ok(())
}
