//! Tables beside surfaces that were worked out by hand, and beside tables that are built anew.
ghost use Rattle.std.specs.Prelude.{◌≡◌, ◌+◌, ◌<◌, ◌≤◌, ◌↔◌, Some, [], ◌∷◌, ◌++◌, length, IsTrue, OnOk, IfOk};
ghost use Rattle.mesh_base.specs.Mesh.{IsWithin, corners_of};
ghost use Rattle.face_table.specs.Tally.{IsTallyOf};

use crate::FaceTable;
use mesh_base::{Cell, CellList, Face, MOST_CELLS, MOST_POINTS, Mesh, Point, PointList, live_cell};
use sample_meshes::block_mesh;
use std::alloc::Global;
use std::test::Fail;

// A table of points that no cell has.
fn bare(alloc: Global, points: u32) -> Result<FaceTable, Fail>
    ensures points { IfOk result (λ table. table.points ≡ points) }
    ensures cells { IfOk result (IsTallyOf []) }
{
    let mut table = FaceTable::build(alloc, 0, &[])?;
    for _point in 0..points {
        table.put_point(alloc)?;
    }
    Ok(table)
}

fn is_within(cell: &Cell, points: u32) -> bool
    ensures { IsTrue result ↔ IsWithin points cell.now }
{
    let [a, b, c, d] = cell.corners();
    a < points && b < points && c < points && d < points
}

// Appends a cell to the list, and puts it into the table.
fn append(
    alloc: Global,
    table: &mut FaceTable,
    points: u32,
    cells: &mut Vec<Option<Cell>>,
    corners: [u32; 4],
) -> Result<(), Fail>
    requires points { table.old.points ≡ points }
    requires cells { IsTallyOf cells.old.items table.old }
    ensures points { table.new.points ≡ table.old.points }
    ensures cells { OnOk result (IsTallyOf cells.new.items table.new) }
{
    let cell = Cell::new(corners).ok_or("a corner twice")?;
    if !is_within(&cell, points) || cells.len() >= MOST_CELLS {
        return Err(Fail::new("limits"));
    }
    cells.reserve(1)?;
    table.put_cell(alloc, cell)?;
    cells.push_reserved(Some(cell));
    Ok(())
}

// Makes cell i absent, and takes it out of the table.
fn remove(table: &mut FaceTable, cells: &mut Vec<Option<Cell>>, i: usize) -> Result<Cell, Fail>
    requires { IsTallyOf cells.old.items table.old }
    ensures points { table.new.points ≡ table.old.points }
    ensures cells { IsTallyOf cells.new.items table.new }
{
    match live_cell(cells, i) {
        Some(cell) if i < cells.len() => {
            table.take_cell(cell);
            cells[i] = None;
            Ok(cell)
        }
        _ => Err(Fail::new("no cell")),
    }
}

// Appends a cell to the list.
fn list(cells: &mut Vec<Option<Cell>>, corners: [u32; 4]) -> Result<(), Fail>
    ensures { OnOk result (cells.new.items ≡ cells.old.items ++ Some (corners_of corners) ∷ []) }
{
    let cell = Cell::new(corners).ok_or("a corner twice")?;
    cells.reserve(1)?;
    cells.push_reserved(Some(cell));
    Ok(())
}

// Replaces cell i by four cells round a new point.
fn split(
    alloc: Global,
    table: &mut FaceTable,
    point: u32,
    cells: &mut Vec<Option<Cell>>,
    i: usize,
) -> Result<(), Fail>
    requires points { table.old.points ≡ point }
    requires cells { IsTallyOf cells.old.items table.old }
    ensures points { OnOk result (table.new.points ≡ point + 1) }
    ensures cells { OnOk result (IsTallyOf cells.new.items table.new) }
{
    match live_cell(cells, i) {
        Some(cell) if i < cells.len() => {
            table.reserve_split(alloc)?;
            table.split_cell(point, cell);
            cells[i] = None;
            let [a, b, c, d] = cell.corners();
            list(cells, [point, b, c, d])?;
            list(cells, [a, point, c, d])?;
            list(cells, [a, b, point, d])?;
            list(cells, [a, b, c, point])
        }
        _ => Err(Fail::new("no cell")),
    }
}

// A mesh with these cells, whose points lie all in one place.
fn mesh_of(alloc: Global, points: u32, cells: &[Option<Cell>]) -> Result<Mesh, Fail>
    ensures points { IfOk result (λ mesh. length mesh.points ≡ points) }
    ensures cells { IfOk result (λ mesh. mesh.cells ≡ cells.now) }
{
    let place = Point::new(0, 0, 0).ok_or("place")?;
    let places = PointList::of(vec![in alloc; place; points as usize]?);
    let cells = CellList::of(cells.to_vec(alloc)?);
    let mesh = Mesh::new(places, cells).ok_or("limits")?;
    Ok(mesh)
}

// The table that is built from these cells.
fn built(alloc: Global, points: u32, cells: &[Option<Cell>]) -> Result<FaceTable, Fail>
    ensures points { IfOk result (λ table. table.points ≡ points) }
    ensures cells { IfOk result (IsTallyOf cells.now) }
{
    let mesh = mesh_of(alloc, points, cells)?;
    let table = FaceTable::build(alloc, points, mesh.cells())?;
    Ok(table)
}

// How many vertices the surface has, where the table is that which is built anew from the cells.
fn compared(
    alloc: Global,
    table: &FaceTable,
    points: u32,
    cells: &[Option<Cell>],
) -> Result<usize, Fail> {
    let built = built(alloc, points, cells)?;
    for cell in cells.iter().flatten() {
        for face in cell.faces() {
            if table.tally(face) != built.tally(face) {
                return Err(Fail::new(format_args!("faces of {cell:?}")));
            }
        }
    }
    if table.surface() != built.surface() {
        return Err(Fail::new("surface"));
    }
    Ok(built.surface().len())
}

// Appends cells, and puts them into the table.
fn fill(
    alloc: Global,
    table: &mut FaceTable,
    points: u32,
    cells: &mut Vec<Option<Cell>>,
    corners: &[[u32; 4]],
) -> Result<(), Fail>
    requires points { table.old.points ≡ points }
    requires cells { IsTallyOf cells.old.items table.old }
    ensures points { table.new.points ≡ table.old.points }
    ensures cells { OnOk result (IsTallyOf cells.new.items table.new) }
{
    for four in corners {
        append(alloc, table, points, cells, *four)?;
    }
    Ok(())
}

// Takes out cells.
fn clear(table: &mut FaceTable, cells: &mut Vec<Option<Cell>>, places: &[usize]) -> Result<(), Fail>
    requires { IsTallyOf cells.old.items table.old }
    ensures points { table.new.points ≡ table.old.points }
    ensures cells { IsTallyOf cells.new.items table.new }
{
    for i in places {
        remove(table, cells, *i)?;
    }
    Ok(())
}

// Splits the first cells, each round a point of its own.
fn split_first(
    alloc: Global,
    table: &mut FaceTable,
    points: u32,
    cells: &mut Vec<Option<Cell>>,
    count: u32,
) -> Result<(), Fail>
    requires points { table.old.points ≡ points }
    requires few { points + count < MOST_POINTS }
    requires cells { IsTallyOf cells.old.items table.old }
    ensures points { OnOk result (table.new.points ≡ points + count) }
    ensures cells { OnOk result (IsTallyOf cells.new.items table.new) }
{
    for i in 0..count {
        split(alloc, table, points + i, cells, i as usize)?;
    }
    Ok(())
}

// Cells of which the first are split and some are taken out, a face with the count that it then has, and the surface.
#[derive(Clone, Copy)]
struct Case {
    points: u32,
    put: &'static [[u32; 4]],
    splits: u32,
    taken: &'static [usize],
    face: [u32; 3],
    count: u32,
    surface: &'static [u32],
}

fn tally(table: &FaceTable, face: [u32; 3]) -> u32 {
    let [a, b, c] = face;
    if a == b || a == c || b == c {
        return 0;
    }
    table.tally(Face::new(a, b, c))
}

fn check_case(alloc: Global, case: &Case) -> Result<(), Fail> {
    if case.points >= 1000 || case.splits >= 1000 {
        return Err(Fail::new("too many points"));
    }
    let mut table = bare(alloc, case.points)?;
    let mut cells = Vec::new(alloc);
    fill(alloc, &mut table, case.points, &mut cells, case.put)?;
    split_first(alloc, &mut table, case.points, &mut cells, case.splits)?;
    clear(&mut table, &mut cells, case.taken)?;
    if table.surface() != case.surface {
        return Err(Fail::new(format_args!("surface {:?}", table.surface())));
    }
    if tally(&table, case.face) != case.count {
        return Err(Fail::new(format_args!("count of {:?}", case.face)));
    }
    compared(alloc, &table, case.points + case.splits, cells.as_slice())?;
    Ok(())
}

// A cell, and the same cell twice.
const ONE: &[[u32; 4]] = &[[0, 1, 2, 3]];

const TWICE: &[[u32; 4]] = &[[0, 1, 2, 3], [3, 2, 1, 0]];

// A cell that was split round point 4, and a cell of that round point 5.
const TWO_SPLITS: &[[u32; 4]] = &[
    [0, 1, 2, 3],
    [4, 1, 2, 3],
    [0, 4, 2, 3],
    [0, 1, 4, 3],
    [0, 1, 2, 4],
    [5, 4, 2, 3],
    [0, 5, 2, 3],
    [0, 4, 5, 3],
    [0, 4, 2, 5],
];

// Two cells beside a block with the points 0 to 63, with one face of later points between them.
const TWO_LATER: &[[u32; 4]] = &[[0, 64, 65, 66], [1, 64, 65, 66]];

// Five cells over five points, each face on two of them.
const CLOSED: &[[u32; 4]] = &[
    [0, 1, 2, 3],
    [0, 1, 2, 4],
    [0, 1, 3, 4],
    [0, 2, 3, 4],
    [1, 2, 3, 4],
];

#[test]
fn surfaces_are_those_of_the_cells(rt: HostRuntime) -> Result<(), Fail> {
    for (points, put, splits, taken, face, count, surface) in [
        (
            6,
            TWO_SPLITS,
            0,
            [0, 2].as_slice(),
            [1, 4, 0],
            2,
            [0, 1, 2, 3].as_slice(),
        ),
        (6, TWO_SPLITS, 0, &[2, 0, 3], [1, 4, 0], 1, &[0, 1, 2, 3, 4]),
        (4, ONE, 1, &[], [1, 4, 0], 2, &[0, 1, 2, 3]),
        (4, ONE, 1, &[1], [3, 4, 2], 1, &[0, 1, 2, 3, 4]),
        (5, CLOSED, 0, &[], [2, 1, 0], 2, &[]),
        (5, CLOSED, 0, &[4], [1, 2, 3], 1, &[1, 2, 3, 4]),
        (5, CLOSED, 2, &[], [2, 1, 0], 2, &[]),
        (4, TWICE, 0, &[], [1, 2, 3], 2, &[]),
        (4, TWICE, 0, &[0], [1, 2, 3], 1, &[0, 1, 2, 3]),
        (7, &[[4, 1, 2, 6]], 0, &[], [1, 2, 4], 1, &[1, 2, 4, 6]),
        (7, &[[4, 1, 2, 6]], 0, &[0], [1, 2, 4], 0, &[]),
    ] {
        let case = Case {
            points,
            put,
            splits,
            taken,
            face,
            count,
            surface,
        };
        check_case(rt.alloc(), &case)?;
    }
    Ok(())
}

#[test]
fn points_come_and_go(rt: HostRuntime) -> Result<(), Fail> {
    let mut table = bare(rt.alloc(), 1)?;
    table.put_point(rt.alloc())?;
    table.drop_point();
    table.put_point(rt.alloc())?;
    assert_eq!(rt; table.surface().len(), 0);
    Ok(())
}

// The corners of the cells of the block of n cubes a side.
fn block(alloc: Global, n: u32) -> Result<Vec<[u32; 4]>, Fail>
    requires { (0 < n) × (n ≤ 87) }
{
    let mut corners = Vec::new(alloc);
    for cell in block_mesh(alloc, n)?.cells().iter().flatten() {
        corners.push(cell.corners())?;
    }
    Ok(corners)
}

// A block of n cubes a side has 6 n n + 2 points on its sides, and a split adds none.
#[test]
fn ten_thousand_splits_are_as_built_anew(rt: HostRuntime) -> Result<(), Fail> {
    let alloc = rt.alloc();
    let corners = block(alloc, 20)?;
    let mut table = bare(alloc, 9_261)?;
    let mut cells = Vec::new(alloc);
    fill(alloc, &mut table, 9_261, &mut cells, &corners)?;
    assert_eq!(rt; compared(alloc, &table, 9_261, cells.as_slice())?, 2_402);
    split_first(alloc, &mut table, 9_261, &mut cells, 10_000)?;
    assert_eq!(rt;
        (cells.len(), cells.iter().flatten().count()),
        (88_000, 78_000)
    );
    assert_eq!(rt; compared(alloc, &table, 19_261, cells.as_slice())?, 2_402);
    Ok(())
}

// The counts of all faces of these cells together.
fn sum_of_tallies(table: &FaceTable, cells: &[[u32; 4]]) -> u32 {
    let mut sum = 0u32;
    for [a, b, c, d] in cells {
        for face in [[*b, *c, *d], [*a, *c, *d], [*a, *b, *d], [*a, *b, *c]] {
            sum = sum.wrapping_add(tally(table, face));
        }
    }
    sum
}

// A block of 3 cubes a side has 108 faces on its sides, which count 1 each, and 270 within, each of which two cells
// have.
#[test]
fn first_faces_go_and_come_beside_later_ones(rt: HostRuntime) -> Result<(), Fail> {
    let alloc = rt.alloc();
    let corners = block(alloc, 3)?;
    let mut cells = Vec::new(alloc);
    for four in &corners {
        list(&mut cells, *four)?;
    }
    let mut table = built(alloc, 64, cells.as_slice())?;
    assert_eq!(rt; sum_of_tallies(&table, &corners), 108 + 4 * 270);
    split_first(alloc, &mut table, 64, &mut cells, 50)?;
    assert_eq!(rt; compared(alloc, &table, 114, cells.as_slice())?, 56);
    let mut live = Vec::new(alloc);
    for i in 50..cells.len() {
        live.push(i)?;
    }
    clear(&mut table, &mut cells, &live)?;
    assert_eq!(rt; sum_of_tallies(&table, &corners), 0);
    assert_eq!(rt; compared(alloc, &table, 114, cells.as_slice())?, 0);
    fill(alloc, &mut table, 114, &mut cells, &corners)?;
    fill(alloc, &mut table, 114, &mut cells, TWO_LATER)?;
    assert_eq!(rt; sum_of_tallies(&table, &corners), 108 + 4 * 270);
    assert_eq!(rt; tally(&table, [66, 64, 65]), 2);
    assert_eq!(rt; compared(alloc, &table, 114, cells.as_slice())?, 56 + 3);
    Ok(())
}
