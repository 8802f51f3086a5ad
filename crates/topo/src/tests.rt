//! Edits beside lists that were worked out by hand, and beside topologies that are built anew.
use crate::{Positions, Shape, Topo};
use mesh_base::{Cell, CellList, Edit, Mesh, Point, PointList};
use sample_meshes::block_mesh;
use std::alloc::Global;
use std::sync::Arc;
use std::test::Fail;

// An edit whose point lies somewhere: no test looks at places here.
#[derive(Clone, Copy, Debug)]
enum Change {
    Point,
    Add([u32; 4]),
    Remove(u32),
    Split(u32),
}

fn edit_of(change: Change) -> Result<Edit, Fail> {
    let at = Point::new(4, 4, 4).ok_or("place")?;
    Ok(match change {
        Change::Point => Edit::Point { at },
        Change::Add(corners) => Edit::Add { corners },
        Change::Remove(cell) => Edit::Remove { cell },
        Change::Split(cell) => Edit::Split { cell, at },
    })
}

// Makes the edit, if it fits.
fn make(alloc: Global, topo: &mut Topo, change: Change) -> Result<(), Fail> {
    let edit = edit_of(change)?;
    if !topo.edit_ok(&edit) {
        return Err(Fail::new(format_args!("{change:?}")));
    }
    Ok(topo.edit(alloc, &edit)?)
}

// The mesh of these cells, whose points lie somewhere.
fn mesh_of(alloc: Global, points: u32, cells: Vec<Option<Cell>>) -> Result<Mesh, Fail> {
    let at = Point::new(4, 4, 4).ok_or("place")?;
    let places = PointList::of(vec![in alloc; at; points as usize]?);
    Ok(Mesh::new(places, CellList::of(cells)).ok_or("limits")?)
}

// The topology of these cells, built at once.
fn built(alloc: Global, points: u32, cells: Vec<Option<Cell>>) -> Result<Topo, Fail> {
    let mesh = mesh_of(alloc, points, cells)?;
    let count = mesh.points().len() as u32;
    let cells = CellList::of(mesh.cells().to_vec(alloc)?);
    Ok(Topo::build(alloc, count, cells)?)
}

// The cells with these corners; none where two are equal, as in the four zeros that stand for an absent cell.
fn listed(alloc: Global, corners: &[[u32; 4]]) -> Result<Vec<Option<Cell>>, Fail> {
    let mut cells = Vec::with_capacity(alloc, corners.len())?;
    for four in corners {
        cells.push(Cell::new(*four))?;
    }
    Ok(cells)
}

// Some edits of the cell 0 1 2 3, and what the topology is then.
struct Case {
    changes: &'static [Change],
    cells: &'static [[u32; 4]],
    surface: &'static [u32],
    near: &'static [&'static [u32]],
}

const ABSENT: [u32; 4] = [0; 4];

// The cells after two splits, the second of a part of the first.
const SPLIT_TWICE: &[[u32; 4]] = &[
    ABSENT,
    [4, 1, 2, 3],
    ABSENT,
    [0, 1, 4, 3],
    [0, 1, 2, 4],
    [5, 4, 2, 3],
    [0, 5, 2, 3],
    [0, 4, 5, 3],
    [0, 4, 2, 5],
];

// The cells after one more of them is removed.
const OPENED: &[[u32; 4]] = &[
    ABSENT,
    [4, 1, 2, 3],
    ABSENT,
    ABSENT,
    [0, 1, 2, 4],
    [5, 4, 2, 3],
    [0, 5, 2, 3],
    [0, 4, 5, 3],
    [0, 4, 2, 5],
];

// The neighbours that both of these give the points.
const NEAR: &[&[u32]] = &[
    &[1, 2, 3, 4, 5],
    &[0, 2, 3, 4],
    &[0, 1, 3, 4, 5],
    &[0, 1, 2, 4, 5],
    &[0, 1, 2, 3, 5],
    &[0, 2, 3, 4],
];

const CASES: &[Case] = &[
    // two splits, the second of a part of the first
    Case {
        changes: &[Change::Split(0), Change::Split(2)],
        cells: SPLIT_TWICE,
        surface: &[0, 1, 2, 3],
        near: NEAR,
    },
    // a part goes, so that a point inside comes to the surface
    Case {
        changes: &[Change::Split(0), Change::Split(2), Change::Remove(3)],
        cells: OPENED,
        surface: &[0, 1, 2, 3, 4],
        near: NEAR,
    },
    // a point and a cell come
    Case {
        changes: &[
            Change::Split(0),
            Change::Split(2),
            Change::Point,
            Change::Add([6, 0, 1, 3]),
        ],
        cells: &[
            ABSENT,
            [4, 1, 2, 3],
            ABSENT,
            [0, 1, 4, 3],
            [0, 1, 2, 4],
            [5, 4, 2, 3],
            [0, 5, 2, 3],
            [0, 4, 5, 3],
            [0, 4, 2, 5],
            [6, 0, 1, 3],
        ],
        surface: &[0, 1, 2, 3, 6],
        near: &[
            &[1, 2, 3, 4, 5, 6],
            &[0, 2, 3, 4, 6],
            &[0, 1, 3, 4, 5],
            &[0, 1, 2, 4, 5, 6],
            &[0, 1, 2, 3, 5],
            &[0, 2, 3, 4],
            &[0, 1, 3],
        ],
    },
    // both cells of a face are split
    Case {
        changes: &[
            Change::Point,
            Change::Add([1, 2, 3, 4]),
            Change::Split(1),
            Change::Split(0),
        ],
        cells: &[
            ABSENT,
            ABSENT,
            [5, 2, 3, 4],
            [1, 5, 3, 4],
            [1, 2, 5, 4],
            [1, 2, 3, 5],
            [6, 1, 2, 3],
            [0, 6, 2, 3],
            [0, 1, 6, 3],
            [0, 1, 2, 6],
        ],
        surface: &[0, 1, 2, 3, 4],
        near: &[
            &[1, 2, 3, 6],
            &[0, 2, 3, 4, 5, 6],
            &[0, 1, 3, 4, 5, 6],
            &[0, 1, 2, 4, 5, 6],
            &[1, 2, 3, 5],
            &[1, 2, 3, 4],
            &[0, 1, 2, 3],
        ],
    },
];

// One cell after these edits.
fn edited(alloc: Global, changes: &[Change]) -> Result<Topo, Fail> {
    let mut topo = built(alloc, 4, listed(alloc, &[[0, 1, 2, 3]])?)?;
    for change in changes {
        make(alloc, &mut topo, *change)?;
    }
    Ok(topo)
}

// Whether the points of the topology have these neighbours, and are so many.
fn has_neighbours(topo: &Topo, near: &[&[u32]]) -> bool {
    for v in 0..topo.points() {
        match near.get(v as usize) {
            Some(row) if topo.neighbours(v) == *row => {}
            _ => return false,
        }
    }
    topo.points() as usize == near.len()
}

// Whether the topology is what is wanted.
fn is_as_wanted(alloc: Global, topo: &Topo, wanted: &Case) -> Result<bool, Fail> {
    let cells = listed(alloc, wanted.cells)?;
    let lists = topo.cells() == cells.as_slice() && topo.surface() == wanted.surface;
    Ok(lists && has_neighbours(topo, wanted.near))
}

#[test]
fn edits_change_cells_surface_and_neighbours(rt: HostRuntime) -> Result<(), Fail> {
    let alloc = rt.alloc();
    for wanted in CASES {
        let topo = edited(alloc, wanted.changes)?;
        assert!(rt; is_as_wanted(alloc, &topo, wanted)?, "{:?}", wanted.changes);
    }
    Ok(())
}

// Whether the points of both have the same neighbours, and are as many.
fn have_same_neighbours(shape: &Shape, topo: &Topo) -> bool {
    for v in 0..topo.points() {
        if v >= shape.points() || shape.neighbours(v) != topo.neighbours(v) {
            return false;
        }
    }
    shape.points() == topo.points()
}

// Whether cell i of the shape, by its number, is that of the list.
fn has_cells(shape: &Shape, cells: &[Option<Cell>]) -> bool {
    for i in 0..shape.cells() {
        if cells.get(i as usize) != Some(&shape.cell(i)) {
            return false;
        }
    }
    shape.cells() as usize == cells.len()
}

// Whether the shape is the topology of these cells over so many points, built anew.
fn is_anew(
    alloc: Global,
    shape: &Shape,
    points: u32,
    cells: Vec<Option<Cell>>,
) -> Result<bool, Fail> {
    let anew = built(alloc, points, cells)?;
    let lists = shape.surface() == anew.surface() && has_cells(shape, anew.cells());
    Ok(lists && have_same_neighbours(shape, &anew))
}

// Whether the shape is what the topology is now, where its cells are taken to build one anew.
fn is_now(alloc: Global, shape: &Shape, topo: &Topo) -> Result<bool, Fail> {
    let cells = shape.to_cells(alloc)?;
    Ok(cells.as_slice() == topo.cells() && is_anew(alloc, shape, topo.points(), cells)?)
}

// How many own the last shape: the topology, and who asks.
fn owners(alloc: Global, topo: &mut Topo) -> Result<usize, Fail> {
    let shape = topo.freeze_next(alloc)?;
    Ok(Arc::strong_count(&shape))
}

// How many own a shape before an edit, where it was asked for twice, and behind the edit the new one and the old one.
fn owners_around(alloc: Global, topo: &mut Topo, change: Change) -> Result<[usize; 3], Fail> {
    let before = topo.freeze_next(alloc)?;
    let again = owners(alloc, topo)?;
    make(alloc, topo, change)?;
    let after = owners(alloc, topo)?;
    Ok([again, after, Arc::strong_count(&before)])
}

const LATER: &[Change] = &[
    Change::Remove(3),
    Change::Split(8),
    Change::Point,
    Change::Add([7, 0, 1, 3]),
];

// Without an edit the last shape comes again, and after one a shape of what the topology is then.
#[test]
fn shapes_are_shared_between_edits(rt: HostRuntime) -> Result<(), Fail> {
    let alloc = rt.alloc();
    let mut topo = edited(alloc, &[Change::Split(0), Change::Split(2)])?;
    for change in LATER {
        let owners = owners_around(alloc, &mut topo, *change)?;
        assert_eq!(rt; owners, [3, 2, 1], "{change:?}");
    }
    let shape = topo.freeze_next(alloc)?;
    assert!(rt; is_now(alloc, &shape, &topo)?);
    Ok(())
}

// Edits of a topology with cell 3 absent, nine cells and six points, and whether they fit.
const FIT: &[(Change, bool)] = &[
    (Change::Remove(1), true),
    (Change::Remove(3), false),
    (Change::Remove(9), false),
    (Change::Split(8), true),
    (Change::Split(0), false),
    (Change::Split(u32::MAX), false),
    (Change::Add([0, 1, 2, 5]), true),
    (Change::Add([0, 1, 4, 2]), true),
    (Change::Add([0, 1, 2, 6]), false),
    (Change::Add([0, 1, 2, 9]), false),
    (Change::Add([0, 1, 2, 2]), false),
    (Change::Point, true),
];

#[test]
fn edits_that_do_not_fit_are_told(rt: HostRuntime) -> Result<(), Fail> {
    let alloc = rt.alloc();
    let topo = edited(
        alloc,
        &[Change::Split(0), Change::Split(2), Change::Remove(3)],
    )?;
    for (change, fits) in FIT {
        let told = topo.edit_ok(&edit_of(*change)?);
        assert_eq!(rt; told, *fits, "{change:?}");
    }
    Ok(())
}

// Whether these are the places, in this order.
fn has_places(positions: &Positions, places: &[Point]) -> bool {
    for v in 0..positions.len() {
        if places.get(v as usize) != Some(&positions.get(v)) {
            return false;
        }
    }
    positions.len() as usize == places.len() && positions.is_empty() == places.is_empty()
}

// So many points in a row, but for one of them, which lies before the first.
fn row_but_for(alloc: Global, count: i32, other: i32) -> Result<Vec<Point>, Fail> {
    let mut points = Vec::new(alloc);
    for v in 0..count {
        let x = if v == other { -1 } else { v };
        points.push(Point::new(x, 0, 0).ok_or("place")?)?;
    }
    Ok(points)
}

// Whether positions keep these places, alone and after others, with which they may share chunks.
fn keeps(alloc: Global, old: &Positions, places: &[Point]) -> Result<bool, Fail> {
    if places.len() > 10_000 {
        return Err(Fail::new("limits"));
    }
    let alone = Positions::copied(alloc, places)?;
    let after = Positions::after(alloc, old, PointList::of(places.to_vec(alloc)?))?;
    Ok(has_places(&alone, places) && has_places(&after, places))
}

// Positions of 10,000 points in a row: three chunks.
fn old_row(alloc: Global) -> Result<Arc<Positions>, Fail> {
    let points = row_but_for(alloc, 10_000, -1)?;
    if points.len() > 10_000 {
        return Err(Fail::new("limits"));
    }
    Ok(Positions::of(alloc, PointList::of(points))?)
}

// The lengths of rows, and the point of each that differs from the old row, if one does.
const ROWS: &[(i32, i32)] = &[
    (0, -1),
    (4_096, -1),
    (4_097, -1),
    (10_000, -1),
    (10_000, 0),
    (10_000, 5_000),
    (10_000, 9_999),
];

#[test]
fn positions_keep_their_order(rt: HostRuntime) -> Result<(), Fail> {
    let alloc = rt.alloc();
    let old = old_row(alloc)?;
    for (count, other) in ROWS {
        let places = row_but_for(alloc, *count, *other)?;
        assert!(rt; keeps(alloc, &old, &places)?, "{count} {other}");
    }
    let near = Point::new(1, -2, 3).ok_or("place")?;
    let far = Point::new(0, 1 << 30, -(1 << 30)).ok_or("place")?;
    assert!(rt; keeps(alloc, &old, &[near, far])?);
    assert!(rt; has_places(&old, &row_but_for(alloc, 10_000, -1)?));
    Ok(())
}

// How many places there are, and how many of them are added to the others.
const JOINS: &[(i32, i32)] = &[
    (0, 0),
    (1, 1),
    (4_096, 4_095),
    (4_097, 1),
    (9_000, 9_000),
    (9_000, 4_904),
    (9_000, 4_903),
    (10_000, 1_808),
    (10_000, 0),
];

// Whether positions of the first places with the others joined to them keep all, and stay what they are.
fn joins(alloc: Global, places: &[Point], added: usize) -> Result<bool, Fail> {
    if places.len() > 10_000 || added > places.len() {
        return Err(Fail::new("limits"));
    }
    let (front, back) = places.split_at(places.len() - added);
    let old = Positions::copied(alloc, front)?;
    let new = old.joined(alloc, back)?;
    Ok(has_places(&new, places) && has_places(&old, front))
}

#[test]
fn places_are_joined_in_their_order(rt: HostRuntime) -> Result<(), Fail> {
    let alloc = rt.alloc();
    for (count, added) in JOINS {
        let places = row_but_for(alloc, *count, -1)?;
        assert!(rt; joins(alloc, &places, *added as usize)?, "{count} {added}");
    }
    Ok(())
}

// The first cells of the block of 20 cubes a side, which has 9,261 points and 48,000 cells.
fn block(alloc: Global, count: usize) -> Result<Vec<Option<Cell>>, Fail> {
    let mesh = block_mesh(alloc, 20)?;
    Ok(mesh.cells().get(..count).ok_or("count")?.to_vec(alloc)?)
}

// Splits the first cells, so many, each round a point of its own.
fn split_first(alloc: Global, topo: &mut Topo, count: u32) -> Result<(), Fail> {
    for cell in 0..count {
        make(alloc, topo, Change::Split(cell))?;
    }
    Ok(())
}

// How many points, entries, live cells and vertices of the surface there are.
fn counts(topo: &Topo) -> [usize; 4] {
    let cells = topo.cells();
    let live = cells.iter().filter(|cell| cell.is_some()).count();
    let points = topo.points() as usize;
    [points, cells.len(), live, topo.surface().len()]
}

// Whether a copy of the topology is what is built anew.
fn freezes(alloc: Global, topo: &Topo) -> Result<bool, Fail> {
    let shape = topo.freeze(alloc)?;
    is_now(alloc, &shape, topo)
}

#[test]
fn ten_thousand_splits_are_as_built_anew(rt: HostRuntime) -> Result<(), Fail> {
    let alloc = rt.alloc();
    let mut topo = built(alloc, 9_261, block(alloc, 48_000)?)?;
    split_first(alloc, &mut topo, 10_000)?;
    assert_eq!(rt; counts(&topo), [19_261, 88_000, 78_000, 2_402]);
    assert!(rt; freezes(alloc, &topo)?);
    Ok(())
}

// Edits in several chunks of a part of the block.
const SCATTERED: &[Change] = &[
    Change::Remove(0),
    Change::Split(5_999),
    Change::Point,
    Change::Add([0, 4_096, 9_000, 9_262]),
    Change::Remove(4_096),
];

// Whether the shape behind an edit is what is built anew.
fn next_is_now(alloc: Global, topo: &mut Topo, change: Change) -> Result<bool, Fail> {
    make(alloc, topo, change)?;
    let shape = topo.freeze_next(alloc)?;
    is_now(alloc, &shape, topo)
}

// Whether so is the shape behind each edit.
fn each_is_now(alloc: Global, topo: &mut Topo, changes: &[Change]) -> Result<bool, Fail> {
    for change in changes {
        if !next_is_now(alloc, topo, *change)? {
            return Ok(false);
        }
    }
    Ok(true)
}

// Whether so are those between these edits, and the first shape stays what it was.
fn shapes_stay(alloc: Global, topo: &mut Topo) -> Result<bool, Fail> {
    let first = topo.freeze_next(alloc)?;
    if !each_is_now(alloc, topo, SCATTERED)? {
        return Ok(false);
    }
    is_anew(alloc, &first, 9_261, block(alloc, 6_000)?)
}

#[test]
fn shapes_after_edits_are_as_built_anew(rt: HostRuntime) -> Result<(), Fail> {
    let alloc = rt.alloc();
    let mut topo = built(alloc, 9_261, block(alloc, 6_000)?)?;
    assert!(rt; shapes_stay(alloc, &mut topo)?);
    Ok(())
}

// So are those of a topology that shares the cells of a mesh, which stays as it is. The topology and the first shape
// let go of it once an edit has changed each of the shape's two chunks.
#[test]
fn shapes_of_a_shared_mesh_are_as_built_anew(rt: HostRuntime) -> Result<(), Fail> {
    let alloc = rt.alloc();
    let mesh = Arc::new(alloc, mesh_of(alloc, 9_261, block(alloc, 6_000)?)?)?;
    let mut topo = Topo::of_mesh(alloc, mesh.clone()?)?;
    assert!(rt; shapes_stay(alloc, &mut topo)?);
    assert_eq!(rt; Arc::strong_count(&mesh), 1);
    assert!(rt; mesh.cells() == block(alloc, 6_000)?.as_slice());
    Ok(())
}
