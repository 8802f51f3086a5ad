//! Ranges beside corners that were listed by hand.
use crate::{CornerRanges, RANGE};
use mesh_base::Cell;
use std::alloc::Global;
use std::test::Fail;

// A cell of each kind of place: inside one range, over the end of one, in three of them, and one that stands twice.
const CELLS: [[u32; 4]; 5] = [
    [3, 0, 2, 1],
    [32_766, 32_767, 32_768, 32_769],
    [65_536, 0, 32_768, 32_767],
    [65_537, 65_536, 65_535, 65_534],
    [3, 0, 2, 1],
];

// The corners of each range, point by point, each with the others of its cell. The fourth cell is absent.
const WANTED: [&[[u32; 4]]; 4] = [
    &[
        [0, 3, 2, 1],
        [0, 65_536, 32_768, 32_767],
        [0, 3, 2, 1],
        [1, 3, 0, 2],
        [1, 3, 0, 2],
        [2, 3, 0, 1],
        [2, 3, 0, 1],
        [3, 0, 2, 1],
        [3, 0, 2, 1],
        [32_766, 32_767, 32_768, 32_769],
        [32_767, 32_766, 32_768, 32_769],
        [32_767, 65_536, 0, 32_768],
    ],
    &[
        [32_768, 32_766, 32_767, 32_769],
        [32_768, 65_536, 0, 32_767],
        [32_769, 32_766, 32_767, 32_768],
    ],
    &[[65_536, 0, 32_768, 32_767]],
    &[],
];

fn cells(alloc: Global) -> Result<Vec<Option<Cell>>, Fail> {
    let mut cells = Vec::new(alloc);
    for (i, corners) in CELLS.iter().enumerate() {
        let cell = Cell::new(*corners).ok_or("a corner twice")?;
        cells.push(if i == 3 { None } else { Some(cell) })?;
    }
    Ok(cells)
}

// The corners that the buffer holds, as they stand.
fn held(alloc: Global, ranges: &CornerRanges) -> Result<Vec<[u32; 4]>, Fail> {
    let mut held = Vec::new(alloc);
    for corner in ranges.slots().iter().flatten() {
        held.push(corner.numbers())?;
    }
    Ok(held)
}

#[test]
fn ranges_have_their_corners(rt: HostRuntime) -> Result<(), Fail> {
    let cells = cells(rt.alloc())?;
    if cells.len() > CELLS.len() {
        return Err(Fail::new("cells"));
    }
    let mut ranges = CornerRanges::new(rt.alloc(), 3 * RANGE + 1, &cells)?;
    assert_eq!(rt; ranges.count(), 4);
    // each range twice, downwards the second time
    for range in [0, 1, 2, 3, 2, 1, 0] {
        if range >= ranges.count() {
            return Err(Fail::new("no range"));
        }
        ranges.fill(range)?;
        let held = held(rt.alloc(), &ranges)?;
        assert_eq!(rt; held.as_slice(), WANTED[range as usize], "range {range}");
    }
    Ok(())
}

#[test]
fn ranges_are_counted(rt: HostRuntime) -> Result<(), Fail> {
    for (points, count) in [
        (0, 0),
        (1, 1),
        (RANGE - 1, 1),
        (RANGE, 1),
        (RANGE + 1, 2),
        (1_000_000, 31),
    ] {
        let ranges = CornerRanges::new(rt.alloc(), points, &[])?;
        assert_eq!(rt; ranges.count(), count, "{points} points");
    }
    Ok(())
}
