//! Rings and paths beside lists that were worked out by hand.
ghost use Rattle.std.specs.Prelude.{IfOk};
ghost use Rattle.hop_rings.specs.Rings.{AreRingsOfOne};

use super::*;
use box_crawl::Marks;
use job_steps::first_step;
use mesh_base::{Route, VertexList};
use run_script::Job;
use sample_meshes::{SPLIT_CELLS, SPLIT_PLACES, area_of, mesh_of};
use std::alloc::Global;
use std::sync::Arc;
use std::test::Fail;
use step_view::Step;

// A box of a mesh, the rings round its answer, each with its sources, and the paths from ring 0 to some points.
struct Row {
    places: &'static [[i32; 3]],
    cells: &'static [[u32; 4]],
    lo: [i32; 3],
    hi: [i32; 3],
    most: u8,
    route: Route,
    rings: &'static [(&'static [u32], &'static [u32])],
    paths: &'static [(u32, Option<&'static [u32]>)],
}

const ROWS: &[Row] = &[
    Row {
        places: &SPLIT_PLACES,
        cells: &SPLIT_CELLS,
        lo: [4, 4, 4],
        hi: [4, 4, 4],
        most: 2,
        route: Route::Walk,
        rings: &[
            (&[4], &[]),
            (&[0, 1, 2, 3, 5], &[4, 4, 4, 4, 4]),
            (&[], &[]),
        ],
        paths: &[(4, Some(&[4])), (5, Some(&[4, 5]))],
    },
    Row {
        places: &SPLIT_PLACES,
        cells: &SPLIT_CELLS,
        lo: [16, 0, 0],
        hi: [16, 0, 0],
        most: 2,
        route: Route::Probe,
        rings: &[(&[1], &[]), (&[0, 2, 3, 4], &[1, 1, 1, 1]), (&[5], &[0])],
        paths: &[(5, Some(&[1, 0, 5])), (3, Some(&[1, 3])), (6, None)],
    },
    Row {
        places: &SPLIT_PLACES,
        cells: &SPLIT_CELLS,
        lo: [100, 100, 100],
        hi: [101, 101, 101],
        most: 1,
        route: Route::Scan,
        rings: &[(&[], &[]), (&[], &[])],
        paths: &[(0, None)],
    },
    // three cells in a row, and one apart from them
    Row {
        places: &[
            [0, 0, 0],
            [4, 0, 0],
            [0, 4, 0],
            [0, 0, 4],
            [4, 4, 4],
            [0, 9, 9],
            [50, 0, 0],
            [54, 0, 0],
            [50, 4, 0],
            [50, 0, 4],
        ],
        cells: &[[0, 1, 2, 3], [1, 2, 3, 4], [2, 3, 4, 5], [6, 7, 8, 9]],
        lo: [0, 0, 0],
        hi: [0, 0, 0],
        most: 3,
        route: Route::Probe,
        rings: &[
            (&[0], &[]),
            (&[1, 2, 3], &[0, 0, 0]),
            (&[4, 5], &[1, 2]),
            (&[], &[]),
        ],
        paths: &[(4, Some(&[0, 1, 4])), (5, Some(&[0, 2, 5])), (6, None)],
    },
];

fn step_of(alloc: Global, row: &Row) -> Result<Step, Fail> {
    let mesh = mesh_of(alloc, row.places, row.cells)?.ok_or("mesh")?;
    let job = Job::still(alloc, mesh)?;
    let (step, _maker) = first_step(alloc, Arc::new(alloc, job)?)?;
    Ok(step)
}

fn rings_of(alloc: Global, row: &Row) -> Result<(Route, RingList), Fail>
    ensures { IfOk result (λ r. AreRingsOfOne r.1) }
{
    let step = step_of(alloc, row)?;
    let area = area_of(&row.lo, &row.hi).ok_or("box")?;
    let mut marks = Marks::new(alloc, step.points())?;
    Ok(rings_round(alloc, &step, &area, &mut marks, row.most as u32)?)
}

fn is_path(found: &Option<VertexList>, want: Option<&[u32]>) -> bool {
    match (found, want) {
        (None, None) => true,
        (Some(found), Some(want)) => found.items() == want,
        _ => false,
    }
}

#[test]
fn rings_and_paths(rt: HostRuntime) -> Result<(), Fail> {
    let alloc = rt.alloc();
    for row in ROWS {
        let (route, rings) = rings_of(alloc, row)?;
        assert_eq!(rt; route, row.route, "{:?}", row.lo);
        for (v, want) in row.paths {
            let path = path_to(alloc, rings.items(), *v)?;
            assert!(rt; is_path(&path, *want), "to {v}");
        }
        let rings = rings.into_items();
        assert_eq!(rt; rings.len(), row.rings.len(), "{:?}", row.lo);
        for (ring, (vertices, sources)) in rings.iter().zip(row.rings) {
            assert_eq!(rt; ring.vertices.items(), *vertices, "{:?}", row.lo);
            assert_eq!(rt; ring.sources.items(), *sources, "{:?}", row.lo);
        }
    }
    Ok(())
}
