//! Cells beside lists that were worked out by hand.

use super::*;
use box_crawl::Marks;
use job_steps::first_step;
use mesh_base::{BoxQ, NoMemory, Route};
use run_script::Job;
use sample_meshes::{SPLIT_CELLS, SPLIT_PLACES, area_of, mesh_of};
use std::alloc::Global;
use std::sync::Arc;
use std::test::Fail;
use step_view::Step;

// Step 0 of a job that makes no steps.
fn step_of(alloc: Global, places: &[[i32; 3]], corners: &[[u32; 4]]) -> Result<Step, Fail> {
    let mesh = mesh_of(alloc, places, corners)?.ok_or("mesh")?;
    let job = Job::still(alloc, mesh)?;
    let (step, _maker) = first_step(alloc, Arc::new(alloc, job)?)?;
    Ok(step)
}

// The cells of a box, with new marks.
fn cells_of_box(
    alloc: Global,
    step: &Step,
    lo: [i32; 3],
    hi: [i32; 3],
    how: How,
) -> Result<(Route, CellNumbers), Fail> {
    let mut marks = Marks::new(alloc, step.points())?;
    let incidence = Incidence::build(alloc, step)?;
    Ok(cells_in(
        alloc,
        step,
        &incidence,
        &area_of(&lo, &hi).ok_or("box")?,
        &mut marks,
        how,
    )?)
}

#[test]
fn cells_of_boxes(rt: HostRuntime) -> Result<(), Fail> {
    let alloc = rt.alloc();
    let step = step_of(alloc, &SPLIT_PLACES, &SPLIT_CELLS)?;
    let table: [([i32; 3], [i32; 3], How, Route, &[u32]); 5] = [
        (
            [0, 0, 0],
            [16, 16, 16],
            How::Whole,
            Route::Probe,
            &[0, 1, 2, 3, 4, 5, 6],
        ),
        ([4, 4, 4], [4, 4, 4], How::Whole, Route::Walk, &[]),
        (
            [4, 4, 4],
            [4, 4, 4],
            How::Touching,
            Route::Walk,
            &[0, 1, 2, 3, 5, 6],
        ),
        (
            [2, 0, 0],
            [16, 6, 3],
            How::Touching,
            Route::Probe,
            &[0, 1, 2],
        ),
        (
            [100, 100, 100],
            [101, 101, 101],
            How::Touching,
            Route::Scan,
            &[],
        ),
    ];
    for (lo, hi, how, route, cells) in table {
        let (found, list) = cells_of_box(alloc, &step, lo, hi, how)?;
        assert_eq!(rt; found, route, "{lo:?}");
        assert_eq!(rt; list.items(), cells, "{lo:?}");
    }
    Ok(())
}

// The same cell twice, with an absent one between them, and a point that no cell has.
#[test]
fn cells_of_points(rt: HostRuntime) -> Result<(), Fail> {
    let alloc = rt.alloc();
    let corners = [[0, 1, 2, 3], [0; 4], [3, 1, 0, 2]];
    let places = [[0, 0, 0], [4, 0, 0], [0, 4, 0], [0, 0, 4], [1, 1, 1]];
    let step = step_of(alloc, &places, &corners)?;
    let incidence = Incidence::build(alloc, &step)?;
    assert_eq!(rt; step.points(), 5);
    assert_eq!(rt; incidence.points(), 5);
    assert_eq!(rt; incidence.cells_at(2), [0, 2].as_slice());
    assert_eq!(rt; incidence.cells_at(4), [0u32; 0].as_slice());
    Ok(())
}
