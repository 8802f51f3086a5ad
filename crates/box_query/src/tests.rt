//! Boxes beside answers that were worked out by hand.
ghost use Rattle.std.specs.Prelude.{◌≡◌, ◌<◌};

use super::*;
use box_crawl::{Marks, crawl};
use job_steps::first_step;
use mesh_base::{BoxQ, NoMemory, Route, VertexList};
use probe_walk::{Probed, probe};
use run_script::Job;
use sample_meshes::{SPLIT_CELLS, SPLIT_PLACES, area_of, mesh_of};
use std::alloc::Global;
use std::marker::Brand;
use std::sync::Arc;
use std::sync::ledger::{Blank, Ledger};
use std::test::Fail;
use step_view::{Step, Steps};

// Step 0 of a job that makes no steps.
fn step_of(alloc: Global, places: &[[i32; 3]], corners: &[[u32; 4]]) -> Result<Step, Fail> {
    let mesh = mesh_of(alloc, places, corners)?.ok_or("mesh")?;
    let job = Job::still(alloc, mesh)?;
    let (step, _maker) = first_step(alloc, Arc::new(alloc, job)?)?;
    Ok(step)
}

// The answer of a box, with new marks.
fn answer_of(
    alloc: Global,
    step: &Step,
    lo: [i32; 3],
    hi: [i32; 3],
) -> Result<(Route, VertexList), Fail> {
    let mut marks = Marks::new(alloc, step.points())?;
    Ok(answer_plain(alloc, step, &area_of(&lo, &hi).ok_or("box")?, &mut marks)?)
}

const CORNER_PLACES: [[i32; 3]; 5] = [[0, 0, 0], [4, 0, 0], [0, 4, 0], [0, 0, 4], [1, 1, 1]];

#[test]
fn boxes_of_a_split_cell(rt: HostRuntime) -> Result<(), Fail> {
    let alloc = rt.alloc();
    let step = step_of(alloc, &SPLIT_PLACES, &SPLIT_CELLS)?;
    let table: [([i32; 3], [i32; 3], Route, &[u32]); 5] = [
        ([4, 4, 4], [4, 4, 4], Route::Walk, &[4]),
        ([100, 100, 100], [101, 101, 101], Route::Scan, &[]),
        ([2, 0, 0], [16, 6, 3], Route::Probe, &[1]),
        ([0, 0, 0], [16, 16, 16], Route::Probe, &[0, 1, 2, 3, 4, 5]),
        ([0, 0, 0], [4, 4, 4], Route::Probe, &[0, 4]),
    ];
    for (lo, hi, route, vertices) in table {
        let (found, list) = answer_of(alloc, &step, lo, hi)?;
        assert_eq!(rt; found, route, "{lo:?}");
        assert_eq!(rt; list.items(), vertices, "{lo:?}");
    }
    Ok(())
}

// The same cell twice, each four of five points, two cells with a face in common, a point that no cell has,
// nothing.
const SMALL_MESHES: [(&[[i32; 3]], &[[u32; 4]], [i32; 3], Route, &[u32]); 5] = [
    (
        &[[0, 0, 0], [4, 0, 0], [0, 4, 0], [0, 0, 4]],
        &[[0, 1, 2, 3], [0, 1, 2, 3]],
        [4, 0, 0],
        Route::Scan,
        &[0, 1],
    ),
    (
        &CORNER_PLACES,
        &[
            [0, 1, 2, 3],
            [0, 1, 2, 4],
            [0, 1, 3, 4],
            [0, 2, 3, 4],
            [1, 2, 3, 4],
        ],
        [1, 1, 1],
        Route::Scan,
        &[0, 4],
    ),
    (
        &[[0, 0, 0], [10, 0, 0], [0, 10, 0], [0, 0, 10], [10, 10, 10]],
        &[[0, 1, 2, 3], [1, 2, 3, 4]],
        [10, 0, 0],
        Route::Probe,
        &[0, 1],
    ),
    (
        &CORNER_PLACES,
        &[[0, 1, 2, 3]],
        [4, 1, 1],
        Route::Probe,
        &[0, 1],
    ),
    (&[], &[], [16, 16, 16], Route::Scan, &[]),
];

#[test]
fn boxes_of_small_meshes(rt: HostRuntime) -> Result<(), Fail> {
    let alloc = rt.alloc();
    for (places, corners, hi, route, vertices) in SMALL_MESHES {
        let step = step_of(alloc, places, corners)?;
        let (found, list) = answer_of(alloc, &step, [0, 0, 0], hi)?;
        assert_eq!(rt; found, route, "{hi:?}");
        assert_eq!(rt; list.items(), vertices, "{hi:?}");
    }
    Ok(())
}

// A thousand cells round one edge, one after the other.
#[test]
fn a_star_is_found_whole(rt: HostRuntime) -> Result<(), Fail> {
    let alloc = rt.alloc();
    let mut places = vec![in alloc; [0, 0, 0], [0, 0, 10]]?;
    let mut corners = Vec::new(alloc);
    for i in 2..1002 {
        places.push([i, 0, 0])?;
    }
    for i in 2..1001 {
        corners.push([0, 1, i, i + 1])?;
    }
    let step = step_of(alloc, &places, &corners)?;
    let (found, list) = answer_of(alloc, &step, [0, 0, 0], [1001, 0, 10])?;
    assert_eq!(rt; found, Route::Probe);
    assert_eq!(rt; list.items().len(), 1002);
    Ok(())
}

// A thousand cells apart from each other, of each of which an edge is inside.
#[test]
fn many_parts_are_found(rt: HostRuntime) -> Result<(), Fail> {
    let alloc = rt.alloc();
    let mut places = Vec::new(alloc);
    let mut corners = Vec::new(alloc);
    let mut want = Vec::new(alloc);
    for i in 0..1000u32 {
        let x = i as i32 * 100;
        for place in [[x, 0, 0], [x + 4, 0, 0], [x, 4, 0], [x, 0, 4]] {
            places.push(place)?;
        }
        let first = 4 * i;
        corners.push([first, first + 1, first + 2, first + 3])?;
        want.push(first)?;
        want.push(first + 1)?;
    }
    let step = step_of(alloc, &places, &corners)?;
    let (found, list) = answer_of(alloc, &step, [0, 0, 0], [100000, 0, 0])?;
    assert_eq!(rt; found, Route::Probe);
    assert!(rt; list.items() == want.as_slice());
    Ok(())
}

// The scan of a box, and two crawls from the surface vertices inside with the same marks, which begin at this round.
fn scanned_and_crawled<L: Ledger>(
    alloc: Global,
    blank: Blank,
    step: &Step,
    area: &BoxQ,
    round: u32,
) -> Result<(VertexList, VertexList, VertexList), NoMemory>
    requires name { blank.name ≡ L.name }
    requires parts { blank.parts ≡ L.parts }
    requires some { 0 < L.parts }
{
    let mut reads = Steps::<L>::open(blank);
    let all = scan(alloc, step, area, &mut reads)?;
    let mut marks = Marks::with_round(alloc, 0, round)?;
    marks.reach(alloc, step.points())?;
    let Probed { inside: seeds, .. } = probe(alloc, step, area, &mut reads)?;
    let first = crawl(alloc, step, area, seeds.items(), &mut marks, &mut reads)?;
    let second = crawl(alloc, step, area, seeds.items(), &mut marks, &mut reads)?;
    Ok((all, first, second))
}

#[test]
fn crawls_at_the_last_rounds(rt: HostRuntime) -> Result<(), Fail> {
    let alloc = rt.alloc();
    let step = step_of(alloc, &SPLIT_PLACES, &SPLIT_CELLS)?;
    let area = area_of(&[2, 0, 0], &[16, 16, 16]).ok_or("box")?;
    for round in [0, u32::MAX - 1, u32::MAX] {
        let blank = Blank::new(1);
        let (all, first, second) = scanned_and_crawled::<Brand>(alloc, blank, &step, &area, round)?;
        assert!(rt; all.items() == [1, 4, 5].as_slice(), "{round}");
        assert!(rt; first.items() == [1, 4, 5].as_slice(), "{round}");
        assert!(rt; second.items() == [1, 4, 5].as_slice(), "{round}");
    }
    Ok(())
}
