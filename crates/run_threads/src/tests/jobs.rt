//! Jobs for the tests.
use mesh_base::NoMemory;
use run_script::Job;
use sample_meshes::mesh_of;
use script_format::read_script;
use std::alloc::Global;
use std::test::Fail;

// One cell between the origin and a point on each axis.
const PLACES: [[i32; 3]; 4] = [[0, 0, 0], [4, 0, 0], [0, 4, 0], [0, 0, 4]];

const CORNERS: [[u32; 4]; 1] = [[0, 1, 2, 3]];

// The job of a mesh and the text of a script, if they are one.
fn try_job(
    alloc: Global,
    places: &[[i32; 3]],
    corners: &[[u32; 4]],
    text: &str,
) -> Result<Option<Job>, NoMemory> {
    let text = text.as_bytes();
    if text.len() > 1_000_000 {
        return Ok(None);
    }
    match (mesh_of(alloc, places, corners)?, read_script(alloc, text)) {
        (Some(mesh), Ok(script)) => Ok(Job::check(alloc, mesh, script).ok()),
        _ => Ok(None),
    }
}

// The job of a mesh and the text of a script.
pub fn job_of(
    alloc: Global,
    places: &[[i32; 3]],
    corners: &[[u32; 4]],
    text: &str,
) -> Result<Job, Fail> {
    Ok(try_job(alloc, places, corners, text)?.ok_or("job")?)
}

// The job of one cell and a script, if they are one and there is memory.
pub fn try_small_job(alloc: Global, text: &str) -> Option<Job> {
    try_job(alloc, &PLACES, &CORNERS, text).ok()?
}

// The job of one cell and a script.
pub fn small_job(alloc: Global, text: &str) -> Result<Job, Fail> {
    job_of(alloc, &PLACES, &CORNERS, text)
}
