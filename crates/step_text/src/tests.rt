//! Texts of steps, beside those of their meshes and a text written by hand.
use crate::write_step;
use job_steps::{Maker, mesh_of};
use mesh_base::Mesh;
use run_script::Job;
use sample_meshes::{block_mesh, one_cell};
use script_format::read_script;
use std::alloc::Global;
use std::sync::Arc;
use std::test::Fail;
use step_view::Step;
use vtk_legacy::write_mesh;

// Step 1 of a mesh and a script.
fn first_made(alloc: Global, mesh: Mesh, script: &str) -> Result<Step, Fail> {
    if script.len() > 1000 {
        return Err(Fail::new("script"));
    }
    let script = read_script(alloc, script.as_bytes())?;
    let job = Job::check(alloc, mesh, script)?;
    if job.steps() == 0 {
        return Err(Fail::new("no plan"));
    }
    let mut maker = Maker::new(alloc, Arc::new(alloc, job)?)?;
    maker.pass_plain(alloc)?;
    Ok(maker.last_step(alloc)?)
}

const SPLIT: &str =
    "octopus script 1\nsplit 0 1 1 1\nremove 2\npoint 9 9 9\nshift -1 0 1073741824\nend\n";

// Cell 0 is split, and of its parts, 1 to 4, the second is removed.
const SPLIT_TEXT: &[u8] = b"# vtk DataFile Version 3.0
octopus mesh
ASCII
DATASET UNSTRUCTURED_GRID
POINTS 6 int
-1 0 1073741824
3 0 1073741824
-1 4 1073741824
-1 0 1073741824
0 1 1073741824
8 9 1073741824
CELLS 3 15
4 4 1 2 3
4 0 1 4 3
4 0 1 2 4
CELL_TYPES 3
10
10
10
";

// The text is appended, and no byte in front of it changes.
#[test]
fn a_step_is_written(rt: HostRuntime) -> Result<(), Fail> {
    let alloc = rt.alloc();
    let step = first_made(alloc, one_cell(alloc)?, SPLIT)?;
    let mut out = Vec::new(alloc);
    write_step(alloc, &step, &mut out)?;
    assert_eq!(rt; out.as_slice(), SPLIT_TEXT);
    let once = out.len();
    write_step(alloc, &step, &mut out)?;
    assert_eq!(rt; &out[..once], SPLIT_TEXT);
    assert_eq!(rt; &out[once..], SPLIT_TEXT);
    Ok(())
}

// The block of 16 cubes a side has 24,576 cells: with those of the edits seven chunks, of which two have a cell less.
const EDITS: &str =
    "octopus script 1\nremove 4095\nremove 4096\nsplit 24575 1 2 3\nshake 7 3\nend\n";

#[test]
fn a_step_in_chunks_is_written_as_its_mesh(rt: HostRuntime) -> Result<(), Fail> {
    let alloc = rt.alloc();
    let step = first_made(alloc, block_mesh(alloc, 16)?, EDITS)?;
    let mut out = Vec::new(alloc);
    write_step(alloc, &step, &mut out)?;
    let mut whole = Vec::new(alloc);
    write_mesh(alloc, &mesh_of(alloc, &step)?, &mut whole)?;
    assert!(rt; out == whole);
    assert!(rt; out.len() > 500_000);
    Ok(())
}
