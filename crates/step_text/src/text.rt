//! The text of a step's mesh, appended to a list of bytes.
ghost use Rattle.std.specs.Prelude.{◌≡◌, ◌++◌, ◌+◌, ◌*◌, ◌≤◌, All, OnErr, OnOk, Ok, length, take, vec_len};
ghost use Rattle.mesh_base.specs.Mesh.{live};
ghost use Rattle.mesh_base.specs.Place.{IsPlace};
ghost use Rattle.vtk_legacy.specs.MeshText.{mesh_text};
ghost use Rattle.vtk_legacy.specs.Written.{cells_spelling, mesh_spelling, points_spelling, without_absent};

use job_steps::places_of;
use mesh_base::{MOST_CELLS, NoMemory};
use std::alloc::Global;
use step_view::Step;
use topo::Shape;
use vtk_legacy::{count_live, write_cells, write_count, write_points, write_types};

// How many cells a chunk of a shape has.
const CHUNK: u32 = 4096;

/// Appends the text of the step's mesh, as `vtk_legacy::write_mesh` writes it: an unstructured grid of the VTK legacy
/// format, version 3.0, in ASCII, with all points and the live cells. `read_mesh` accepts the text and gives the mesh
/// without its absent cells. After an error `out` holds what it held.
///
/// It copies the places, 12 bytes a point, and no cell. It goes twice over the points and twice over the cells.
pub fn write_step(alloc: Global, step: &Step, out: &mut Vec<u8>) -> Result<(), NoMemory>
    ensures ok { OnOk result (out.new.items ≡ out.old.items ++ mesh_spelling step.now.mesh) }
    ensures err { OnErr result (out.new.items ≡ out.old.items) }
    ensures read_again { OnOk result (mesh_text (mesh_spelling step.now.mesh) ≡ Ok (without_absent step.now.mesh)) }
{
    let before = out.len();
    let written = put_step(alloc, step, out);
    if written.is_err() {
        out.truncate(before);
    }
    written
}

// The text, or as much of it as there was memory for.
fn put_step(alloc: Global, step: &Step, out: &mut Vec<u8>) -> Result<(), NoMemory>
    ensures ok { OnOk result (out.new.items ≡ out.old.items ++ mesh_spelling step.now.mesh) }
    ensures kept { take (vec_len out.old) out.new.items ≡ out.old.items }
    ensures read_again { OnOk result (mesh_text (mesh_spelling step.now.mesh) ≡ Ok (without_absent step.now.mesh)) }
{
    let _valid = step.points();
    put_places(alloc, step, out)?;
    let shape = step.shape();
    let live = live_count(shape);
    write_count(out, live)?;
    put_cells(shape, out)?;
    write_types(out, live)
}

// All that stands in front of the cells.
fn put_places(alloc: Global, step: &Step, out: &mut Vec<u8>) -> Result<(), NoMemory>
    ensures ok { OnOk result (out.new.items ≡ out.old.items ++ points_spelling step.now.mesh.points) }
    ensures err { OnErr result (out.new.items ≡ out.old.items) }
    ensures in_range { OnOk result (All IsPlace step.now.mesh.points) }
{
    let places = places_of(alloc, step)?;
    write_points(out, places.items())
}

// How many chunks the cells stand in.
fn chunk_count(shape: &Shape) -> u32
    ensures all { length shape.now.cells ≤ 4096 * result }
    ensures some { 4096 * result ≤ length shape.now.cells + 4095 }
    ensures few { length shape.now.cells ≤ MOST_CELLS }
{
    (shape.cells() + (CHUNK - 1)) / CHUNK
}

// How many cells aren't absent.
fn live_count(shape: &Shape) -> usize
    ensures count { result ≡ length (live shape.now.cells) }
    ensures few { result ≤ MOST_CELLS + 4095 }
{
    let mut count = 0usize;
    for k in 0..chunk_count(shape) {
        count += count_live(shape.cell_chunk(k));
    }
    count
}

// The live cells, chunk by chunk.
fn put_cells(shape: &Shape, out: &mut Vec<u8>) -> Result<(), NoMemory>
    ensures ok { OnOk result (out.new.items ≡ out.old.items ++ cells_spelling shape.now.cells) }
    ensures kept { take (vec_len out.old) out.new.items ≡ out.old.items }
{
    for k in 0..chunk_count(shape) {
        write_cells(out, shape.cell_chunk(k))?;
    }
    Ok(())
}
