//! The text of a mesh in parts, for a mesh that doesn't stand in one place: its cells may come chunk by chunk.
ghost use Rattle.std.specs.Prelude.{◌≡◌, ◌++◌, ◌<◌, ◌≤◌, ◌^◌, All, OnOk, OnErr, length};
ghost use Rattle.mesh_base.specs.Mesh.{live};
ghost use Rattle.mesh_base.specs.Place.{IsPlace};
ghost use Rattle.vtk_legacy.specs.Written.{points_spelling, count_spelling, cells_spelling, types_spelling};

use crate::writer::{live_count, put_cells, put_count, put_front, put_types};
use mesh_base::{Cell, NoMemory, Point};

/// Appends the first part of a mesh text: all that stands in front of the cells. `write_count` is next. After an error
/// `out` holds what it held. It goes once over the points.
pub fn write_points(out: &mut Vec<u8>, points: &[Point]) -> Result<(), NoMemory>
    ensures ok { OnOk result (out.new.items ≡ out.old.items ++ points_spelling points.now) }
    ensures err { OnErr result (out.new.items ≡ out.old.items) }
    ensures in_range { OnOk result (All IsPlace points.now) }
{
    let before = out.len();
    let written = put_front(out, points);
    if written.is_err() {
        out.truncate(before);
    }
    written
}

/// How many of these cells aren't absent.
pub fn count_live(cells: &[Option<Cell>]) -> usize
    ensures count { result ≡ length (live cells.now) }
    ensures most { result ≤ length cells.now }
{
    live_count(cells)
}

/// Appends the second part: how many live cells the mesh has. The cells come next, by one or more calls of
/// `write_cells`. After an error `out` holds what it held.
pub fn write_count(out: &mut Vec<u8>, live: usize) -> Result<(), NoMemory>
    requires { live < 2 ^ 32 }
    ensures ok { OnOk result (out.new.items ≡ out.old.items ++ count_spelling live) }
    ensures err { OnErr result (out.new.items ≡ out.old.items) }
{
    let before = out.len();
    let written = put_count(out, live);
    if written.is_err() {
        out.truncate(before);
    }
    written
}

/// Appends the live ones of these cells, which are all cells of the mesh or the next chunk of them. `write_types` is
/// next behind the last. After an error `out` holds what it held. It goes once over the cells.
pub fn write_cells(out: &mut Vec<u8>, cells: &[Option<Cell>]) -> Result<(), NoMemory>
    ensures ok { OnOk result (out.new.items ≡ out.old.items ++ cells_spelling cells.now) }
    ensures err { OnErr result (out.new.items ≡ out.old.items) }
{
    let before = out.len();
    let written = put_cells(out, cells);
    if written.is_err() {
        out.truncate(before);
    }
    written
}

/// Appends the last part: the types of so many live cells. After an error `out` holds what it held.
pub fn write_types(out: &mut Vec<u8>, live: usize) -> Result<(), NoMemory>
    ensures ok { OnOk result (out.new.items ≡ out.old.items ++ types_spelling live) }
    ensures err { OnErr result (out.new.items ≡ out.old.items) }
{
    let before = out.len();
    let written = put_types(out, live);
    if written.is_err() {
        out.truncate(before);
    }
    written
}
