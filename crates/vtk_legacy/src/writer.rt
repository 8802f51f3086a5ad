//! The text of a mesh, appended to a list of bytes.
ghost use Rattle.std.specs.Prelude.{◌≡◌, ◌++◌, ◌∷◌, [], All, ◌<◌, ◌≤◌, ◌^◌, OnOk, OnErr, Ok, length, flat_map, map, take, vec_len};
ghost use Rattle.mesh_base.specs.Mesh.{live as live_cells};
ghost use Rattle.mesh_base.specs.Place.{IsPlace};
ghost use Rattle.vtk_legacy.specs.MeshText.{mesh_text};
ghost use Rattle.vtk_legacy.specs.Written.{line, point_line, point_lines, cell_line, points_spelling, count_spelling, cells_spelling, types_spelling, mesh_spelling, without_absent};

use itoa::Buffer;
use mesh_base::{Cell, Mesh, NoMemory, Point};
use std::alloc::Global;

const FIRST_LINES: &[u8] =
    b"# vtk DataFile Version 3.0\noctopus mesh\nASCII\nDATASET UNSTRUCTURED_GRID\n";

/// Appends the text of a mesh: an unstructured grid of the VTK legacy format, version 3.0, in ASCII, with the title
/// `octopus mesh`. It has all points, also those that no cell has, and the live cells as tetrahedra. An absent cell
/// leaves no trace, so the live ones are numbered anew, in their order.
///
/// `read_mesh` accepts the text and gives the mesh without its absent cells. After an error `out` holds what it held.
///
/// It goes once over the points and twice over the cells, and its time is that of the bytes written. Memory is taken
/// for `out` alone, and none for a single point or cell.
pub fn write_mesh(alloc: Global, mesh: &Mesh, out: &mut Vec<u8>) -> Result<(), NoMemory>
    ensures ok { OnOk result (out.new.items ≡ out.old.items ++ mesh_spelling mesh.now) }
    ensures err { OnErr result (out.new.items ≡ out.old.items) }
    ensures read_again { OnOk result (mesh_text (mesh_spelling mesh.now) ≡ Ok (without_absent mesh.now)) }
{
    let _ = alloc;
    let before = out.len();
    let written = put_mesh(out, mesh);
    if written.is_err() {
        out.truncate(before);
    }
    written
}

// The text, or as much of it as there was memory for.
fn put_mesh(out: &mut Vec<u8>, mesh: &Mesh) -> Result<(), NoMemory>
    ensures ok { OnOk result (out.new.items ≡ out.old.items ++ mesh_spelling mesh.now) }
    ensures kept { take (vec_len out.old) out.new.items ≡ out.old.items }
    ensures read_again { OnOk result (mesh_text (mesh_spelling mesh.now) ≡ Ok (without_absent mesh.now)) }
{
    put_front(out, mesh.points())?;
    let live = live_count(mesh.cells());
    put_count(out, live)?;
    put_cells(out, mesh.cells())?;
    put_types(out, live)
}

// The first lines and the points.
pub fn put_front(out: &mut Vec<u8>, points: &[Point]) -> Result<(), NoMemory>
    ensures ok { OnOk result (out.new.items ≡ out.old.items ++ points_spelling points.now) }
    ensures kept { take (vec_len out.old) out.new.items ≡ out.old.items }
    ensures in_range { OnOk result (All IsPlace points.now) }
{
    out.extend_from_slice(FIRST_LINES)?;
    put_points(out, points)
}

// The points behind their number.
fn put_points(out: &mut Vec<u8>, points: &[Point]) -> Result<(), NoMemory>
    ensures ok { OnOk result (out.new.items ≡ out.old.items ++ flat_map line (point_lines points.now)) }
    ensures kept { take (vec_len out.old) out.new.items ≡ out.old.items }
    ensures in_range { OnOk result (All IsPlace points.now) }
{
    out.extend_from_slice(b"POINTS ")?;
    put_word(out, Buffer::new().format(points.len()), b' ')?;
    out.extend_from_slice(b"int\n")?;
    for point in points {
        put_point(out, point)?;
    }
    Ok(())
}

// The number of the live cells, and how many numbers follow.
pub fn put_count(out: &mut Vec<u8>, live: usize) -> Result<(), NoMemory>
    requires { live < 2 ^ 32 }
    ensures ok { OnOk result (out.new.items ≡ out.old.items ++ count_spelling live) }
    ensures kept { take (vec_len out.old) out.new.items ≡ out.old.items }
{
    out.extend_from_slice(b"CELLS ")?;
    put_word(out, Buffer::new().format(live), b' ')?;
    put_word(out, Buffer::new().format(5 * live), b'\n')
}

// The live ones of these cells.
pub fn put_cells(out: &mut Vec<u8>, cells: &[Option<Cell>]) -> Result<(), NoMemory>
    ensures ok { OnOk result (out.new.items ≡ out.old.items ++ cells_spelling cells.now) }
    ensures kept { take (vec_len out.old) out.new.items ≡ out.old.items }
{
    for cell in cells {
        put_live(out, cell)?;
    }
    Ok(())
}

// The types of so many tetrahedra.
pub fn put_types(out: &mut Vec<u8>, live: usize) -> Result<(), NoMemory>
    ensures ok { OnOk result (out.new.items ≡ out.old.items ++ types_spelling live) }
    ensures kept { take (vec_len out.old) out.new.items ≡ out.old.items }
{
    out.extend_from_slice(b"CELL_TYPES ")?;
    put_word(out, Buffer::new().format(live), b'\n')?;
    for _ in 0..live {
        out.extend_from_slice(b"10\n")?;
    }
    Ok(())
}

fn put_point(out: &mut Vec<u8>, point: &Point) -> Result<(), NoMemory>
    ensures ok { OnOk result (out.new.items ≡ out.old.items ++ line (point_line point.now)) }
    ensures kept { take (vec_len out.old) out.new.items ≡ out.old.items }
    ensures in_range { IsPlace point.now }
{
    let (x, y, z) = (point.x(), point.y(), point.z());
    let mut digits = Buffer::new();
    put_word(out, digits.format(x), b' ')?;
    put_word(out, digits.format(y), b' ')?;
    put_word(out, digits.format(z), b'\n')
}

// The line of a cell, or nothing of an absent one.
fn put_live(out: &mut Vec<u8>, cell: &Option<Cell>) -> Result<(), NoMemory>
    ensures ok { OnOk result (out.new.items ≡ out.old.items
        ++ flat_map line (map cell_line (live_cells (cell.now ∷ [])))) }
    ensures kept { take (vec_len out.old) out.new.items ≡ out.old.items }
{
    match cell {
        Some(cell) => put_cell(out, cell),
        None => Ok(()),
    }
}

fn put_cell(out: &mut Vec<u8>, cell: &Cell) -> Result<(), NoMemory>
    ensures ok { OnOk result (out.new.items ≡ out.old.items ++ line (cell_line cell.now)) }
    ensures kept { take (vec_len out.old) out.new.items ≡ out.old.items }
{
    let [a, b, c, d] = cell.corners();
    let mut digits = Buffer::new();
    out.extend_from_slice(b"4 ")?;
    put_word(out, digits.format(a), b' ')?;
    put_word(out, digits.format(b), b' ')?;
    put_word(out, digits.format(c), b' ')?;
    put_word(out, digits.format(d), b'\n')
}

// A word and the byte behind it.
fn put_word(out: &mut Vec<u8>, word: &str, end: u8) -> Result<(), NoMemory>
    ensures ok { OnOk result (out.new.items ≡ out.old.items ++ (word.now ++ end ∷ [])) }
    ensures kept { take (vec_len out.old) out.new.items ≡ out.old.items }
{
    out.extend_from_slice(word.as_bytes())?;
    out.push(end)?;
    Ok(())
}

// How many cells aren't absent.
pub fn live_count(cells: &[Option<Cell>]) -> usize
    ensures count { result ≡ length (live_cells cells.now) }
    ensures most { result ≤ length cells.now }
{
    cells.iter().filter(|cell| cell.is_some()).count()
}
