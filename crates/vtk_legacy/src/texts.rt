//! Texts that are read in tests, and what is asked of their meshes.
ghost use Rattle.std.specs.Prelude.{◌≡◌, ◌≤◌, length};

use crate::{MeshFault, MeshKind, MeshReader, read_mesh};
use mesh_base::Mesh;
use std::alloc::{AllocError, Global};

/// The lines of a mesh of one tetrahedron.
pub const LINES: [&[u8]; 13] = [
    b"# vtk DataFile Version 3.0\n",
    b"one\n",
    b"ASCII\n",
    b"DATASET UNSTRUCTURED_GRID\n",
    b"POINTS 4 int\n",
    b"0 0 0\n",
    b"4 0 0\n",
    b"0 4 0\n",
    b"0 0 4\n",
    b"CELLS 1 5\n",
    b"4 0 1 2 3\n",
    b"CELL_TYPES 1\n",
    b"10\n",
];

/// The lines from `from` up to `to`, with this text in their place.
pub fn changed(alloc: Global, from: usize, to: usize, text: &[u8]) -> Result<Vec<u8>, AllocError> {
    let mut all = Vec::new(alloc);
    for (i, line) in LINES.iter().enumerate() {
        if i == from {
            all.extend_from_slice(text)?;
        }
        if i < from || i >= to {
            all.extend_from_slice(line)?;
        }
    }
    if from >= LINES.len() {
        all.extend_from_slice(text)?;
    }
    Ok(all)
}

pub fn in_two(alloc: Global, text: &[u8], cut: usize) -> Result<Mesh, MeshFault>
    requires { cut ≤ length text.now }
{
    let mut reader = MeshReader::new(alloc);
    let _ = reader.feed(alloc, &text[..cut]);
    let _ = reader.feed(alloc, &text[cut..]);
    reader.finish(alloc)
}

pub fn byte_by_byte(alloc: Global, text: &[u8]) -> Result<Mesh, MeshFault> {
    let mut reader = MeshReader::new(alloc);
    for i in 0..text.len() {
        reader.feed(alloc, &text[i..i + 1])?;
    }
    reader.finish(alloc)
}

/// Whether the two say the same.
pub fn agree(a: &Result<Mesh, MeshFault>, b: &Result<Mesh, MeshFault>) -> bool {
    match (a, b) {
        (Ok(a), Ok(b)) => a.points() == b.points() && a.cells() == b.cells(),
        (Err(a), Err(b)) => a == b,
        _ => false,
    }
}

/// Whether each way of cutting the text in two gives the same.
pub fn same_for_cuts(alloc: Global, text: &[u8]) -> bool {
    let whole = read_mesh(alloc, text);
    for cut in 0..text.len() {
        if !agree(&whole, &in_two(alloc, text, cut)) {
            return false;
        }
    }
    agree(&whole, &byte_by_byte(alloc, text))
}

/// Whether the text has this fault, also where it is cut in two.
pub fn has_fault(alloc: Global, text: &[u8], kind: MeshKind, place: u64) -> bool {
    let outcome = read_mesh(alloc, text);
    matches!(&outcome, Err(MeshFault::Bad { kind: k, place: p }) if *k == kind && *p == place)
        && same_for_cuts(alloc, text)
}

/// Whether the text has a mesh with so many points and cells, also where it is cut in two.
pub fn has_mesh(alloc: Global, text: &[u8], points: usize, cells: usize) -> bool {
    let outcome = read_mesh(alloc, text);
    matches!(&outcome, Ok(mesh) if mesh.points().len() == points && mesh.cells().len() == cells)
        && same_for_cuts(alloc, text)
}

/// Whether these are the points and cells.
pub fn consists_of(
    outcome: &Result<Mesh, MeshFault>,
    points: &[(i32, i32, i32)],
    cells: &[[u32; 4]],
) -> bool {
    match outcome {
        Ok(mesh) => {
            mesh.points()
                .iter()
                .map(|p| (p.x(), p.y(), p.z()))
                .eq(points.iter().copied())
                && mesh
                    .cells()
                    .iter()
                    .flatten()
                    .map(|c| c.corners())
                    .eq(cells.iter().copied())
        }
        Err(_) => false,
    }
}

/// The text with another version and cells.
pub fn with_cells(alloc: Global, version: &[u8], cells: &[u8]) -> Result<Vec<u8>, AllocError> {
    let mut text = b"# vtk DataFile Version ".to_vec(alloc)?;
    text.extend_from_slice(version)?;
    text.extend_from_slice(b"\n")?;
    for line in &LINES[1..9] {
        text.extend_from_slice(line)?;
    }
    text.extend_from_slice(cells)?;
    Ok(text)
}

/// A text as another program may write it, with each line ended by CR LF.
pub const REALISTIC: [&[u8]; 23] = [
    b"# vtk DataFile Version 4.2",
    b"Tissue block, step 0",
    b"ASCII",
    b"DATASET UNSTRUCTURED_GRID",
    b"FIELD FieldData 1",
    b"TIME 1 1 double",
    b"0.25",
    b"POINTS 5 double",
    b"0 0 0 10.0 0 0 0 1e1 0",
    b"0 0 10 10 10 10",
    b"METADATA",
    b"INFORMATION 0",
    b"",
    b"CELLS 4 18",
    b"3 0 1 2",
    b"3 0 1 3",
    b"4 0 1 2 3",
    b"4 1 2 3 4",
    b"CELL_TYPES 4",
    b"5\r\n5\r\n10\r\n10",
    b"POINT_DATA 5",
    b"SCALARS pressure float 1\r\nLOOKUP_TABLE default",
    b"0.5 0.5 0.5 0.5 0.5",
];

/// Six points, and four tetrahedra over them, in plain spelling.
const POINTS: &[u8] = b"POINTS 6 int\n0 0 0\n4 0 0\n0 4 0\n0 0 4\n4 4 4\n1000000 -7 1073741824\n";

const CELLS: &[u8] = b"CELLS 4 20\n4 0 1 2 3\n4 1 2 3 4\n4 5 0 2 1\n4 3 4 5 0\n";

const TYPES: &[u8] = b"CELL_TYPES 4\n10\n10\n10\n10\n";

/// The types of the same tetrahedra amid five cells of other types.
const MIXED: &[u8] = b"CELL_TYPES 9\n5\n10\n9\n010\n7\n4\n10\t0000000010\x0b3\r\n";

/// What stands behind the types.
const BEHIND: &[u8] =
    b"\nCELL_DATA 4\nSCALARS weight int\nLOOKUP_TABLE default\n1 2 3 4\nPOINT_DATA 6\n";

/// Other spellings of these points and tetrahedra: the version, the points, the cells and the types, each plain where
/// it is empty.
pub const SAME_MESHES: [(&[u8], [&[u8]; 3]); 9] = [
    (b"3.0", [b"", b"", b""]),
    (
        b"3.0",
        [
            b"POINTS 6 float\r\n+0\t-0 0.\r\n4.\t0e5 .0\r\n0 .4e1 +0\r\n00 -0. 4e0\r\n4 40e-1 04\r\n1e+06 -7. 1073741824\r\n",
            b"",
            b"",
        ],
    ),
    (
        b"3.0",
        [
            b"POINTS 6 int\x0b0\x0c0\x0b0    4    0   0   0\n\n\n\n4 0 0 0 4 4 4 4 1000000 -000000000000000000000000000000000000007\t1.073741824e9 ",
            b"",
            b"",
        ],
    ),
    (
        b"3.0",
        [
            b"",
            b"CELLS 4 20\n04 00 01 02 03\n000000004 1 2 3 4\n0000000004 5 0 2 1\n00000000004 3 4 5 0\n",
            b"",
        ],
    ),
    (
        b"3.0",
        [
            b"",
            b"CELLS 4 20\r\n4\t0\t0000000001 2 3\r\n4\x0b1\x0c00000000002\x0b3\x0c4\r\n4  5   0    2     1\r\n\r\n4 3 4 5 0",
            b"\r\nCELL_TYPES 4\r\n10\r\n0000000010\r\n00000000010\t010\r\n",
        ],
    ),
    (
        b"3.0",
        [
            b"",
            b"CELLS 9 39\n3 0 1 2\n4 0 1 2 3\n4 1 1 2 2\n4 1 2 3 4\n0\n5 0 1 2 3 4\n4 5 0 2 1\n4 3 4 5 0\n2 0 5\n",
            MIXED,
        ],
    ),
    (
        b"5.1",
        [
            b"",
            b"CELLS 5 16\nOFFSETS int\n0 4 8 12 16\nCONNECTIVITY int\n0 1 2 3\n1 2 3 4\n5 0 2 1\n3 4 5 0\n",
            b"",
        ],
    ),
    (
        b"5.1",
        [
            b"",
            b"CELLS 5 16\r\nOFFSETS int\r\n0\t04 0000000008 00000000012\x0b16\r\nCONNECTIVITY int\r\n0\t1\x0b2\x0c3 000000001 0000000002 00000000003 4    5 0 2 1 3 4 5 0\r\n",
            b"",
        ],
    ),
    (
        b"5.1",
        [
            b"",
            b"CELLS 10 30\nOFFSETS int\n0 3 7 11 15 15 20 24 28 30\nCONNECTIVITY int\n0 1 2 0 1 2 3 1 1 2 2 1 2 3 4 0 1 2 3 4 5 0 2 1 3 4 5 0 0 5\n",
            MIXED,
        ],
    ),
];

/// The version and the parts in front of a faulty token, each plain where it is empty, the token, and its fault.
pub const FAULTS_AHEAD: [(&[u8], [&[u8]; 3], &[u8], MeshKind); 14] = [
    (
        b"3.0",
        [b"POINTS 6 int\n0 0 0\n4 ", b" ", b" "],
        b"4.5",
        MeshKind::NotWhole,
    ),
    (
        b"3.0",
        [b"POINTS 6 int\n0 0 0\n4 ", b" ", b" "],
        b"1073741825",
        MeshKind::Range,
    ),
    (
        b"3.0",
        [b"POINTS 6 int\n0 0 0\n4 ", b" ", b" "],
        b"4,0",
        MeshKind::Number,
    ),
    (
        b"3.0",
        [b"", b"CELLS 4 20\n4 0 1 2 3\n4 1 2 3 ", b" "],
        b"6",
        MeshKind::Index,
    ),
    (
        b"3.0",
        [b"", b"CELLS 4 20\n4 0 1 2 3\n4 1 2 3 ", b" "],
        b"0000000006",
        MeshKind::Index,
    ),
    (
        b"3.0",
        [b"", b"CELLS 4 20\n4 0 1 2 3\n4 1 2 3 ", b" "],
        b"+4",
        MeshKind::Number,
    ),
    (
        b"3.0",
        [b"", b"CELLS 4 20\n4 0 1 2 3\n", b" "],
        b"15",
        MeshKind::Size,
    ),
    (
        b"3.0",
        [b"", b"CELLS 4 20\n4 0 1 2 3\n", b" "],
        b"4294967296",
        MeshKind::Count,
    ),
    (
        b"3.0",
        [b"", b"CELLS 4 9\n4 0 1 2 3\n", b" "],
        b"4",
        MeshKind::Size,
    ),
    (
        b"3.0",
        [b"", b"", b"CELL_TYPES 4\n10\n"],
        b"11",
        MeshKind::CellType,
    ),
    (
        b"3.0",
        [
            b"",
            b"CELLS 3 15\n4 0 1 2 3\n4 1 2 1 4\n4 0 1 2 3\n",
            b"CELL_TYPES 3\n10\n",
        ],
        b"10",
        MeshKind::SameVertex,
    ),
    (
        b"3.0",
        [
            b"",
            b"CELLS 3 14\n4 0 1 2 3\n3 1 2 4\n4 0 1 2 3\n",
            b"CELL_TYPES 3\n10\n",
        ],
        b"10",
        MeshKind::CellSize,
    ),
    (
        b"5.1",
        [b"", b"CELLS 5 16\nOFFSETS int\n0 4 ", b" "],
        b"3",
        MeshKind::Size,
    ),
    (
        b"5.1",
        [
            b"",
            b"CELLS 5 16\nOFFSETS int\n0 4 8 12 16\n",
            b"CONNECTIVITY int\n0 1 2 3 1 ",
        ],
        b"6",
        MeshKind::Index,
    ),
];

/// The part, or the plain one where it is empty.
fn part_or<'a>(part: &'a [u8], plain: &'a [u8]) -> &'a [u8] {
    if part.is_empty() { plain } else { part }
}

/// The text of this version with these parts and this token, and more lines behind it.
pub fn spelled(
    alloc: Global,
    version: &[u8],
    parts: [&[u8]; 3],
    token: &[u8],
) -> Result<Vec<u8>, AllocError> {
    let [points, cells, types] = parts;
    let mut text = b"# vtk DataFile Version ".to_vec(alloc)?;
    text.extend_from_slice(version)?;
    text.extend_from_slice(b"\nfour\nASCII\nDATASET UNSTRUCTURED_GRID\n")?;
    text.extend_from_slice(part_or(points, POINTS))?;
    text.extend_from_slice(part_or(cells, CELLS))?;
    text.extend_from_slice(part_or(types, TYPES))?;
    text.extend_from_slice(token)?;
    text.extend_from_slice(BEHIND)?;
    Ok(text)
}

/// Whether the text of these parts and this token has this fault at the token, also where it is cut in two.
pub fn faulty_token(
    alloc: Global,
    version: &[u8],
    parts: [&[u8]; 3],
    token: &[u8],
    kind: MeshKind,
) -> Result<bool, AllocError> {
    let text = spelled(alloc, version, parts, token)?;
    let place = text
        .len()
        .saturating_sub(token.len())
        .saturating_sub(BEHIND.len());
    Ok(has_fault(alloc, &text, kind, place as u64))
}
