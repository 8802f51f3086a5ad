use crate::texts::{consists_of, faulty_token, same_for_cuts, spelled};
use crate::{MeshKind, read_mesh};
use std::test::*;

/// A triangle, a tetrahedron, a polygon of eight points, four points of which two are equal, a tetrahedron, a vertex, a
/// tetrahedron and a line, in both forms.
const CELLS: [(&[u8], &[u8]); 2] = [
    (
        b"3.0",
        b"CELLS 8 38\n3 0 1 2\n4 0 1 2 3\n8 0 1 2 3 4 5 0 1\n4 1 1 2 2\n4 1 2 3 4\n1 5\n4 5 0 2 1\n2 0 5\n",
    ),
    (
        b"5.1",
        b"CELLS 9 30\nOFFSETS int\n0 3 7 15 19 23 24 28 30\nCONNECTIVITY int\n0 1 2 0 1 2 3 0 1 2 3 4 5 0 1 1 1 2 2 1 2 3 4 5 5 0 2 1 0 5\n",
    ),
];

const TYPES: &[u8] = b"CELL_TYPES 8\n5\n10\n7\n9\n10\n1\n10\n3\n";

/// Types in front of a 10 that doesn't fit its cell.
const FAULTS: [(&[u8], MeshKind); 3] = [
    (b"CELL_TYPES 8\n", MeshKind::CellSize),
    (b"CELL_TYPES 8\n5\n10\n", MeshKind::CellSize),
    (b"CELL_TYPES 8\n5\n10\n7\n", MeshKind::SameVertex),
];

// The tetrahedra are finished in the places of cells that were used, whatever stands between them.
#[test]
fn mixed_cells_at_each_cut(rt: HostRuntime) -> Result<(), Fail> {
    let alloc = rt.alloc();
    let points = [
        (0, 0, 0),
        (4, 0, 0),
        (0, 4, 0),
        (0, 0, 4),
        (4, 4, 4),
        (1000000, -7, 1073741824),
    ];
    let tetrahedra = [[0, 1, 2, 3], [1, 2, 3, 4], [5, 0, 2, 1]];
    for (version, cells) in CELLS.iter() {
        let text = spelled(alloc, version, [b"", cells, TYPES], b"")?;
        let mesh = read_mesh(alloc, &text);
        assert!(rt; consists_of(&mesh, &points, &tetrahedra), "{text:?}");
        assert!(rt; same_for_cuts(alloc, &text), "{text:?}");
        for (types, kind) in FAULTS.iter() {
            let parts: [&[u8]; 3] = [b"", cells, types];
            let faulty = faulty_token(alloc, version, parts, b"10", *kind)?;
            assert!(rt; faulty, "{parts:?}");
            let text = spelled(alloc, version, parts, b"10")?;
            assert!(rt; same_for_cuts(alloc, &text), "{text:?}");
        }
    }
    Ok(())
}
