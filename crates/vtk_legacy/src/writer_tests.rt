//! Texts as they are written, beside what the format's description asks for.

use crate::{count_live, write_cells, write_count, write_mesh, write_points, write_types};
use mesh_base::{Cell, CellList, Mesh, Point, PointList};
use std::alloc::Global;
use std::test::Fail;

fn mesh_of(
    alloc: Global,
    places: &[(i32, i32, i32)],
    corners: &[Option<[u32; 4]>],
) -> Result<Mesh, Fail> {
    let mut points = Vec::new(alloc);
    for (x, y, z) in places {
        points.push(Point::new(*x, *y, *z).ok_or("range")?)?;
    }
    let mut cells = Vec::new(alloc);
    for four in corners {
        let cell = match four {
            Some(four) => Some(Cell::new(*four).ok_or("twice")?),
            None => None,
        };
        cells.push(cell)?;
    }
    let mesh = Mesh::new(PointList::of(points), CellList::of(cells)).ok_or("mesh")?;
    Ok(mesh)
}

// The text of the mesh in parts, with its cells in two chunks.
fn in_parts(mesh: &Mesh, out: &mut Vec<u8>) -> Result<(), Fail> {
    let cells = mesh.cells();
    let (front, back) = cells.split_at(cells.len() / 2);
    let live = count_live(front).saturating_add(count_live(back));
    if live > 9 {
        return Err("more cells than these tests have".into());
    }
    write_points(out, mesh.points())?;
    write_count(out, live)?;
    write_cells(out, front)?;
    write_cells(out, back)?;
    write_types(out, live)?;
    Ok(())
}

const NOTHING: &str = "# vtk DataFile Version 3.0\noctopus mesh\nASCII\nDATASET UNSTRUCTURED_GRID\n\
    POINTS 0 int\nCELLS 0 0\nCELL_TYPES 0\n";

const ONE: &str = "# vtk DataFile Version 3.0\noctopus mesh\nASCII\nDATASET UNSTRUCTURED_GRID\n\
    POINTS 4 int\n0 0 0\n4 0 0\n0 4 0\n0 0 4\nCELLS 1 5\n4 0 1 2 3\nCELL_TYPES 1\n10\n";

const GAPS: &str = "# vtk DataFile Version 3.0\noctopus mesh\nASCII\nDATASET UNSTRUCTURED_GRID\n\
    POINTS 6 int\n-1073741824 0 1073741824\n-7 10 -100\n0 -1 0\n5 5 5\n1 2 3\n9 9 9\n\
    CELLS 2 10\n4 4 1 0 3\n4 0 1 2 3\nCELL_TYPES 2\n10\n10\n";

#[test]
fn meshes_are_written(rt: HostRuntime) -> Result<(), Fail> {
    let one = [(0, 0, 0), (4, 0, 0), (0, 4, 0), (0, 0, 4)];
    let far = [
        (-1_073_741_824, 0, 1_073_741_824),
        (-7, 10, -100),
        (0, -1, 0),
        (5, 5, 5),
        (1, 2, 3),
        (9, 9, 9),
    ];
    let gaps = [None, Some([4, 1, 0, 3]), None, Some([0, 1, 2, 3]), None];
    let meshes = [
        (mesh_of(rt.alloc(), &[], &[])?, NOTHING),
        (mesh_of(rt.alloc(), &one, &[Some([0, 1, 2, 3])])?, ONE),
        (mesh_of(rt.alloc(), &far, &gaps)?, GAPS),
    ];
    for (mesh, text) in &meshes {
        let mut out = b"before ".to_vec(rt.alloc())?;
        write_mesh(rt.alloc(), mesh, &mut out)?;
        let (before, written) = out.as_slice().split_at(7);
        assert_eq!(rt; before, b"before ".as_slice());
        assert_eq!(rt; written, text.as_bytes());
        let mut parts = b"before ".to_vec(rt.alloc())?;
        in_parts(mesh, &mut parts)?;
        assert_eq!(rt; parts.as_slice(), out.as_slice());
    }
    Ok(())
}
