//! What a step of a script does.

use super::texts::{ONE, SPLITS, THREE_SHIFTS, WIDE};
use super::{check, folder, run, sink};
use crate::status::Status;
use mesh_base::NoMemory;
use std::alloc::Global;
use std::test::Fail;

// The text of one cell with these points.
fn one_cell(alloc: Global, points: &str) -> Result<String, NoMemory> {
    let titled = ONE.replace(alloc, "\none\n", "\noctopus mesh\n")?;
    titled.replace(alloc, "0 0 0\n4 0 0\n0 4 0\n0 0 4\n", points)
}

// A cell whose first point is at the greatest coordinate.
const AT_THE_EDGE: &str = "1073741824 0 0\n0 0 0\n0 1 0\n0 0 1\n";

const ON_ONE: &str = "0 0 0\n4 0 0\n0 4 0\n0 0 4\n";

// The words, the points of one cell, the script, and the points that are written.
const MOVES: [(&str, &str, &str, &str); 7] = [
    (
        "step m.vtk s.txt 1",
        ON_ONE,
        "octopus script 1\npull 10 0 0 1 3\nend\n",
        "3 0 0\n6 0 0\n3 2 0\n3 0 2\n",
    ),
    (
        "step m.vtk s.txt 1",
        ON_ONE,
        "octopus script 1\nturn z\nend\n",
        "0 0 0\n0 4 0\n-4 0 0\n0 0 4\n",
    ),
    (
        "step m.vtk s.txt 1",
        ON_ONE,
        "octopus script 1\nrelax\nend\n",
        "1 1 1\n0 1 1\n1 0 1\n1 1 0\n",
    ),
    (
        "step m.vtk s.txt 1",
        ON_ONE,
        "octopus script 1\nshake 7 3\nend\n",
        "0 -3 0\n2 -1 1\n-2 2 -3\n-2 2 4\n",
    ),
    (
        "step m.vtk s.txt 1",
        AT_THE_EDGE,
        "octopus script 1\nshift 1 1 1\nend\n",
        "1073741824 1 1\n1 1 1\n1 2 1\n1 1 2\n",
    ),
    (
        "step m.vtk s.txt 3",
        ON_ONE,
        THREE_SHIFTS,
        "3 0 0\n7 0 0\n3 4 0\n3 0 4\n",
    ),
    ("step m.vtk s.txt 0", ON_ONE, THREE_SHIFTS, ON_ONE),
];

#[test]
fn steps_that_move(rt: HostRuntime) -> Result<(), Fail> {
    let alloc = rt.alloc();
    for (line, before, script, after) in MOVES {
        let mesh = one_cell(alloc, before)?;
        let moved = one_cell(alloc, after)?;
        check(
            &rt,
            alloc,
            line,
            mesh.as_str(),
            script,
            Status::Done,
            moved.as_str(),
        )?;
    }
    Ok(())
}

// `SPLITS` with a third edit, and its step 1: the vertex 5 stays inner.
const OPENED: &str = "octopus script 1\nsplit 0 4 4 4\nsplit 2 2 6 3\nremove 3\nstay\nend\n";

const DOUBLED: &str = "octopus script 1\nadd 0 1 2 3\nstay\nend\n";

// The mesh and script of a step, the words on the step that is written, and what they write.
const REREAD: [(&str, &str, &str, &str); 4] = [
    (WIDE, SPLITS, "surface m.vtk", "count 4\n0 1 2 3\n"),
    (WIDE, OPENED, "surface m.vtk", "count 5\n0 1 2 3 4\n"),
    (ONE, DOUBLED, "surface m.vtk", "count 0\n"),
    (
        ONE,
        DOUBLED,
        "box m.vtk 0 0 0 4 0 0",
        "route scan\ncount 2\n0 1\n",
    ),
];

#[test]
fn steps_are_read_again(rt: HostRuntime) -> Result<(), Fail> {
    let alloc = rt.alloc();
    for (mesh, script, line, written) in REREAD {
        let from = folder(alloc, mesh.as_bytes(), script.as_bytes(), &[])?;
        let (_, step) = run(&rt, alloc, "step m.vtk s.txt 1", from, sink(alloc, &[])?)?;
        let from = folder(alloc, &step, b"", &[])?;
        let (status, text) = run(&rt, alloc, line, from, sink(alloc, &[])?)?;
        assert_eq!(rt; status, Status::Done, "`{line}`");
        assert_eq!(rt; text.as_slice(), written.as_bytes(), "`{line}`");
    }
    Ok(())
}
