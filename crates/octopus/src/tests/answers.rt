//! What the commands write.

use super::check;
use super::texts::{
    BLOCK_1, CLOSED, EMPTY, LONE_POINT, ONE, RICH, SPLIT_TWICE, SPLITS, THREE_SHIFTS,
    THREE_SHIFTS_2, WIDE,
};
use crate::commands::gen_block::block_text;
use crate::status::Status;
use sample_meshes::{Side, block_mesh};
use std::test::Fail;
use vtk_legacy::read_mesh;

// The words, the mesh, the script, and what is written.
const ANSWERS: [(&str, &str, &str, &str); 24] = [
    ("scan m.vtk 0 0 0 4 0 0", ONE, "", "count 2\n0 1\n"),
    ("scan m.vtk 1 1 1 3 3 3", ONE, "", "count 0\n"),
    ("scan m.vtk 0 0 0 4 0 0", EMPTY, "", "count 0\n"),
    ("scan m.vtk 0 0 0 4 0 0", LONE_POINT, "", "count 2\n0 1\n"),
    ("scan m.vtk 2 0 0 16 6 3", SPLIT_TWICE, "", "count 2\n1 5\n"),
    ("surface m.vtk", ONE, "", "count 4\n0 1 2 3\n"),
    ("surface m.vtk", EMPTY, "", "count 0\n"),
    ("surface m.vtk", CLOSED, "", "count 0\n"),
    ("surface m.vtk", RICH, "", "count 5\n0 1 2 3 4\n"),
    (
        "box m.vtk 4 4 4 4 4 4",
        SPLIT_TWICE,
        "",
        "route walk\ncount 1\n4\n",
    ),
    (
        "box m.vtk 100 100 100 101 101 101",
        SPLIT_TWICE,
        "",
        "route scan\ncount 0\n",
    ),
    (
        "box m.vtk 2 0 0 16 6 3",
        SPLIT_TWICE,
        "",
        "route probe\ncount 1\n1\n",
    ),
    (
        "box m.vtk 0 0 0 16 16 16",
        SPLIT_TWICE,
        "",
        "route probe\ncount 6\n0 1 2 3 4 5\n",
    ),
    (
        "box m.vtk 0 0 0 1 1 1",
        CLOSED,
        "",
        "route scan\ncount 2\n0 4\n",
    ),
    ("box m.vtk 0 0 0 4 0 0", EMPTY, "", "route scan\ncount 0\n"),
    (
        "box m.vtk 0 0 0 10 0 0",
        RICH,
        "",
        "route probe\ncount 2\n0 1\n",
    ),
    (
        "cells m.vtk 0 0 0 16 16 16 all",
        SPLIT_TWICE,
        "",
        "route probe\ncount 7\n0 1 2 3 4 5 6\n",
    ),
    (
        "cells m.vtk 4 4 4 4 4 4 all",
        SPLIT_TWICE,
        "",
        "route walk\ncount 0\n",
    ),
    (
        "cells m.vtk 4 4 4 4 4 4 some",
        SPLIT_TWICE,
        "",
        "route walk\ncount 6\n0 1 2 3 5 6\n",
    ),
    (
        "cells m.vtk 2 0 0 16 6 3 some",
        SPLIT_TWICE,
        "",
        "route probe\ncount 3\n0 1 2\n",
    ),
    (
        "cells m.vtk 0 0 0 0 0 0 some",
        RICH,
        "",
        "route probe\ncount 1\n0\n",
    ),
    ("step m.vtk s.txt 1", WIDE, SPLITS, SPLIT_TWICE),
    ("upgrade s.txt", "", THREE_SHIFTS, THREE_SHIFTS_2),
    ("gen 1", "", "", BLOCK_1),
];

#[test]
fn answers(rt: HostRuntime) -> Result<(), Fail> {
    for (line, mesh, script, written) in ANSWERS {
        check(&rt, rt.alloc(), line, mesh, script, Status::Done, written)?;
    }
    Ok(())
}

// The words, and the rings that are written of a cell that was split twice.
const RINGS: [(&str, &str); 3] = [
    (
        "rings m.vtk 4 4 4 4 4 4 2",
        "route walk\nring 0 count 1\n4\nring 1 count 5\n0 1 2 3 5\n4 4 4 4 4\nring 2 count 0\n",
    ),
    (
        "rings m.vtk 16 0 0 16 0 0 2",
        "route probe\nring 0 count 1\n1\nring 1 count 4\n0 2 3 4\n1 1 1 1\nring 2 count 1\n5\n0\n",
    ),
    (
        "rings m.vtk 100 100 100 101 101 101 1",
        "route scan\nring 0 count 0\nring 1 count 0\n",
    ),
];

#[test]
fn rings(rt: HostRuntime) -> Result<(), Fail> {
    for (line, written) in RINGS {
        check(
            &rt,
            rt.alloc(),
            line,
            SPLIT_TWICE,
            "",
            Status::Done,
            written,
        )?;
    }
    Ok(())
}

// Scripts, and how they are printed in version 2. A script isn't checked on a mesh.
const UPGRADED: [(&str, &str); 2] = [
    (
        "octopus script 2\r\n# held\r\nsession\r\nhold\r\nbox  0 0 0 +1 -0 007\r\nfree\r\nend",
        "octopus script 2\nsession\nhold\nbox 0 0 0 1 0 7\nfree\nend\n",
    ),
    (
        "octopus script 1\nremove 7\nstay\nsession\nwait 5\nend\n",
        "octopus script 2\nremove 7\nstay\nsession\nwait 5\nend\n",
    ),
];

#[test]
fn upgraded_scripts(rt: HostRuntime) -> Result<(), Fail> {
    for (script, written) in UPGRADED {
        check(
            &rt,
            rt.alloc(),
            "upgrade s.txt",
            "",
            script,
            Status::Done,
            written,
        )?;
    }
    Ok(())
}

#[test]
fn a_block_is_read_back(rt: HostRuntime) -> Result<(), Fail> {
    let alloc = rt.alloc();
    let side = Side::new(6).expect(&rt, "a side");
    let Ok(read) = read_mesh(alloc, &block_text(alloc, side)?) else {
        return Err(Fail::from("the written block isn't read"));
    };
    let block = block_mesh(alloc, 6)?;
    assert_eq!(rt; read.points().len(), 343);
    assert_eq!(rt; read.cells().len(), 1296);
    assert!(rt; read.points() == block.points());
    assert!(rt; read.cells() == block.cells());
    Ok(())
}
