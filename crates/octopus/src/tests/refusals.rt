//! What is refused, and how.

use super::texts::{ONE, SPLITS, THREE_SHIFTS, VERSION_6};
use super::{check, folder, run, sink, words};
use crate::plain::plain;
use crate::status::Status;
use mesh_base::NoMemory;
use oct_edge::EndlessFolder;
use std::alloc::Global;
use std::test::Fail;

// Words without a form.
const USAGE: [&str; 19] = [
    "",
    "scan m.vtk 4 0 0 0 0 0",
    "scan m.vtk 0 0 0 4 0 1073741825",
    "surface",
    "box m.vtk 4 0 0 0 0 0",
    "box m.vtk 0 0 0 4 0",
    "cells m.vtk 0 0 0 4 0 0",
    "cells m.vtk 0 0 0 4 0 0 any",
    "cells m.vtk 4 0 0 0 0 0 all",
    "rings m.vtk 0 0 0 4 0 0",
    "rings m.vtk 0 0 0 4 0 0 1001",
    "rings m.vtk 0 0 0 4 0 0 +1",
    "watch m.vtk",
    "gen 0",
    "gen 88",
    "gen +1",
    "step m.vtk s.txt 10001",
    "step m.vtk s.txt +1",
    "step m.vtk s.txt",
];

#[test]
fn words_without_a_form(rt: HostRuntime) -> Result<(), Fail> {
    for line in USAGE {
        check(
            &rt,
            rt.alloc(),
            line,
            ONE,
            "",
            Status::Usage,
            "refused usage\n",
        )?;
    }
    Ok(())
}

// The words, the mesh, the script, the status, and what is written. The script of a mesh with a fault isn't looked for.
const REFUSED: [(&str, &str, &str, Status, &str); 14] = [
    (
        "scan m.vtk 0 0 0 4 0 0",
        VERSION_6,
        "",
        Status::BadMesh,
        "refused mesh Version 23\n",
    ),
    ("scan n.vtk 0 0 0 4 0 0", ONE, "", Status::ReadFault, ""),
    (
        "cells m.vtk 0 0 0 4 0 0 all",
        VERSION_6,
        "",
        Status::BadMesh,
        "refused mesh Version 23\n",
    ),
    (
        "step m.vtk s.txt 4",
        ONE,
        THREE_SHIFTS,
        Status::NoStep,
        "refused step 4 3\n",
    ),
    (
        "step m.vtk s.txt 10000",
        ONE,
        THREE_SHIFTS,
        Status::NoStep,
        "refused step 10000 3\n",
    ),
    (
        "step m.vtk s.txt 0",
        ONE,
        "octopus script 9\n",
        Status::BadScript,
        "refused script Header 1\n",
    ),
    (
        "step m.vtk s.txt 0",
        VERSION_6,
        "",
        Status::BadMesh,
        "refused mesh Version 23\n",
    ),
    (
        "step m.vtk t.txt 0",
        VERSION_6,
        "",
        Status::BadMesh,
        "refused mesh Version 23\n",
    ),
    ("step m.vtk t.txt 0", ONE, "", Status::ReadFault, ""),
    (
        "step n.vtk s.txt 0",
        ONE,
        THREE_SHIFTS,
        Status::ReadFault,
        "",
    ),
    (
        "upgrade s.txt",
        "",
        "",
        Status::BadScript,
        "refused script Truncated 0\n",
    ),
    (
        "upgrade s.txt",
        "",
        "octopus script 1\nsession\nhold\nend\n",
        Status::BadScript,
        "refused script Word 3\n",
    ),
    ("upgrade t.txt", "", SPLITS, Status::ReadFault, ""),
    ("upgrade", "", SPLITS, Status::Usage, "refused usage\n"),
];

#[test]
fn refusals(rt: HostRuntime) -> Result<(), Fail> {
    for (line, mesh, script, status, written) in REFUSED {
        check(&rt, rt.alloc(), line, mesh, script, status, written)?;
    }
    Ok(())
}

// The words, the number of the first line, what stands behind that line, and the refusal. The step is above the last
// one too, which is told only of a job without a fault; a fault by the script alone goes before one on the mesh.
const FAULTS: [(&str, u32, &str, &str); 16] = [
    (
        "step m.vtk s.txt 9",
        1,
        "session\nwait 1\nbox 0 0 0 1 1 1\nend\n",
        "NoStep 3",
    ),
    ("step m.vtk s.txt 9", 1, "shift 1 0\nend\n", "Word 2"),
    ("step m.vtk s.txt 9", 1, "shift a 0 0\nend\n", "Number 2"),
    (
        "step m.vtk s.txt 9",
        1,
        "shift 1073741825 0 0\nend\n",
        "Range 2",
    ),
    (
        "step m.vtk s.txt 9",
        1,
        "session\nbox 4 0 0 0 0 0\nend\n",
        "Box 3",
    ),
    ("step m.vtk s.txt 9", 1, "point 1 1 1\nend\n", "Order 3"),
    ("step m.vtk s.txt 9", 1, "stay\n", "Truncated 2"),
    (
        "step m.vtk s.txt 9",
        1,
        "add 0 1 2 9\nstay\nend\n",
        "NoPoint 2",
    ),
    (
        "step m.vtk s.txt 9",
        1,
        "add 0 1 2 2\nstay\nend\n",
        "SameVertex 2",
    ),
    (
        "step m.vtk s.txt 9",
        1,
        "remove 0\nremove 0\nstay\nend\n",
        "NoCell 3",
    ),
    (
        "step m.vtk s.txt 9",
        1,
        "remove 7\nstay\nsession\nbox 0 0 0 0 0\nend\n",
        "Word 5",
    ),
    ("step m.vtk s.txt 9", 1, "octopus script 1\nend\n", "Word 2"),
    ("upgrade s.txt", 2, "session\nfree\nend\n", "Order 3"),
    ("upgrade s.txt", 2, "session\nhold\nend\n", "Order 4"),
    ("upgrade s.txt", 2, "session\nhold\nfree\nend\n", "Order 4"),
    (
        "upgrade s.txt",
        2,
        "session\nhold\nwait 0\nend\n",
        "Order 4",
    ),
];

#[test]
fn scripts_with_faults(rt: HostRuntime) -> Result<(), Fail> {
    let alloc = rt.alloc();
    for (line, version, rows, fault) in FAULTS {
        let script = format!(in alloc; "octopus script {version}\n{rows}")?;
        let due = format!(in alloc; "refused script {fault}\n")?;
        check(
            &rt,
            alloc,
            line,
            ONE,
            script.as_str(),
            Status::BadScript,
            due.as_str(),
        )?;
    }
    Ok(())
}

// So many number signs.
fn signs(alloc: Global, count: usize) -> Result<Vec<u8>, NoMemory> {
    let text = vec![in alloc; b'#'; count]?;
    Ok(text)
}

// How many bytes a script has, the status, and what is written.
const LONG: [(usize, Status, &str); 2] = [
    (1 << 26, Status::BadScript, "refused script Header 1\n"),
    ((1 << 26) + 1, Status::TooLong, "refused long script\n"),
];

#[test]
fn the_longest_script(rt: HostRuntime) -> Result<(), Fail> {
    let alloc = rt.alloc();
    for (count, status, written) in LONG {
        let script = signs(alloc, count)?;
        let from = folder(alloc, ONE.as_bytes(), &script, &[])?.with_most(1 << 16);
        let (got, text) = run(&rt, alloc, "step m.vtk s.txt 0", from, sink(alloc, &[])?)?;
        assert_eq!(rt; got, status, "{count} bytes");
        assert_eq!(rt; text.as_slice(), written.as_bytes(), "{count} bytes");
    }
    Ok(())
}

// Files without an end: one byte more than the limit is read.
#[test]
fn endless_files(rt: HostRuntime) -> Result<(), Fail> {
    let alloc = rt.alloc();
    let rows: [(&str, &str); 2] = [
        ("scan m.vtk 0 0 0 4 0 0", "refused long mesh\n"),
        ("upgrade s.txt", "refused long script\n"),
    ];
    for (line, written) in rows {
        let mut to = sink(alloc, &[])?;
        let got = plain(
            alloc,
            &words(alloc, line)?,
            &mut EndlessFolder::new(b'#'),
            &mut to,
        );
        assert_eq!(rt; got, Status::TooLong);
        assert_eq!(rt; to.bytes(), written.as_bytes());
    }
    Ok(())
}
