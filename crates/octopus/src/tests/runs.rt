//! Runs of scripts by threads, and demos.

use super::texts::{ASKED_TWICE, HOLD, ONE, SPLITS, THREE_SHIFTS, VERSION_6, WIDE};
use super::{check, folder, run, sink};
use crate::status::Status;
use mesh_base::NoMemory;
use std::alloc::Global;
use std::marker::Sync;
use std::process::Abort;
use std::sync::Wait;
use std::test::Fail;
use std::thread::Threads;

// The journal of one step and two turns that wait for it, in each of its orders.
const TWO_TURNS: [&str; 5] = [
    "journal 6\npublish 1\nclose\npin 0 1\nunpin 0 1\npin 0 1\nunpin 0 1\nend\n",
    "journal 6\npublish 1\npin 0 1\nclose\nunpin 0 1\npin 0 1\nunpin 0 1\nend\n",
    "journal 6\npublish 1\npin 0 1\nunpin 0 1\nclose\npin 0 1\nunpin 0 1\nend\n",
    "journal 6\npublish 1\npin 0 1\nunpin 0 1\npin 0 1\nclose\nunpin 0 1\nend\n",
    "journal 6\npublish 1\npin 0 1\nunpin 0 1\npin 0 1\nunpin 0 1\nclose\nend\n",
];

// The mesh, the script, the report up to its journal, and the journal in each of its orders for this front.
const RUNS: [(&str, &str, &str, [&str; 5]); 4] = [
    (
        ONE,
        THREE_SHIFTS,
        "octopus report 1\nsteps 3\nsessions 1\nsession 0 boxes 1\nbox 0 step 3 route probe count 2\n0 1\n",
        [
            "journal 6\npublish 1\npublish 2\npublish 3\npin 0 3\nunpin 0 3\nclose\nend\n",
            "journal 6\npublish 1\npublish 2\npublish 3\npin 0 3\nclose\nunpin 0 3\nend\n",
            "journal 6\npublish 1\npublish 2\npublish 3\nclose\npin 0 3\nunpin 0 3\nend\n",
            "",
            "",
        ],
    ),
    (
        WIDE,
        SPLITS,
        "octopus report 1\nsteps 1\nsessions 1\nsession 0 boxes 1\nbox 0 step 0 route scan count 0\n",
        [
            "journal 4\npin 0 0\nunpin 0 0\npublish 1\nclose\nend\n",
            "journal 4\npin 0 0\npublish 1\nunpin 0 0\nclose\nend\n",
            "journal 4\npin 0 0\npublish 1\nclose\nunpin 0 0\nend\n",
            "",
            "",
        ],
    ),
    (
        WIDE,
        SPLITS,
        "octopus report 1\nsteps 1\nsessions 1\nsession 0 boxes 1\nbox 0 step 1 route walk count 1\n4\n",
        [
            "journal 4\npublish 1\npin 0 1\nunpin 0 1\nclose\nend\n",
            "journal 4\npublish 1\npin 0 1\nclose\nunpin 0 1\nend\n",
            "journal 4\npublish 1\nclose\npin 0 1\nunpin 0 1\nend\n",
            "",
            "",
        ],
    ),
    (
        WIDE,
        HOLD,
        "octopus report 1\nsteps 1\nsessions 1\nsession 0 boxes 3\nbox 0 step 1 route probe count 1\n0\nbox 1 step 1 route probe count 1\n1\nbox 2 step 1 route probe count 1\n2\n",
        TWO_TURNS,
    ),
];

// Whether a text, or the front that there is of it, is that of a report of a run of these.
fn may_be(text: &[u8], mesh: &str, script: &str, whole: bool) -> bool {
    RUNS.iter().any(|(of, by, front, journals)| {
        *of == mesh
            && *by == script
            && journals
                .iter()
                .any(|journal| is_text(text, front, journal, whole))
    })
}

// Whether a text is this front with this journal behind it, or begins it.
fn is_text(text: &[u8], front: &str, journal: &str, whole: bool) -> bool {
    let (head, tail) = text.split_at(text.len().min(front.len()));
    let fits = front.as_bytes().starts_with(head) && journal.as_bytes().starts_with(tail);
    fits && (!whole || tail.len() == journal.len())
}

#[test]
fn reports(rt: HostRuntime) -> Result<(), Fail> {
    let alloc = rt.alloc();
    for (mesh, script, _, _) in RUNS {
        let from = folder(alloc, mesh.as_bytes(), script.as_bytes(), &[])?;
        let (status, text) = run(&rt, alloc, "run m.vtk s.txt", from, sink(alloc, &[])?)?;
        assert_eq!(rt; status, Status::Done, "`{script}`");
        assert!(rt; may_be(&text, mesh, script, true), "`{script}`");
    }
    Ok(())
}

// A write in the midst of a report fails: what was written begins a report.
#[test]
fn reports_that_break_off(rt: HostRuntime) -> Result<(), Fail> {
    let alloc = rt.alloc();
    for call in [0usize, 1, 12, 20] {
        let from = folder(alloc, ONE.as_bytes(), THREE_SHIFTS.as_bytes(), &[])?;
        let to = sink(alloc, &[call as u64])?;
        let (status, text) = run(&rt, alloc, "run m.vtk s.txt", from, to)?;
        assert_eq!(rt; status, Status::WriteFault, "write {call}");
        assert_eq!(rt; text.len(), 7 * call, "write {call}");
        assert!(rt; may_be(&text, ONE, THREE_SHIFTS, false), "write {call}");
    }
    Ok(())
}

// The watches of `ASKED_TWICE` on `ONE`, up to their journal.
const WATCHES: &str =
    "octopus watch 1\nsteps 1\nsessions 1\nsession 0 boxes 2\nbox 0 step 1 from - entered 2 left 0\n0 1\nbox 1 step 1 from 0 entered 0 left 0\n";

// The write that fails, if there is one, and the status.
const WATCHED: [(u64, Status); 2] = [(1000, Status::Done), (19, Status::WriteFault)];

#[test]
fn watches(rt: HostRuntime) -> Result<(), Fail> {
    let alloc = rt.alloc();
    for (call, due) in WATCHED {
        let from = folder(alloc, ONE.as_bytes(), ASKED_TWICE.as_bytes(), &[])?;
        let to = sink(alloc, &[call])?;
        let (status, text) = run(&rt, alloc, "watch m.vtk s.txt", from, to)?;
        assert_eq!(rt; status, due, "write {call}");
        let fits = TWO_TURNS.iter().any(|journal| is_text(
            &text,
            WATCHES,
            journal,
            due == Status::Done,
        ));
        assert!(rt; fits, "write {call}");
    }
    Ok(())
}

// The summary of the block of one cube with the seed 7.
const DEMO: &str =
    "octopus demo\npoints 8 cells 6 steps 8 sessions 4\nsession 0 probe 8 probe 4 probe 1\nsession 1 probe 8 probe 4 probe 1\nsession 2 probe 8 probe 4 probe 1\nsession 3 probe 8 probe 4 probe 1\nend\n";

// The words, the mesh, the script, the status, and what is written.
const PLAYED: [(&str, &str, &str, Status, &str); 13] = [
    ("demo 1 7", "", "", Status::Done, DEMO),
    ("demo 0 7", "", "", Status::Usage, "refused usage\n"),
    ("demo 41 7", "", "", Status::Usage, "refused usage\n"),
    ("demo 1 65536", "", "", Status::Usage, "refused usage\n"),
    ("demo 1", "", "", Status::Usage, "refused usage\n"),
    ("run m.vtk", ONE, "", Status::Usage, "refused usage\n"),
    ("run n.vtk s.txt", ONE, THREE_SHIFTS, Status::ReadFault, ""),
    (
        "watch m.vtk t.txt",
        ONE,
        THREE_SHIFTS,
        Status::ReadFault,
        "",
    ),
    (
        "watch m.vtk s.txt",
        ONE,
        "octopus script 1\nremove 1\nstay\nend\n",
        Status::BadScript,
        "refused script NoCell 2\n",
    ),
    ("run m.vtk t.txt", ONE, THREE_SHIFTS, Status::ReadFault, ""),
    (
        "run m.vtk t.txt",
        VERSION_6,
        "",
        Status::BadMesh,
        "refused mesh Version 23\n",
    ),
    (
        "run m.vtk s.txt",
        ONE,
        "octopus script 9\n",
        Status::BadScript,
        "refused script Header 1\n",
    ),
    (
        "run m.vtk s.txt",
        ONE,
        "octopus script 1\nremove 1\nstay\nend\n",
        Status::BadScript,
        "refused script NoCell 2\n",
    ),
];

#[test]
fn demos_and_refusals(rt: HostRuntime) -> Result<(), Fail> {
    for (line, mesh, script, status, written) in PLAYED {
        check(&rt, rt.alloc(), line, mesh, script, status, written)?;
    }
    Ok(())
}
