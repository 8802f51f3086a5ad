//! Reads and writes that fail, each in turn.
ghost use Rattle.std.specs.Prelude.{◌≤◌};

use super::texts::{MOVED_THRICE, ONE, THREE_SHIFTS, THREE_SHIFTS_2};
use super::{folder, run, sink};
use crate::status::Status;
use mesh_base::NoMemory;
use std::alloc::Global;
use std::marker::Sync;
use std::process::Abort;
use std::sync::Wait;
use std::test::Fail;
use std::thread::Threads;

// The words, how many calls on the folder they make until their files are read, in pieces of at most 7 bytes and in
// whole pieces, and what they write. Of a file of 136 bytes there are the selection, 20 reads of at most 7 bytes, and
// the read at the end; of one of 88 bytes 13 reads.
const CALLS: [(&str, u64, u64, &str); 7] = [
    ("scan m.vtk 0 0 0 4 0 0", 22, 3, "count 2\n0 1\n"),
    ("surface m.vtk", 22, 3, "count 4\n0 1 2 3\n"),
    (
        "box m.vtk 0 0 0 4 0 0",
        22,
        3,
        "route probe\ncount 2\n0 1\n",
    ),
    (
        "cells m.vtk 0 0 0 4 0 0 some",
        22,
        3,
        "route probe\ncount 1\n0\n",
    ),
    (
        "rings m.vtk 0 0 0 4 0 0 1",
        22,
        3,
        "route probe\nring 0 count 2\n0 1\nring 1 count 2\n2 3\n0 0\n",
    ),
    ("step m.vtk s.txt 3", 37, 6, MOVED_THRICE),
    ("upgrade s.txt", 15, 3, THREE_SHIFTS_2),
];

// The commands that play a job, and how many calls they make until their files are read. What they write differs from
// run to run.
const PLAYED_CALLS: [(&str, u64, u64); 2] = [
    ("run m.vtk s.txt", 37, 6),
    ("watch m.vtk s.txt", 37, 6),
];

// Runs the words where these calls on the folder and on the sink fail. A call moves at most 7 bytes, or all that there
// are.
fn run_failing(
    rt: &(impl Threads + Wait + Sync),
    alloc: Global,
    line: &str,
    whole: bool,
    reads: &[u64],
    writes: &[u64],
) -> Result<(Status, Vec<u8>), NoMemory> {
    let most = most_bytes(whole);
    let from = folder(alloc, ONE.as_bytes(), THREE_SHIFTS.as_bytes(), reads)?;
    let to = sink(alloc, writes)?;
    run(rt, alloc, line, from.with_most(most), to.with_most(most))
}

// The most bytes of a call.
fn most_bytes(whole: bool) -> u32
    ensures { 1 ≤ result }
{
    if whole { 1000 } else { 7 }
}

// Nothing is written where a read fails.
fn check_read(
    rt: &(impl Threads + Wait + Sync + Abort),
    alloc: Global,
    line: &str,
    whole: bool,
    call: u64,
) -> Result<(), NoMemory> {
    let (status, written) = run_failing(rt, alloc, line, whole, &[call], &[])?;
    assert_eq!(rt; status, Status::ReadFault, "call {call} of `{line}`");
    assert!(rt; written.is_empty(), "call {call} of `{line}`");
    Ok(())
}

// Lets each call fail until the files are read, and then none. What is written then.
fn check_reads(
    rt: &(impl Threads + Wait + Sync + Abort),
    alloc: Global,
    line: &str,
    whole: bool,
    calls: u64,
) -> Result<Vec<u8>, NoMemory> {
    for call in 0..calls {
        check_read(rt, alloc, line, whole, call)?;
    }
    let (status, written) = run_failing(rt, alloc, line, whole, &[calls], &[])?;
    assert_eq!(rt; status, Status::Done, "`{line}`");
    Ok(written)
}

#[test]
fn each_read_fails_in_turn(rt: HostRuntime) -> Result<(), Fail> {
    let alloc = rt.alloc();
    for (line, small, whole, text) in CALLS {
        let written = check_reads(&rt, alloc, line, false, small)?;
        assert_eq!(rt; written.as_slice(), text.as_bytes(), "`{line}`");
        let written = check_reads(&rt, alloc, line, true, whole)?;
        assert_eq!(rt; written.as_slice(), text.as_bytes(), "`{line}`");
    }
    for (line, small, whole) in PLAYED_CALLS {
        check_reads(&rt, alloc, line, false, small)?;
        check_reads(&rt, alloc, line, true, whole)?;
    }
    Ok(())
}

// A text goes out in writes up to the one that fails.
fn check_write(
    rt: &(impl Threads + Wait + Sync + Abort),
    alloc: Global,
    line: &str,
    text: &[u8],
    whole: bool,
    call: u64,
) -> Result<(), NoMemory> {
    let (status, written) = run_failing(rt, alloc, line, whole, &[], &[call])?;
    let most = most_bytes(whole) as usize;
    let front = text.len().min((call as usize).saturating_mul(most));
    let due = if front == text.len() {
        Status::Done
    } else {
        Status::WriteFault
    };
    assert_eq!(rt; status, due, "write {call} of `{line}`");
    assert!(rt;
        written.len() == front && text.starts_with(&written),
        "write {call} of `{line}`"
    );
    Ok(())
}

#[test]
fn each_write_fails_in_turn(rt: HostRuntime) -> Result<(), Fail> {
    let alloc = rt.alloc();
    for (line, _, _, text) in CALLS {
        for call in 0..30u64 {
            check_write(&rt, alloc, line, text.as_bytes(), false, call)?;
        }
        for call in 0..2u64 {
            check_write(&rt, alloc, line, text.as_bytes(), true, call)?;
        }
    }
    Ok(())
}
