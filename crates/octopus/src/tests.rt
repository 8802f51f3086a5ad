//! Whole runs over files and a sink in memory.

mod answers;
mod outside;
mod refusals;
mod runs;
mod steps;
mod texts;

use crate::status::Status;
use crate::threads::octopus;
use mesh_base::NoMemory;
use oct_edge::{ByteList, CallList, FileList, MemFolder, MemSink, NamedFile, NoGate};
use std::alloc::Global;
use std::marker::Sync;
use std::process::Abort;
use std::sync::Wait;
use std::thread::Threads;

// A file of a folder.
fn file(alloc: Global, name: &str, text: &[u8]) -> Result<NamedFile, NoMemory> {
    Ok(NamedFile {
        name: ByteList::of(name.as_bytes().to_vec(alloc)?),
        bytes: ByteList::of(text.to_vec(alloc)?),
    })
}

// A folder with a mesh `m.vtk` and a script `s.txt`, of which the calls with these numbers fail. It gives at most 7
// bytes at once.
fn folder(
    alloc: Global,
    mesh: &[u8],
    script: &[u8],
    failing: &[u64],
) -> Result<MemFolder, NoMemory> {
    let mut files = Vec::new(alloc);
    files.push(file(alloc, "m.vtk", mesh)?)?;
    files.push(file(alloc, "s.txt", script)?)?;
    let failing = CallList::of(failing.to_vec(alloc)?);
    Ok(MemFolder::new(FileList::of(files), failing).with_most(7))
}

// A sink of which the writes with these numbers fail. It takes at most 7 bytes at once.
fn sink(alloc: Global, failing: &[u64]) -> Result<MemSink, NoMemory> {
    let sink = MemSink::new(alloc, 1000, CallList::of(failing.to_vec(alloc)?))?;
    Ok(sink.with_most(7))
}

// The words of a line.
fn words(alloc: Global, line: &str) -> Result<Vec<String>, NoMemory> {
    let mut words = Vec::new(alloc);
    for word in line.split_whitespace() {
        words.push(word.to_string(alloc)?)?;
    }
    Ok(words)
}

// Runs the words of a line, where these calls on the folder and on the sink fail: the status, and what was written.
fn run(
    rt: &(impl Threads + Wait + Sync),
    alloc: Global,
    line: &str,
    mut from: MemFolder,
    mut to: MemSink,
) -> Result<(Status, Vec<u8>), NoMemory> {
    let words = words(alloc, line)?;
    let status = octopus(rt, alloc, &words, &mut from, &mut to, &NoGate);
    Ok((status, to.bytes().to_vec(alloc)?))
}

// Runs the words of a line, and looks at the status and at what was written.
fn check(
    rt: &(impl Threads + Wait + Sync + Abort),
    alloc: Global,
    line: &str,
    mesh: &str,
    script: &str,
    status: Status,
    written: &str,
) -> Result<(), NoMemory> {
    let from = folder(alloc, mesh.as_bytes(), script.as_bytes(), &[])?;
    let (got, text) = run(rt, alloc, line, from, sink(alloc, &[])?)?;
    assert_eq!(rt; got, status, "the status of `{line}`");
    assert_eq!(rt; text.as_slice(), written.as_bytes(), "what `{line}` wrote");
    Ok(())
}
