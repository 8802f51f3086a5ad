//! Each stand-in with each kind of failure, and the real outside once.

use super::*;
use std::alloc::Global;
use std::fs;
use std::test::Fail;

fn calls(alloc: Global, numbers: &[u64]) -> Result<CallList, NoMemory> {
    Ok(CallList::of(numbers.to_vec(alloc)?))
}

fn named(alloc: Global, name: &str, bytes: &[u8]) -> Result<NamedFile, NoMemory> {
    Ok(NamedFile {
        name: ByteList::of(name.as_bytes().to_vec(alloc)?),
        bytes: ByteList::of(bytes.to_vec(alloc)?),
    })
}

fn folder(alloc: Global, failing: &[u64]) -> Result<MemFolder, NoMemory> {
    let mut files = Vec::new(alloc);
    files.push(named(alloc, "a", b"hello")?)?;
    files.push(named(alloc, "b", b"")?)?;
    files.push(named(alloc, "a", b"second")?)?;
    Ok(MemFolder::new(FileList::of(files), calls(alloc, failing)?))
}

/// Reads the current file to its end or its first failure, and says what was read.
fn read_all<F: Folder>(alloc: Global, from: &mut F) -> Result<(Vec<u8>, bool), NoMemory> {
    let mut all = Vec::new(alloc);
    for _ in 0..20u8 {
        let mut buf = [0u8; 4];
        match from.read(&mut buf) {
            Ok(0) => return Ok((all, true)),
            Ok(count) => all.extend_from_slice(&buf[..count.min(4)])?,
            Err(Failed) => return Ok((all, false)),
        }
    }
    Ok((all, false))
}

#[test]
fn files_in_memory(rt: HostRuntime) -> Result<(), Fail> {
    let alloc = rt.alloc();
    // The name, the calls that fail, whether it is selected, what is read, and whether to the end.
    let table: [(&str, &[u64], bool, &[u8], bool); 8] = [
        ("a", &[], true, b"hello", true),
        ("b", &[], true, b"", true),
        ("c", &[], false, b"", true),
        ("a", &[0], false, b"", true),
        ("a", &[1], true, b"", false),
        ("a", &[2], true, b"he", false),
        ("a", &[4], true, b"hello", false),
        ("a", &[9, 3], true, b"hell", false),
    ];
    for (name, failing, selected, bytes, whole) in table {
        let mut from = folder(alloc, failing)?.with_most(2);
        assert_eq!(rt; from.select(name).is_ok(), selected, "select of {name}");
        let (read, ended) = read_all(alloc, &mut from)?;
        assert_eq!(rt; read.as_slice(), bytes, "bytes of {name}");
        assert_eq!(rt; ended, whole, "end of {name}");
    }
    // Before a selection there is nothing; after a failed read the rest is still there.
    let mut from = folder(alloc, &[2])?;
    let (none, _) = read_all(alloc, &mut from)?;
    assert_eq!(rt; none.len(), 0);
    assert!(rt; from.select("a").is_ok());
    assert!(rt; from.read(&mut [0u8; 4]).is_err());
    let (all, _) = read_all(alloc, &mut from)?;
    assert_eq!(rt; all.as_slice(), b"hello".as_slice());
    Ok(())
}

#[test]
fn a_sink_in_memory(rt: HostRuntime) -> Result<(), Fail> {
    let alloc = rt.alloc();
    // The room, the most of a write, the calls that fail, what two writes give, and what is kept.
    let table: [(usize, u32, &[u64], [Option<usize>; 2], &[u8]); 5] = [
        (10, 9, &[], [Some(3), Some(3)], b"abcabc"),
        (10, 2, &[], [Some(2), Some(2)], b"abab"),
        (4, 9, &[], [Some(3), Some(1)], b"abca"),
        (3, 9, &[], [Some(3), None], b"abc"),
        (10, 9, &[0], [None, Some(3)], b"abc"),
    ];
    for (room, most, failing, counts, bytes) in table {
        let mut to = MemSink::new(alloc, room, calls(alloc, failing)?)?.with_most(most);
        for count in counts {
            assert_eq!(rt; to.write(b"abc").ok(), count, "a write with room {room}");
        }
        assert_eq!(rt; to.bytes(), bytes, "bytes with room {room}");
    }
    let mut full = MemSink::new(alloc, 0, calls(alloc, &[])?)?;
    assert_eq!(rt; full.write(b"").ok(), Some(0));
    Ok(())
}

#[test]
fn the_real_outside(rt: HostRuntime) -> Result<(), Fail> {
    let mut endless = EndlessFolder::new(35);
    let mut buf = [0u8; 3];
    assert!(rt; endless.select("any").is_ok());
    assert_eq!(rt; endless.read(&mut buf).ok(), Some(3));
    assert_eq!(rt; buf, [35u8; 3]);

    let mut disk = DiskFolder::new(&rt);
    assert!(rt; disk.select("no/such/file").is_err());
    assert_eq!(rt; disk.read(&mut buf).ok(), Some(0));
    fs::write(&rt, "two_bytes.txt", b"ok".as_slice())?;
    assert!(rt; disk.select("two_bytes.txt").is_ok());
    let (bytes, ended) = read_all(rt.alloc(), &mut disk)?;
    assert_eq!(rt; bytes.as_slice(), b"ok".as_slice());
    assert!(rt; ended);
    // After a failed selection nothing of the file before is read.
    assert!(rt; disk.select("two_bytes.txt").is_ok());
    assert!(rt; disk.select("no/such/file").is_err());
    fs::remove_file(&rt, "two_bytes.txt")?;
    assert_eq!(rt; disk.read(&mut buf).ok(), Some(0));
    // A folder can be opened and not read.
    assert!(rt; disk.select(".").is_ok());
    assert!(rt; disk.read(&mut buf).is_err());
    assert_eq!(rt; StdSink::new(&rt).write(b"").ok(), Some(0));
    Ok(())
}
