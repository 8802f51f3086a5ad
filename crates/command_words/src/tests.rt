use crate::{Command, Hops, Played, read_command, read_played};
use cell_box::How;
use mesh_base::{BoxQ, NoMemory, Point};
use sample_meshes::Side;
use std::alloc::Global;
use std::process::Abort;
use std::test::Fail;

// The words of a line.
fn words(alloc: Global, line: &str) -> Result<Vec<String>, NoMemory> {
    let mut words = Vec::new(alloc);
    for word in line.split_whitespace() {
        words.push(word.to_string(alloc)?)?;
    }
    Ok(words)
}

// The words, and whether they are a command, and something to play.
const FORMS: [(&str, bool, bool); 24] = [
    ("", false, false),
    ("scan", false, false),
    ("scan m 0 0 0 4 0", false, false),
    ("scan m 4 0 0 0 0 0", false, false),
    ("scan m 0 0 0 4 0 1073741824", true, false),
    ("scan m 0 0 0 4 0 1073741825", false, false),
    ("Scan m 0 0 0 4 0 0", false, false),
    ("box m -1 0 0 +4 0 007", true, false),
    ("cells m 0 0 0 4 0 0 any", false, false),
    ("rings m 0 0 0 4 0 0 1001", false, false),
    ("rings m 0 0 0 4 0 0 +1", false, false),
    ("surface m", true, false),
    ("surface m m", false, false),
    ("gen 0", false, false),
    ("gen 87", true, false),
    ("gen 88", false, false),
    ("step m s 10000", true, false),
    ("step m s 10001", false, false),
    ("upgrade s", true, false),
    ("run m s", false, true),
    ("watch m", false, false),
    ("demo 40 65535", false, true),
    ("demo 41 0", false, false),
    ("demo 1 65536", false, false),
];

#[test]
fn forms_of_words(rt: HostRuntime) -> Result<(), Fail> {
    for (line, command, played) in FORMS {
        let words = words(rt.alloc(), line)?;
        assert_eq!(rt; read_command(&words).is_some(), command, "`{line}`");
        assert_eq!(rt; read_played(&words).is_some(), played, "`{line}`");
    }
    Ok(())
}

// The box from -1 2 3 to 4 5 6.
fn sample_box(rt: &impl Abort) -> BoxQ {
    let lo = Point::new(-1, 2, 3).expect(rt, "in range");
    let hi = Point::new(4, 5, 6).expect(rt, "in range");
    BoxQ::new(lo, hi).expect(rt, "a box")
}

#[test]
fn commands_on_a_box(rt: HostRuntime) -> Result<(), Fail> {
    let alloc = rt.alloc();
    let area = sample_box(&rt);
    let mesh = "m";
    let most = Hops::new(7);
    let how = How::Touching;
    let scan = words(alloc, "scan m -1 2 3 4 5 6")?;
    assert!(rt; read_command(&scan) == Some(Command::Scan { mesh, area }));
    let found = words(alloc, "box m -1 2 3 4 5 6")?;
    assert!(rt; read_command(&found) == Some(Command::Box { mesh, area }));
    let cells = words(alloc, "cells m -1 2 3 4 5 6 some")?;
    assert!(rt; read_command(&cells) == Some(Command::Cells { mesh, area, how }));
    let rings = words(alloc, "rings m -1 2 3 4 5 6 7")?;
    assert!(rt; read_command(&rings) == Some(Command::Rings { mesh, area, most }));
    Ok(())
}

#[test]
fn other_commands(rt: HostRuntime) -> Result<(), Fail> {
    let alloc = rt.alloc();
    let side = Side::new(40).expect(&rt, "a side");
    let (mesh, script, step) = ("m", "s", 12);
    let surface = words(alloc, "surface m")?;
    assert!(rt; read_command(&surface) == Some(Command::Surface { mesh }));
    let block = words(alloc, "gen 40")?;
    assert!(rt; read_command(&block) == Some(Command::Gen { side }));
    let made = words(alloc, "step m s 12")?;
    assert!(rt; read_command(&made) == Some(Command::Step { mesh, script, step }));
    let upgrade = words(alloc, "upgrade s")?;
    assert!(rt; read_command(&upgrade) == Some(Command::Upgrade { script }));
    Ok(())
}

#[test]
fn what_is_played(rt: HostRuntime) -> Result<(), Fail> {
    let alloc = rt.alloc();
    let side = Side::new(40).expect(&rt, "a side");
    let (mesh, script, seed) = ("m", "s", 12);
    let run = words(alloc, "run m s")?;
    assert!(rt; read_played(&run) == Some(Played::Run { mesh, script }));
    let demo = words(alloc, "demo 40 12")?;
    assert!(rt; read_played(&demo) == Some(Played::Demo { side, seed }));
    let watch = words(alloc, "watch m s")?;
    assert!(rt; read_played(&watch) == Some(Played::Watch { mesh, script }));
    Ok(())
}
