//! Scripts that are read, refused and printed, and the jobs of some.
use super::*;
use run_script::{Job, ScriptFault, ScriptKind};
use sample_meshes::one_cell;
use std::alloc::Global;
use std::process::Abort;
use std::test::Fail;

// What reading a text gives: the kind and line of its fault, or `None`.
fn fault(rt: &impl Abort, alloc: Global, text: &[u8]) -> Option<ScriptFault> {
    assert!(rt; text.len() < 20_000_000);
    match read_script(alloc, text) {
        Ok(_) => None,
        Err(fault) => Some(fault),
    }
}

fn bad(kind: ScriptKind, line: u32) -> Option<ScriptFault> {
    Some(ScriptFault::Bad { kind, line })
}

const SPLITS: &str =
    "octopus script 1\nsplit 0 4 4 4\nsplit 2 2 6 3\nstay\nsession\nbox 4 4 4 4 4 4\nend\n";

const HELD: &str =
    "octopus script 2\nshift 1 0 0\nsession\nwait 1\nhold\nbox 0 0 0 1 0 0\nbox 17 0 0 17 0 0\nfree\nbox 1 16 0 1 16 0\nend\n";

const BAD_TEXTS: [(&str, ScriptKind, u32); 20] = [
    ("\n", ScriptKind::Header, 1),
    ("octopus script 1 1\n", ScriptKind::Header, 1),
    ("# octopus script 1\n", ScriptKind::Header, 1),
    (
        "octopus script 1\nshift 4.0 0 0\nend\n",
        ScriptKind::Number,
        2,
    ),
    ("octopus script 1\nadd 0 1 2 -1\n", ScriptKind::Range, 2),
    (
        "octopus script 1\nremove 4294967296\n",
        ScriptKind::Range,
        2,
    ),
    ("octopus script 1\nturn w\n", ScriptKind::Word, 2),
    ("octopus script 1\nshake 65536 1\n", ScriptKind::Range, 2),
    ("octopus script 1\nshake 65535 1001\n", ScriptKind::Range, 2),
    ("octopus script 1\npull 0 0 0 1 0\n", ScriptKind::Range, 2),
    (
        "octopus script 1\npull 0 0 0 1025 1\n",
        ScriptKind::Range,
        2,
    ),
    (
        "octopus script 1\npull 0 0 0 -1024 1025\n",
        ScriptKind::Range,
        2,
    ),
    ("octopus script 1\nsession\nstay\n", ScriptKind::Order, 3),
    (
        "octopus script 1\npoint 1 2 3\nsession\n",
        ScriptKind::Order,
        3,
    ),
    ("octopus script 1\nwait 1\n", ScriptKind::Order, 2),
    (
        "octopus script 1\nsession\nwait 10001\n",
        ScriptKind::Range,
        3,
    ),
    (
        "octopus script 1\nsession\nbox 0 0 0 0 0\n",
        ScriptKind::Word,
        3,
    ),
    ("octopus script 1\nend\nfly\n", ScriptKind::Word, 3),
    ("octopus script 1\nend\nend\n", ScriptKind::Order, 3),
    (
        "octopus script 1\nend\n # x\n \nstay\n",
        ScriptKind::Order,
        5,
    ),
];

#[test]
fn faults_of_texts(rt: HostRuntime) {
    let alloc = rt.alloc();
    for (text, kind, line) in BAD_TEXTS {
        let found = fault(&rt, alloc, text.as_bytes());
        assert_eq!(rt; found, bad(kind, line), "{text}");
    }
}

const BAD_HOLDS: [(&str, ScriptKind, u32); 10] = [
    (
        "octopus script 2\nsession\nfree\nend\n",
        ScriptKind::Order,
        3,
    ),
    (
        "octopus script 2\nsession\nhold\nend\n",
        ScriptKind::Order,
        4,
    ),
    (
        "octopus script 2\nsession\nhold\nfree\nend\n",
        ScriptKind::Order,
        4,
    ),
    (
        "octopus script 2\nsession\nhold\nwait 0\nend\n",
        ScriptKind::Order,
        4,
    ),
    (
        "octopus script 2\nsession\nhold\nbox 0 0 0 0 0 0\nhold\n",
        ScriptKind::Order,
        5,
    ),
    (
        "octopus script 2\nsession\nhold\nbox 0 0 0 0 0 0\nsession\n",
        ScriptKind::Order,
        5,
    ),
    (
        "octopus script 2\nsession\nhold\nbox 0 0 0 0 0 0\nend\n",
        ScriptKind::Order,
        5,
    ),
    ("octopus script 2\nfree\n", ScriptKind::Order, 2),
    ("octopus script 2\nsession\nhold 1\n", ScriptKind::Word, 3),
    (
        "octopus script 1\nsession\nhold\nend\n",
        ScriptKind::Word,
        3,
    ),
];

#[test]
fn faults_of_holds(rt: HostRuntime) {
    let alloc = rt.alloc();
    for (text, kind, line) in BAD_HOLDS {
        let found = fault(&rt, alloc, text.as_bytes());
        assert_eq!(rt; found, bad(kind, line), "{text}");
    }
}

#[test]
fn texts_that_are_read(rt: HostRuntime) {
    let alloc = rt.alloc();
    let texts: [&str; 5] = [
        "octopus script 1\nend",
        "octopus\tscript  2 \r\n# a comment\r\n\r\n \t\r\nend\r\n",
        "octopus script 1\nshift +4 -0 007\nend\n#\n",
        SPLITS,
        HELD,
    ];
    for text in texts {
        assert_eq!(rt; fault(&rt, alloc, text.as_bytes()), None, "{text}");
    }
}

// Checks the faults of all prefixes. Each row is for the lengths from that of the row before on to its own, and no
// prefix that is longer has a fault.
fn check_prefixes(rt: &impl Abort, alloc: Global, text: &str, table: &[(usize, ScriptKind, u32)]) {
    let text = text.as_bytes();
    for len in 0..text.len() + 1 {
        let found = fault(rt, alloc, &text[..len]);
        match table.iter().find(|row| len <= row.0) {
            Some((_, kind, line)) => assert_eq!(rt; found, bad(*kind, *line), "{len} bytes"),
            None => assert_eq!(rt; found, None, "{len} bytes"),
        }
    }
}

const SPLIT_FAULTS: [(usize, ScriptKind, u32); 14] = [
    (0, ScriptKind::Truncated, 0),
    (15, ScriptKind::Header, 1),
    (17, ScriptKind::Truncated, 1),
    (29, ScriptKind::Word, 2),
    (31, ScriptKind::Truncated, 2),
    (43, ScriptKind::Word, 3),
    (45, ScriptKind::Truncated, 3),
    (48, ScriptKind::Word, 4),
    (50, ScriptKind::Truncated, 4),
    (56, ScriptKind::Word, 5),
    (58, ScriptKind::Truncated, 5),
    (72, ScriptKind::Word, 6),
    (74, ScriptKind::Truncated, 6),
    (76, ScriptKind::Word, 7),
];

const HELD_FAULTS: [(usize, ScriptKind, u32); 20] = [
    (0, ScriptKind::Truncated, 0),
    (15, ScriptKind::Header, 1),
    (17, ScriptKind::Truncated, 1),
    (27, ScriptKind::Word, 2),
    (29, ScriptKind::Truncated, 2),
    (35, ScriptKind::Word, 3),
    (37, ScriptKind::Truncated, 3),
    (42, ScriptKind::Word, 4),
    (44, ScriptKind::Truncated, 4),
    (47, ScriptKind::Word, 5),
    (49, ScriptKind::Truncated, 5),
    (63, ScriptKind::Word, 6),
    (65, ScriptKind::Truncated, 6),
    (81, ScriptKind::Word, 7),
    (83, ScriptKind::Truncated, 7),
    (86, ScriptKind::Word, 8),
    (88, ScriptKind::Truncated, 8),
    (104, ScriptKind::Word, 9),
    (106, ScriptKind::Truncated, 9),
    (108, ScriptKind::Word, 10),
];

#[test]
fn prefixes_of_scripts(rt: HostRuntime) {
    let alloc = rt.alloc();
    check_prefixes(&rt, alloc, SPLITS, &SPLIT_FAULTS);
    check_prefixes(&rt, alloc, HELD, &HELD_FAULTS);
}

#[test]
fn limits_of_scripts(rt: HostRuntime) -> Result<(), Fail> {
    let alloc = rt.alloc();
    let table: [(&[u8], &[u8], u32, u32); 4] = [
        (b"octopus script 1\n", b"stay\n", 1, 10_000),
        (b"octopus script 1\n", b"remove 0\n", 1, 1_000_000),
        (b"octopus script 1\n", b"session\n", 1, 8),
        (
            b"octopus script 1\nsession\n",
            b"box 0 0 0 0 0 0\n",
            2,
            100_000,
        ),
    ];
    for (head, line, before, most) in table {
        let mut text = Vec::new(alloc);
        text.extend_from_slice(head)?;
        for _ in 0..most {
            text.extend_from_slice(line)?;
        }
        let whole = fault(&rt, alloc, &text);
        assert_eq!(rt; whole, bad(ScriptKind::Truncated, before + most));
        text.extend_from_slice(line)?;
        let more = fault(&rt, alloc, &text);
        assert_eq!(rt; more, bad(ScriptKind::Limit, before + most + 1));
    }
    Ok(())
}

// The text that is printed of the script that a text is.
fn printed(
    rt: &impl Abort,
    alloc: Global,
    text: &[u8],
    upgrade: bool,
) -> Result<Vec<u8>, ScriptFault> {
    assert!(rt; text.len() < 1000);
    let mut script = read_script(alloc, text)?;
    if upgrade {
        script = script.upgraded();
    }
    let mut out = Vec::new(alloc);
    print_script(alloc, &script, &mut out)?;
    Ok(out)
}

#[test]
fn scripts_are_printed(rt: HostRuntime) -> Result<(), Fail> {
    let alloc = rt.alloc();
    let kernels =
        "octopus script 1\npoint -1 2 3\nadd 0 1 2 3\nremove 7\npull 10 0 0 -1 3\nshake 7 3\nrelax\nturn x\nturn y\nturn z\nshift 1 0 -4\nsession\nwait 10000\nsession\nend\n";
    let texts: [&str; 3] = [SPLITS, HELD, kernels];
    for text in texts {
        let out = printed(&rt, alloc, text.as_bytes(), false)?;
        assert_eq!(rt; out.as_slice(), text.as_bytes());
    }
    let messy = b"octopus  script 1\r\n# nothing\n\tstay \n session\nbox +0 0 0 -0 007 0\nend";
    let out = printed(&rt, alloc, messy.as_slice(), true)?;
    assert_eq!(rt;
        out.as_slice(),
        b"octopus script 2\nstay\nsession\nbox 0 0 0 0 7 0\nend\n".as_slice()
    );
    Ok(())
}

fn job(rt: &impl Abort, alloc: Global, text: &[u8]) -> Result<Job, ScriptFault> {
    assert!(rt; text.len() < 1000);
    let script = read_script(alloc, text)?;
    let mesh = one_cell(alloc)?;
    Job::check(alloc, mesh, script)
}

const BAD_JOBS: [(&str, ScriptKind, u32); 14] = [
    (
        "octopus script 1\nsession\nwait 1\nbox 0 0 0 1 1 1\nend\n",
        ScriptKind::NoStep,
        3,
    ),
    ("octopus script 1\nshift 1 0\nend\n", ScriptKind::Word, 2),
    (
        "octopus script 1\nshift a 0 0\nend\n",
        ScriptKind::Number,
        2,
    ),
    (
        "octopus script 1\nshift 1073741825 0 0\nend\n",
        ScriptKind::Range,
        2,
    ),
    (
        "octopus script 1\nsession\nbox 4 0 0 0 0 0\nend\n",
        ScriptKind::Box,
        3,
    ),
    ("octopus script 1\npoint 1 1 1\nend\n", ScriptKind::Order, 3),
    ("octopus script 1\nstay\n", ScriptKind::Truncated, 2),
    (
        "octopus script 1\nadd 0 1 2 9\nstay\nend\n",
        ScriptKind::NoPoint,
        2,
    ),
    (
        "octopus script 1\nadd 0 1 2 2\nstay\nend\n",
        ScriptKind::SameVertex,
        2,
    ),
    (
        "octopus script 1\nremove 0\nremove 0\nstay\nend\n",
        ScriptKind::NoCell,
        3,
    ),
    ("octopus script 9\nend\n", ScriptKind::Header, 1),
    (
        "octopus script 1\nadd 9 9 2 2\nstay\nend\n",
        ScriptKind::NoPoint,
        2,
    ),
    (
        "octopus script 1\nsplit 1 0 0 0\nstay\nend\n",
        ScriptKind::NoCell,
        2,
    ),
    (
        "octopus script 1\nremove 1\nstay\nsession\nwait 9\nend\n",
        ScriptKind::NoCell,
        2,
    ),
];

#[test]
fn faults_of_jobs(rt: HostRuntime) {
    let alloc = rt.alloc();
    for (text, kind, line) in BAD_JOBS {
        match job(&rt, alloc, text.as_bytes()) {
            Ok(_) => panic!(rt; "{text}"),
            Err(found) => assert_eq!(rt; found, ScriptFault::Bad { kind, line }, "{text}"),
        }
    }
}

#[test]
fn turns_of_a_job(rt: HostRuntime) -> Result<(), Fail> {
    let alloc = rt.alloc();
    let job = job(&rt, alloc, HELD.as_bytes())?;
    assert_eq!(rt; job.steps(), 1);
    assert_eq!(rt; job.sessions(), 1);
    assert_eq!(rt; job.turn_count(), 2);
    assert_eq!(rt; job.box_count(), 3);
    assert_eq!(rt; job.mesh().points().len(), 4);
    assert_eq!(rt; job.plan(0).edits.items().len(), 0);
    let turns = job.turns(0);
    assert_eq!(rt; turns.len(), 2);
    assert_eq!(rt; turns[0].need, 1);
    assert_eq!(rt; turns[0].areas.items().len(), 2);
    assert_eq!(rt; turns[1].areas.items().len(), 1);
    Ok(())
}

#[test]
fn edits_of_a_plan_go_on(rt: HostRuntime) {
    let alloc = rt.alloc();
    let texts: [&str; 2] = [
        SPLITS,
        "octopus script 1\npoint 1 1 1\nadd 0 1 2 4\nremove 1\nstay\nadd 4 3 2 1\nrelax\nend\n",
    ];
    for text in texts {
        assert!(rt; job(&rt, alloc, text.as_bytes()).is_ok(), "{text}");
    }
}
