use super::*;
use crate::texts::{
    FAULTS_AHEAD, REALISTIC, SAME_MESHES, agree, changed, consists_of, faulty_token, has_fault,
    has_mesh, same_for_cuts, spelled, with_cells,
};
use std::test::*;

type Fault<'a> = (usize, usize, &'a [u8], MeshKind, u64);

const ONE_CHANGE: [Fault; 32] = [
    (0, 1, b"# VTK DataFile Version 3.0\n", MeshKind::Magic, 0),
    (0, 1, b"# vtk DataFile Version 6.0\n", MeshKind::Version, 23),
    (
        0,
        1,
        b"# vtk DataFile Version 5.10\n",
        MeshKind::Version,
        23,
    ),
    (
        0,
        1,
        b"# vtk DataFile Version 4.2345\n",
        MeshKind::Version,
        23,
    ),
    (2, 3, b"BINARY\n", MeshKind::Binary, 31),
    (2, 3, b"text\n", MeshKind::Format, 31),
    (3, 4, b"DATASET POLYDATA\n", MeshKind::DataSet, 45),
    (4, 5, b"POINTS 1000000 int\n", MeshKind::Number, 106),
    (4, 5, b"POINTS 1000001 int\n", MeshKind::Count, 70),
    (4, 4, b"FIELD f 4294967295\n", MeshKind::Number, 91),
    (
        4,
        4,
        b"FIELD f 1\na 4294967295 4294967295 int\n",
        MeshKind::Truncated,
        174,
    ),
    (6, 7, b"4 0.5 0\n", MeshKind::NotWhole, 84),
    (6, 7, b"4 1e-999 0\n", MeshKind::NotWhole, 84),
    (
        6,
        7,
        b"4 99999999999999999999.5 0\n",
        MeshKind::NotWhole,
        84,
    ),
    (6, 7, b"4 1073741825 0\n", MeshKind::Range, 84),
    (
        6,
        7,
        b"4 1e99999999999999999999999999999999999999 0\n",
        MeshKind::Range,
        84,
    ),
    (6, 7, b"4 nan 0\n", MeshKind::Number, 84),
    (9, 10, b"CELLS 1 6\n", MeshKind::Size, 108),
    (9, 10, b"CELLS 1 4\n", MeshKind::Size, 110),
    (9, 10, b"CELLS 0 1\n", MeshKind::Size, 108),
    (9, 10, b"CELLS 1 4294967295\n", MeshKind::Size, 108),
    (9, 10, b"CELLS 4000000 4\n", MeshKind::Size, 116),
    (9, 10, b"CELLS 4000000 5\n", MeshKind::Number, 126),
    (10, 11, b"4294967295 0 1 2 3\n", MeshKind::Size, 110),
    (10, 11, b"4294967296 0 1 2 3\n", MeshKind::Count, 110),
    (10, 11, b"4 0 1 2 4\n", MeshKind::Index, 118),
    (
        10,
        11,
        b"4 0 1 2 9999999999999999999999999999999999999999\n",
        MeshKind::Index,
        118,
    ),
    (10, 11, b"4 0 1 2 2\n", MeshKind::SameVertex, 133),
    (11, 12, b"CELL_TYPES 2\n", MeshKind::Count, 131),
    (12, 13, b"12\n", MeshKind::CellType, 133),
    (12, 13, b"5\n", MeshKind::CellSize, 133),
    (13, 13, b"SCALARS\n", MeshKind::Keyword, 136),
];

#[test]
fn one_change(rt: HostRuntime) -> Result<(), Fail> {
    let alloc = rt.alloc();
    for (from, to, lines, kind, place) in ONE_CHANGE {
        let text = changed(alloc, from, to, lines)?;
        assert!(rt;
            has_fault(alloc, &text, kind, place),
            "lines {from} to {to}, at {place}"
        );
    }
    Ok(())
}

#[test]
fn other_spellings(rt: HostRuntime) -> Result<(), Fail> {
    let alloc = rt.alloc();
    let one = read_mesh(alloc, &changed(alloc, 0, 0, b"")?);
    let changes: [(usize, usize, &[u8]); 8] = [
        (0, 1, b"# vtk DataFile Version 004.000 \t\r\n"),
        (4, 7, b"POINTS 4 float\n0.0 -0 0e5\n4e0 +0 0.\n"),
        (
            6,
            7,
            b"4 0e99999999999999999999999999999999999999 -000000000000000000000000000000000000000\n",
        ),
        (
            9,
            13,
            b"CELLS 3 11\n0\n4 0 1 2 3\n4 0 1 2 2 CELL_TYPES 3 7 10 9",
        ),
        (13, 13, b"METADATA"),
        (
            13,
            13,
            b"METADATA\nINFORMATION 0\nSCALARS\n \x0b\r\ncell_data 1",
        ),
        (13, 13, b"FIELD FIELD 2 a 1 0 vtk b 2 1 VTKx METADATA CELLS"),
        (
            2,
            5,
            b"ascii\tDataSet\x0bunstructured_grid\x0cpoints 4 unsigned_char ",
        ),
    ];
    for (from, to, lines) in changes {
        let text = changed(alloc, from, to, lines)?;
        assert!(rt;
            agree(&one, &read_mesh(alloc, &text)),
            "lines {from} to {to}"
        );
        assert!(rt; same_for_cuts(alloc, &text), "lines {from} to {to}");
    }
    let points = [(0, 0, 0), (4, 0, 0), (0, 4, 0), (0, 0, 4)];
    assert!(rt; consists_of(&one, &points, &[[0, 1, 2, 3]]));
    Ok(())
}

#[test]
fn prefixes(rt: HostRuntime) -> Result<(), Fail> {
    let alloc = rt.alloc();
    let text = changed(alloc, 0, 0, b"")?;
    assert_eq!(rt; text.len(), 136);
    for end in 0..text.len() {
        assert_eq!(rt;
            read_mesh(alloc, &text[..end]).is_ok(),
            end == 135,
            "at {end}"
        );
    }
    let faults = [
        (0, MeshKind::Truncated, 0),
        (26, MeshKind::Truncated, 26),
        (34, MeshKind::Format, 31),
        (71, MeshKind::Truncated, 71),
        (104, MeshKind::Keyword, 100),
        (105, MeshKind::Truncated, 105),
        (119, MeshKind::Truncated, 119),
        (125, MeshKind::Keyword, 120),
        (133, MeshKind::Truncated, 133),
        (134, MeshKind::CellSize, 133),
    ];
    for (end, kind, place) in faults {
        assert!(rt; has_fault(alloc, &text[..end], kind, place), "at {end}");
    }
    Ok(())
}

#[test]
fn long_lines(rt: HostRuntime) -> Result<(), Fail> {
    let alloc = rt.alloc();
    let long = vec![in alloc; b'x'; 258]?;
    assert!(rt; has_fault(alloc, &long[..1], MeshKind::Truncated, 1));
    assert!(rt; has_fault(alloc, &long[..257], MeshKind::Truncated, 257));
    assert!(rt; has_fault(alloc, &long, MeshKind::Magic, 0));
    let mut title = long[..256].to_vec(alloc)?;
    title.extend_from_slice(b"\r\n")?;
    assert!(rt; has_mesh(alloc, &changed(alloc, 1, 2, &title)?, 4, 1));
    let mut title = long[..257].to_vec(alloc)?;
    title.extend_from_slice(b"\n")?;
    assert!(rt; has_fault(alloc, &changed(alloc, 1, 2, &title)?, MeshKind::Title, 27));
    Ok(())
}

#[test]
fn realistic(rt: HostRuntime) -> Result<(), Fail> {
    let alloc = rt.alloc();
    let mut text = Vec::new(alloc);
    let mut types_end = 0;
    let mut attributes = 0;
    for (i, line) in REALISTIC.iter().enumerate() {
        text.extend_from_slice(line)?;
        if i == 19 {
            types_end = text.len();
        }
        if i == 20 {
            attributes = text.len() - 2;
        }
        text.extend_from_slice(b"\r\n")?;
    }
    let mesh = read_mesh(alloc, &text);
    let points = [(0, 0, 0), (10, 0, 0), (0, 10, 0), (0, 0, 10), (10, 10, 10)];
    assert!(rt; consists_of(&mesh, &points, &[[0, 1, 2, 3], [1, 2, 3, 4]]));
    assert!(rt; same_for_cuts(alloc, &text));
    for end in 0..text.len() {
        let accepted = end >= attributes || end >= types_end && end <= types_end + 2;
        assert_eq!(rt;
            read_mesh(alloc, &text[..end]).is_ok(),
            accepted,
            "at {end}"
        );
    }
    Ok(())
}

const BAD_OFFSETS: [(&[u8], &[u8], MeshKind, u64); 15] = [
    (
        b"5.1",
        b"CELLS 2 4\nOFFSETS vtktypeint64\n0 3\n",
        MeshKind::Size,
        133,
    ),
    (
        b"5.1",
        b"CELLS 2 4\nOFFSETS vtktypeint64\n1 4\n",
        MeshKind::Size,
        131,
    ),
    (
        b"5.1",
        b"CELLS 4 4\nOFFSETS vtktypeint64\n0 3 2 4\n",
        MeshKind::Size,
        135,
    ),
    (
        b"5.1",
        b"CELLS 3 4\nOFFSETS vtktypeint64\n0 5 4\n",
        MeshKind::Size,
        133,
    ),
    (
        b"5.1",
        b"CELLS 1 4\nOFFSETS vtktypeint64\n0\n",
        MeshKind::Size,
        131,
    ),
    (
        b"5.1",
        b"CELLS 2 4\nOFFSETS vtktypeint64\n0 4294967296\n",
        MeshKind::Count,
        133,
    ),
    (b"5.1", b"CELLS 4000002 4\n", MeshKind::Count, 106),
    (b"5.1", b"CELLS 0 1\n", MeshKind::Size, 108),
    (
        b"5.1",
        b"CELLS 0 0\nMETADATA\n\nOFFSETS int\n",
        MeshKind::Keyword,
        120,
    ),
    (
        b"5.1",
        b"CELLS 2 4\nOFSETS vtktypeint64\n",
        MeshKind::Keyword,
        110,
    ),
    (b"5.1", b"CELLS 1 5\n4 0 1 2 3\n", MeshKind::Keyword, 110),
    (
        b"5.0",
        b"CELLS 2 4\nOFFSETS vtktypeint64\n",
        MeshKind::Version,
        23,
    ),
    (
        b"3.0",
        b"CELLS 2 4\nOFFSETS vtktypeint64\n",
        MeshKind::Number,
        110,
    ),
    (
        b"5.1",
        b"CELLS 2 4\nOFFSETS vtktypeint64\n0 4\nCONNECTIVITY vtktypeint64\n0 1 2 4\n",
        MeshKind::Index,
        167,
    ),
    (
        b"5.1",
        b"CELLS 2 4\nOFFSETS vtktypeint64\n0 4\nCONNECTIVITY vtktypeint64\n0 1 2 2\nCELL_TYPES 1\n10\n",
        MeshKind::SameVertex,
        182,
    ),
];

const GOOD_OFFSETS: [(&[u8], &[u8], usize); 6] = [
    (
        b"5.1",
        b"CELLS 2 4\nOFFSETS vtktypeint64\n0 4\nCONNECTIVITY vtktypeint64\n0 1 2 3\nCELL_TYPES 1\n10\n",
        1,
    ),
    (
        b"005.001",
        b"CELLS 2 4\nOFFSETS int\n0 4\nMETADATA\n\nCONNECTIVITY int\n0 1 2 3\nCELL_TYPES 1\n10\n",
        1,
    ),
    (
        b"5.1",
        b"CELLS 7 12\nOFFSETS int\n0 0 4 4 4 8 12\nCONNECTIVITY int\n0 1 2 3 3 2 1 0 1 0 2 3\nCELL_TYPES 6\n7 10 2 4 10 9\n",
        2,
    ),
    (b"5.1", b"CELLS 0 0\nCELL_TYPES 0\n", 0),
    (
        b"5.1",
        b"CELLS 0 0\noffsets int\nCONNECTIVITY int\nCELL_TYPES 0\n",
        0,
    ),
    (
        b"5.1",
        b"CELLS 1 0\nOFFSETS vtktypeint64\n0\nCONNECTIVITY vtktypeint64\nCELL_TYPES 0\n",
        0,
    ),
];

#[test]
fn offsets(rt: HostRuntime) -> Result<(), Fail> {
    let alloc = rt.alloc();
    for (version, cells, kind, place) in BAD_OFFSETS {
        let text = with_cells(alloc, version, cells)?;
        assert!(rt; has_fault(alloc, &text, kind, place), "at {place}");
    }
    for (version, cells, count) in GOOD_OFFSETS {
        let text = with_cells(alloc, version, cells)?;
        assert!(rt; has_mesh(alloc, &text, 4, count), "with {count} cells");
    }
    Ok(())
}

#[test]
fn plain_and_other_spellings_at_each_cut(rt: HostRuntime) -> Result<(), Fail> {
    let alloc = rt.alloc();
    let points = [
        (0, 0, 0),
        (4, 0, 0),
        (0, 4, 0),
        (0, 0, 4),
        (4, 4, 4),
        (1000000, -7, 1073741824),
    ];
    let cells = [[0, 1, 2, 3], [1, 2, 3, 4], [5, 0, 2, 1], [3, 4, 5, 0]];
    for (version, parts) in SAME_MESHES.iter() {
        let text = spelled(alloc, version, *parts, b"")?;
        let mesh = read_mesh(alloc, &text);
        assert!(rt; consists_of(&mesh, &points, &cells), "{text:?}");
        assert!(rt; same_for_cuts(alloc, &text), "{text:?}");
    }
    for (version, parts, token, kind) in FAULTS_AHEAD.iter() {
        let faulty = faulty_token(alloc, version, *parts, token, *kind)?;
        assert!(rt; faulty, "{parts:?} {token:?}");
    }
    Ok(())
}

// A caller that prints a fault says the place and what is wrong there.
#[test]
fn a_fault_is_told_in_words(rt: HostRuntime) -> Result<(), Fail> {
    let alloc = rt.alloc();
    let fault = MeshFault::Bad {
        kind: MeshKind::NotWhole,
        place: 120,
    };
    let told = format!(in alloc; "{fault}")?;
    assert_eq!(rt; told.as_str(), "byte 120: a coordinate that isn't whole");
    let told = format!(in alloc; "{}", MeshFault::NoMemory)?;
    assert_eq!(rt; told.as_str(), "out of memory");
    Ok(())
}
