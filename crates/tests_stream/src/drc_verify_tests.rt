//! What no contract can say: that the check succeeds, and that the definitions are the ones meant, on
//! maps, texts and streams worked by hand.

use crate::profile_three;
use drc_base::{Fault, Kind, PROFILE_THREE, PROFILE_TWO, Profile, Refusal, Sequence};
use drc_verify::{Verdict, verify, verify_read};
use mesh_model::{MapRead, Renumber};
use ply_mesh::read_ply;
use std::alloc::{AllocError, Global};
use std::process::Abort;
use worked_surfaces::TETRAHEDRON_ROWS;
use worked_surfaces::streams::{APART, CLOUD, TETRAHEDRON};

/// A tetrahedron.
const SOLID: &str = "ply
format ascii 1.0
comment drc attr 0 0 5 3 0 0
element vertex 4
property int x
property int y
property int z
element face 4
property list uchar int vertex_indices
end_header
0 0 0
1 0 0
0 1 0
0 0 1
3 0 2 1
3 0 1 3
3 1 2 3
3 0 3 2
";

/// The same with a normalized flag.
const FLAGGED: &str = "ply
format ascii 1.0
comment drc attr 0 0 5 3 1 0
element vertex 4
property int x
property int y
property int z
element face 4
property list uchar int vertex_indices
end_header
0 0 0
1 0 0
0 1 0
0 0 1
3 0 2 1
3 0 1 3
3 1 2 3
3 0 3 2
";

/// A square of two triangles.
const SQUARE: &str = "ply
format ascii 1.0
comment drc attr 0 0 5 3 0 0
element vertex 4
property int x
property int y
property int z
element face 2
property list uchar int vertex_indices
end_header
0 0 0
2 0 0
0 2 0
2 2 0
3 0 1 2
3 1 3 2
";

/// A square with a face of two equal corners.
const FLAT: &str = "ply
format ascii 1.0
comment drc attr 0 0 5 3 0 0
element vertex 4
property int x
property int y
property int z
element face 2
property list uchar int vertex_indices
end_header
0 0 0
2 0 0
0 2 0
2 2 0
3 0 1 2
3 1 1 2
";

/// A square of normals.
const NORMALS: &str = "ply
format ascii 1.0
comment drc attr 0 1 5 3 0 0
element vertex 4
property int x
property int y
property int z
element face 2
property list uchar int vertex_indices
end_header
0 0 0
2 0 0
0 2 0
2 2 0
3 0 1 2
3 1 3 2
";

/// One triangle twice.
const TWICE: &str = "ply
format ascii 1.0
comment drc attr 0 0 5 3 0 0
element vertex 3
property int x
property int y
property int z
element face 2
property list uchar int vertex_indices
end_header
0 0 0
10 0 0
0 10 -1
3 0 1 2
3 0 1 2
";

/// It as a sequential stream.
const TWICE_STREAM: [u8; 67] = [
    68, 82, 65, 67, 79, 2, 2, 1, 0, 0, 0, 2, 3, 1, 0, 1, 2, 0, 1, 2, 1, 1, 0, 5, 3, 0, 0, 1, 254,
    0, 4, 0, 0, 0, 0, 0, 0, 0, 0, 0, 0, 0, 0, 20, 0, 0, 0, 0, 0, 0, 0, 0, 0, 0, 0, 0, 0, 0, 0, 20,
    0, 0, 0, 1, 0, 0, 0,
];

/// A cloud.
const POINTS: &str = "ply
format ascii 1.0
comment drc attr 0 0 5 3 0 0
element vertex 3
property int x
property int y
property int z
end_header
5 5 5
5 5 5
5 5 6
";

/// What was read of a map of these rows.
fn map_of(alloc: Global, cloud: bool, rows: &[(u32, u8)]) -> Result<MapRead, AllocError> {
    Ok(MapRead {
        cloud,
        rows: Renumber {
            rows: Sequence::from_vec(rows.to_vec(alloc)?),
        },
        end: 0,
    })
}

/// What the check of these answers.
fn check(
    alloc: Global,
    cloud: bool,
    rows: &[(u32, u8)],
    text: &str,
    stream: &[u8],
    surface: bool,
) -> Result<Verdict, Refusal> {
    let map = map_of(alloc, cloud, rows)?;
    verify(alloc, &map, text.as_bytes(), stream, surface, PROFILE_TWO)
}

/// A cloud of octahedral normals of four bits.
const OCTAHEDRAL: &str = "ply
format ascii 1.0
comment drc attr 0 1 9 2 0 0
comment drc octa 0 4
element vertex 3
property int a0_0
property int a0_1
end_header
7 7
14 7
4 0
";

/// The same, but for the bits.
const WIDER: &str = "ply
format ascii 1.0
comment drc attr 0 1 9 2 0 0
comment drc octa 0 5
element vertex 3
property int a0_0
property int a0_1
end_header
7 7
14 7
4 0
";

/// The same, but for one value.
const TURNED: &str = "ply
format ascii 1.0
comment drc attr 0 1 9 2 0 0
comment drc octa 0 4
element vertex 3
property int a0_0
property int a0_1
end_header
7 7
14 8
4 0
";

/// Texts, and what the check of them against the cloud of normals answers.
static COMPARED_NORMALS: [(&str, Verdict); 4] = [
    (OCTAHEDRAL, Verdict::Same),
    (WIDER, Verdict::Heads),
    (TURNED, Verdict::Row(1)),
    (POINTS, Verdict::Heads),
];

/// What the check of a text against the cloud of normals answers in a profile.
fn check_normals(alloc: Global, text: &str, profile: Profile) -> Result<Verdict, Refusal> {
    let map = map_of(alloc, true, &[(0, 0), (1, 0), (2, 0)])?;
    verify(
        alloc,
        &map,
        text.as_bytes(),
        &profile_three::NORMALS,
        false,
        profile,
    )
}

#[test]
fn judges_octahedral_attributes(rt: HostRuntime) {
    let alloc = rt.alloc();
    for (text, due) in COMPARED_NORMALS.iter() {
        is_judged(&rt, check_normals(alloc, text, PROFILE_THREE), *due);
    }
    let given = check_normals(alloc, POINTS, PROFILE_TWO);
    is_refused(&rt, given, Kind::Octahedral, 22);
}

/// A check gave this verdict.
fn is_judged(rt: &impl Abort, given: Result<Verdict, Refusal>, due: Verdict) {
    assert_eq!(rt; given.ok(), Some(due));
}

/// Rows of the tetrahedron, and what the check of them answers.
static ROWS_OF_A_MESH: [(&[(u32, u8)], Verdict); 8] = [
    (&TETRAHEDRON_ROWS, Verdict::Same),
    (&[(3, 0), (2, 0), (1, 2), (0, 1)], Verdict::Row(1)),
    (&[(3, 0), (2, 1), (1, 2), (0, 0)], Verdict::Row(3)),
    (&[(3, 3), (2, 1), (1, 2), (0, 1)], Verdict::Row(0)),
    (&[(3, 0), (2, 1), (4, 0), (0, 1)], Verdict::Row(2)),
    (&[(3, 0), (2, 1), (3, 0), (0, 0)], Verdict::Row(2)),
    (&[(3, 3), (2, 1), (1, 2)], Verdict::Rows(3)),
    (&[], Verdict::Rows(0)),
];

#[test]
fn judges_the_rows_of_a_mesh(rt: HostRuntime) {
    let alloc = rt.alloc();
    for (rows, due) in ROWS_OF_A_MESH.iter() {
        for surface in [false, true] {
            let verdict = check(alloc, false, rows, SOLID, &TETRAHEDRON, surface);
            is_judged(&rt, verdict, *due);
        }
    }
}

/// The plain rows of two faces.
const PLAIN: &[(u32, u8)] = &[(0, 0), (1, 0)];

/// Whether the rows are of a cloud, the rows, a text and a stream, and what the check of them answers.
static COMPARED: [(bool, &[(u32, u8)], &str, &[u8], Verdict); 8] = [
    (
        false,
        &[(1, 0), (0, 0)],
        TWICE,
        &TWICE_STREAM,
        Verdict::Same,
    ),
    (
        false,
        &[(0, 0), (0, 0)],
        TWICE,
        &TWICE_STREAM,
        Verdict::Row(1),
    ),
    (false, PLAIN, SQUARE, &TWICE_STREAM, Verdict::Row(0)),
    (false, PLAIN, SOLID, &TWICE_STREAM, Verdict::Rows(2)),
    (true, PLAIN, TWICE, &TWICE_STREAM, Verdict::Heads),
    (false, PLAIN, POINTS, &TWICE_STREAM, Verdict::Heads),
    (false, PLAIN, FLAGGED, &TETRAHEDRON, Verdict::Heads),
    (false, PLAIN, TWICE, &CLOUD, Verdict::Heads),
];

#[test]
fn judges_what_is_compared(rt: HostRuntime) {
    let alloc = rt.alloc();
    for (cloud, rows, text, stream, due) in COMPARED.iter() {
        let verdict = check(alloc, *cloud, rows, text, stream, false);
        is_judged(&rt, verdict, *due);
    }
}

/// Rows of the cloud, and what the check of them answers.
static ROWS_OF_A_CLOUD: [(&[(u32, u8)], Verdict); 7] = [
    (&[(0, 0), (1, 0), (2, 0)], Verdict::Same),
    (&[(1, 0), (0, 0), (2, 0)], Verdict::Same),
    (&[(0, 0), (0, 0), (2, 0)], Verdict::Row(1)),
    (&[(0, 0), (1, 1), (2, 0)], Verdict::Row(1)),
    (&[(0, 0), (1, 0), (3, 0)], Verdict::Row(2)),
    (&[(0, 0), (2, 0), (1, 0)], Verdict::Row(1)),
    (&[(0, 0)], Verdict::Rows(1)),
];

#[test]
fn judges_the_rows_of_a_cloud(rt: HostRuntime) {
    let alloc = rt.alloc();
    for (rows, due) in ROWS_OF_A_CLOUD.iter() {
        let verdict = check(alloc, true, rows, POINTS, &CLOUD, false);
        is_judged(&rt, verdict, *due);
    }
}

/// Whether the surface is tested, and what the check of a square whose faces are apart answers.
static PAIRS: [(bool, Verdict); 2] = [(false, Verdict::Same), (true, Verdict::Pair(0))];

#[test]
fn judges_the_pairs(rt: HostRuntime) {
    let alloc = rt.alloc();
    for (surface, due) in PAIRS.iter() {
        let verdict = check(alloc, false, PLAIN, SQUARE, &APART, *surface);
        is_judged(&rt, verdict, *due);
    }
}

/// What the check of the square's text that was read answers.
fn check_read(alloc: Global, surface: bool) -> Result<Verdict, Refusal> {
    let map = map_of(alloc, false, PLAIN)?;
    let geometry = read_ply(alloc, PROFILE_TWO, SQUARE.as_bytes())?;
    verify_read(alloc, &map, &geometry, &APART, surface, PROFILE_TWO)
}

#[test]
fn judges_a_text_that_was_read(rt: HostRuntime) {
    let alloc = rt.alloc();
    for (surface, due) in PAIRS.iter() {
        is_judged(&rt, check_read(alloc, *surface), *due);
    }
}

/// A stream with a wrong magic.
const BROKEN: [u8; 5] = [68, 82, 65, 67, 88];

/// A check was refused for this fault.
fn is_refused(rt: &impl Abort, given: Result<Verdict, Refusal>, kind: Kind, at: u64) {
    assert_eq!(rt; given.err(), Some(Refusal::Fault(Fault { kind, at })));
}

/// A text, a stream and whether the surface is tested, and the kind and place of the first fault.
static WITHOUT_A_VERDICT: [(&str, &[u8], bool, Kind, u64); 7] = [
    ("pl\n", &BROKEN, true, Kind::PlyMagic, 1),
    (SQUARE, &BROKEN, true, Kind::Magic, 0),
    (TWICE, &TWICE_STREAM, true, Kind::Choice, 0),
    (POINTS, &TWICE_STREAM, true, Kind::Choice, 0),
    (POINTS, &APART, true, Kind::NoPosition, 0),
    (NORMALS, &APART, true, Kind::NoPosition, 0),
    (FLAT, &APART, true, Kind::Degenerate, 1),
];

#[test]
fn refuses_what_has_no_verdict(rt: HostRuntime) {
    let alloc = rt.alloc();
    for (text, stream, surface, kind, at) in WITHOUT_A_VERDICT.iter() {
        let given = check(alloc, true, PLAIN, text, stream, *surface);
        is_refused(&rt, given, *kind, *at);
    }
}
