//! What no contract can say: that the definitions are the ones meant, on examples worked by hand.

use crate::pieces::{joined, put};
use crate::shown::{has_counts, has_face, has_point, is_fault, is_number, is_text};
use drc_base::{Kind, MemSink, PROFILE_TWO, Refusal};
use mesh_model::{Cloud, CornerMesh, Geometry};
use ply_mesh::{PlyText, read_ply, write_ply};
use std::alloc::Global;
use std::process::Abort;

const HEADER: &str = "ply\nformat ascii 1.0\ncomment drc attr 0 0 5 3 0 0\nelement vertex 3\n";

const PROPERTIES: &str = "property int x\nproperty int y\nproperty int z\n";

const FACES: &str = "element face 1\nproperty list uchar int vertex_indices\nend_header\n";

const ROWS: &str = "0 0 0\n10 0 0\n0 10 -1\n";

/// The fault of a text in pieces.
fn fault(rt: &impl Abort, alloc: Global, pieces: &[&str]) -> Option<Refusal> {
    let text = joined(rt, alloc, pieces);
    read_ply(alloc, PROFILE_TWO, text.as_slice()).err()
}

/// Asserts that a text in pieces is refused for this fault.
fn is_refused(rt: &impl Abort, alloc: Global, pieces: &[&str], kind: Kind, at: u64) {
    is_fault(rt, fault(rt, alloc, pieces), kind, at);
}

/// The geometry of a text.
fn geometry(rt: &impl Abort, alloc: Global, text: &[u8]) -> Geometry {
    read_ply(alloc, PROFILE_TWO, text).expect(rt, "a geometry")
}

/// What is written of the geometry of a text.
fn again(rt: &impl Abort, alloc: Global, text: &[u8]) -> Vec<u8> {
    let g = geometry(rt, alloc, text);
    write_ply(alloc, &g).expect(rt, "room")
}

/// Asserts what is written of the geometry of a text.
fn is_written(rt: &impl Abort, alloc: Global, text: &[u8], written: &[u8]) {
    let answer = again(rt, alloc, text);
    is_text(rt, answer.as_slice(), written);
}

/// The text of the triangle.
fn triangle(rt: &impl Abort, alloc: Global) -> Vec<u8> {
    joined(rt, alloc, &[HEADER, PROPERTIES, FACES, ROWS, "3 0 1 2\n"])
}

/// Asserts that a mesh is the triangle.
fn is_triangle(rt: &impl Abort, mesh: &CornerMesh) {
    has_counts(rt, mesh, 3, 1);
    has_point(rt, mesh, 2, &[0, 10, -1]);
    has_face(rt, mesh, 0, [0, 1, 2]);
}

#[test]
fn reads_a_triangle(rt: HostRuntime) {
    let text = triangle(&rt, rt.alloc());
    match &geometry(&rt, rt.alloc(), text.as_slice()) {
        Geometry::Mesh(mesh) => is_triangle(&rt, mesh),
        Geometry::Cloud(_cloud) => assert!(rt; false),
    }
}

#[test]
fn writes_a_triangle(rt: HostRuntime) {
    let text = triangle(&rt, rt.alloc());
    is_written(&rt, rt.alloc(), text.as_slice(), text.as_slice());
}

/// Rows and faces of a text of three points and a face, and the fault of each.
static FAULTS: [(&str, &str, Kind, u64); 19] = [
    (ROWS, "4 0 1 2 0\n", Kind::PlyFace, 14),
    (ROWS, "4 0 1 2\n", Kind::PlyFace, 14),
    (ROWS, "3 0 1 2 0\n", Kind::PlyRow, 14),
    (ROWS, "3 0 1\n", Kind::PlyRow, 14),
    (ROWS, "\n", Kind::PlyRow, 14),
    (ROWS, "x 0 1 2\n", Kind::PlyNumber, 14),
    (ROWS, "256 0 1 2\n", Kind::PlyNumber, 14),
    (ROWS, "3 0 9 x\n", Kind::PlyNumber, 14),
    (ROWS, "3 0 1 3\n", Kind::PlyIndex, 14),
    (ROWS, "3 0 -1 2\n", Kind::PlyIndex, 14),
    (ROWS, "", Kind::PlyShort, 14),
    (ROWS, "3 0 1 2\nx\n", Kind::PlyRest, 15),
    (ROWS, "3 0 1 2\n\n \t\nx\n", Kind::PlyRest, 17),
    ("0 0 0\n10 0\n0 10 -1\n", "3 0 1 2\n", Kind::PlyRow, 12),
    ("0 0 0\n10 0 0 0\n", "", Kind::PlyRow, 12),
    ("0 0 0\n10 0 0.5\n", "", Kind::PlyNumber, 12),
    ("0 0 0\n10 0 2147483648\n", "", Kind::PlyNumber, 12),
    ("0 0 0\n", "", Kind::PlyShort, 12),
    ("", "", Kind::PlyShort, 11),
];

#[test]
fn refuses_the_first_fault(rt: HostRuntime) {
    for (rows, faces, kind, at) in FAULTS.iter() {
        let pieces = [HEADER, PROPERTIES, FACES, *rows, *faces];
        is_refused(&rt, rt.alloc(), &pieces, *kind, *at);
    }
}

#[test]
fn refuses_a_property_of_reals(rt: HostRuntime) {
    let pieces = [HEADER, "property float x\n", PROPERTIES, FACES, ROWS];
    is_refused(&rt, rt.alloc(), &pieces, Kind::PlyType, 5);
}

/// Asserts whether a text of one point, whose only property has this type and this number, is refused for the number.
fn is_within(rt: &impl Abort, alloc: Global, word: &str, number: &str, within: bool) {
    let start = "ply\nformat ascii 1.0\nelement vertex 1\nproperty ";
    let answer = fault(rt, alloc, &[start, word, " q\nend_header\n", number]);
    if within {
        assert_eq!(rt; answer, None);
    } else {
        is_fault(rt, answer, Kind::PlyNumber, 6);
    }
}

/// The word of each type, its least number and the one below, its greatest number and the one above.
static RANGES: [(&str, &str, &str, &str, &str); 6] = [
    ("char", "-128", "-129", "127", "128"),
    ("uchar", "-0", "-1", "255", "256"),
    ("short", "-32768", "-32769", "32767", "32768"),
    ("ushort", "000", "-1", "65535", "65536"),
    (
        "int",
        "-2147483648",
        "-2147483649",
        "0002147483647",
        "2147483648",
    ),
    ("uint", "0", "-1", "2147483647", "2147483648"),
];

#[test]
fn keeps_each_type_within_its_range(rt: HostRuntime) {
    for (word, least, below, greatest, above) in RANGES.iter() {
        is_within(&rt, rt.alloc(), word, least, true);
        is_within(&rt, rt.alloc(), word, greatest, true);
        is_within(&rt, rt.alloc(), word, below, false);
        is_within(&rt, rt.alloc(), word, above, false);
    }
}

#[test]
fn writes_a_scanned_mesh(rt: HostRuntime) {
    let text =
        b"ply\r\nformat ascii 1.0\r\ncomment made by a scanner\r\nobj_info part 7\r\ncomment drc attr 0 0 9 3 0 0\r\ncomment drc attr 1 2 2 3 1 1\r\ncomment drc quant 0 11 3F800000 00000000 00000000 bf800000\r\nelement vertex 4\r\nproperty int x\r\nproperty int y\r\nproperty int z\r\nproperty uint8 red\r\nproperty uchar green\r\nproperty uchar blue\r\nelement face 2\r\nproperty list uchar int vertex_index\r\nend_header\r\n0 0 1023 255 0 0\r\n2047 0 1023 255 0 0\r\n0 02047 1023 0 255 0\r\n 2047\t2047 1023 0 255 -0 \r\n3 0 1 2\r\n3 2 1 3\r\n\r\n";
    let written =
        b"ply\nformat ascii 1.0\ncomment drc attr 0 0 9 3 0 0\ncomment drc quant 0 11 3f800000 00000000 00000000 bf800000\ncomment drc attr 1 2 2 3 1 1\nelement vertex 4\nproperty int x\nproperty int y\nproperty int z\nproperty uchar red\nproperty uchar green\nproperty uchar blue\nelement face 2\nproperty list uchar int vertex_indices\nend_header\n0 0 1023 255 0 0\n2047 0 1023 255 0 0\n0 2047 1023 0 255 0\n2047 2047 1023 0 255 0\n3 0 1 2\n3 2 1 3\n";
    is_written(&rt, rt.alloc(), text, written);
}

#[test]
fn refuses_a_scanned_mesh_without_its_quantisation(rt: HostRuntime) {
    let start =
        "ply\nformat ascii 1.0\ncomment made by a scanner\nobj_info part 7\ncomment drc attr 0 0 9 3 0 0\ncomment drc attr 1 2 2 3 1 1\nelement vertex 4\n";
    let rest = "property uchar red\nproperty uchar green\nproperty uchar blue\n";
    let faces = "element face 2\nproperty list uchar int vertex_indices\nend_header\n";
    let pieces = [start, PROPERTIES, rest, faces];
    is_refused(&rt, rt.alloc(), &pieces, Kind::PlyAttr, 16);
}

/// A cloud of one point with five attributes.
const FIVE_ATTRIBUTES: &[u8] =
    b"ply\nformat ascii 1.0\ncomment drc attr 0 0 5 2 0 0\ncomment drc attr 1 0 3 3 0 1\ncomment drc attr 2 2 2 4 1 2\ncomment drc attr 3 0 1 3 0 3\ncomment drc attr 4 3 6 2 0 4\nelement vertex 1\nproperty int a0_0\nproperty int a0_1\nproperty short x\nproperty short y\nproperty short z\nproperty uchar red\nproperty uchar green\nproperty uchar blue\nproperty uchar alpha\nproperty char a3_0\nproperty char a3_1\nproperty char a3_2\nproperty uint s\nproperty uint t\nend_header\n1 2 3 4 5 6 7 8 9 -1 -2 -3 10 11\n";

/// Asserts that a cloud has one point, and 14 integers of it.
fn is_point_of_14(rt: &impl Abort, cloud: &Cloud) {
    is_number(rt, cloud.point_count() as u64, 1);
    is_number(rt, cloud.width() as u64, 14);
}

#[test]
fn reads_the_components_of_a_cloud(rt: HostRuntime) {
    match &geometry(&rt, rt.alloc(), FIVE_ATTRIBUTES) {
        Geometry::Cloud(cloud) => is_point_of_14(&rt, cloud),
        Geometry::Mesh(_mesh) => assert!(rt; false),
    }
}

#[test]
fn names_the_components_of_a_cloud(rt: HostRuntime) {
    is_written(&rt, rt.alloc(), FIVE_ATTRIBUTES, FIVE_ATTRIBUTES);
    let none = b"ply\nformat ascii 1.0\nelement vertex 0\nproperty int q\nend_header\n";
    let written =
        b"ply\nformat ascii 1.0\ncomment drc attr 0 4 5 1 0 0\nelement vertex 0\nproperty int a0_0\nend_header\n";
    is_written(&rt, rt.alloc(), none, written);
}

/// Asserts that a text is refused as one that ends too early, at this line.
fn is_short(rt: &impl Abort, alloc: Global, text: &[u8], at: u64) {
    is_fault(
        rt,
        read_ply(alloc, PROFILE_TWO, text).err(),
        Kind::PlyShort,
        at,
    );
}

#[test]
fn tells_where_a_text_ends_too_early(rt: HostRuntime) {
    let text = triangle(&rt, rt.alloc());
    let bytes = text.as_slice();
    let mut at = 1;
    for i in 0..bytes.len() {
        if i == 0 || bytes[i - 1] == b'\n' {
            is_short(&rt, rt.alloc(), &bytes[..i], at);
            if at < 99 {
                at += 1;
            }
        }
    }
    is_number(&rt, at, 15);
}

/// The text of a cloud of many points.
fn long_text(rt: &impl Abort, alloc: Global) -> Vec<u8> {
    let header = "ply\nformat ascii 1.0\ncomment drc attr 0 0 5 3 0 0\nelement vertex 6000\n";
    let mut text = joined(rt, alloc, &[header, PROPERTIES, "end_header\n"]);
    for _ in 0..6000u32 {
        put(rt, &mut text, "-2147483648 2147483647 0\n");
    }
    text
}

/// A sink that holds as much as the long text, where these calls fail.
fn sink_of(rt: &impl Abort, alloc: Global, fails: Vec<u64>) -> MemSink {
    MemSink::new(alloc, 40_000, 200_000, fails).expect(rt, "room")
}

/// Asserts that printing fails where a call to the sink does, and that the sink then holds a prefix of the text.
fn fails_at(rt: &impl Abort, alloc: Global, printed: &PlyText, text: &[u8], call: u64) {
    let fails = vec![in alloc; call].expect(rt, "room");
    let mut sink = sink_of(rt, alloc, fails);
    assert!(rt; printed.print(&mut sink).is_err());
    assert!(rt; text.starts_with(sink.held()));
}

/// Asserts that the whole text is printed where no call to the sink fails.
fn is_printed(rt: &impl Abort, alloc: Global, printed: &PlyText, text: &[u8]) {
    let mut sink = sink_of(rt, alloc, Vec::new(alloc));
    assert!(rt; printed.print(&mut sink).is_ok());
    is_text(rt, sink.held(), text);
}

/// The geometry of a text, to be printed.
fn printed_of(rt: &impl Abort, alloc: Global, text: &[u8]) -> PlyText {
    PlyText::new(alloc, geometry(rt, alloc, text)).expect(rt, "room")
}

#[test]
fn prints_a_long_text_in_parts(rt: HostRuntime) {
    let text = long_text(&rt, rt.alloc());
    let printed = printed_of(&rt, rt.alloc(), text.as_slice());
    // Two chunks of two pieces and an end, and one of a piece and an end.
    for call in 0..8u64 {
        fails_at(&rt, rt.alloc(), &printed, text.as_slice(), call);
    }
    is_printed(&rt, rt.alloc(), &printed, text.as_slice());
}

#[test]
fn reads_and_writes_a_long_text(rt: HostRuntime) {
    let text = long_text(&rt, rt.alloc());
    is_written(&rt, rt.alloc(), text.as_slice(), text.as_slice());
}
