//! What no contract can say: that the definitions are the ones meant, on examples worked by hand.

use crate::pieces::{joined, put};
use crate::shown::{is_fault, is_number, is_text};
use attr_heads::{Head, Quant};
use drc_base::{Kind, PROFILE_TWO, Refusal};
use ply_text::{Header, Lines, first_tokens, put_int, read_header, read_int};
use std::alloc::Global;
use std::process::Abort;

const START: &str = "ply\nformat ascii 1.0\n";

const POINT: &str = "ply\nformat ascii 1.0\nelement vertex 1\nproperty int q\n";

const END: &str = "end_header\n";

/// The header of a text in pieces.
fn header(rt: &impl Abort, alloc: Global, pieces: &[&str]) -> Result<Header, Refusal> {
    let text = joined(rt, alloc, pieces);
    read_header(alloc, PROFILE_TWO, text.as_slice())
}

/// Asserts that the header of a text in pieces is refused for this fault.
fn is_refused(rt: &impl Abort, alloc: Global, pieces: &[&str], kind: Kind, at: u64) {
    is_fault(rt, header(rt, alloc, pieces).err(), kind, at);
}

/// Appends a number to a text.
fn put_number(rt: &impl Abort, text: &mut Vec<u8>, number: i64) {
    put_int(text, number).expect(rt, "room");
}

/// Appends usage, components, flag, type and id of a head, as text.
fn put_head(rt: &impl Abort, text: &mut Vec<u8>, head: &Head) {
    for n in [head.usage, head.comps, head.normalized, head.dtype] {
        put_number(rt, text, n as i64);
    }
    put_number(rt, text, head.id as i64);
    put(rt, text, " ");
}

/// Asserts which heads a header has: as text, they are these.
fn has_heads(rt: &impl Abort, alloc: Global, header: &Header, heads: &str) {
    let mut text = Vec::new(alloc);
    for head in header.heads.as_slice() {
        put_head(rt, &mut text, head);
    }
    is_text(rt, text.as_slice(), heads.as_bytes());
}

/// Asserts which heads the header of a text of points in pieces has, and that it has no faces.
fn is_cloud(rt: &impl Abort, alloc: Global, pieces: &[&str], heads: &str) {
    let h = header(rt, alloc, pieces).expect(rt, "a header");
    assert!(rt; h.faces.is_none() && h.list.is_none());
    has_heads(rt, alloc, &h, heads);
}

/// Asserts which line comes next.
fn is_next(rt: &impl Abort, lines: &mut Lines<'_>, line: Option<&[u8]>) {
    assert_eq!(rt; lines.next(), line);
}

#[test]
fn parts_lines(rt: HostRuntime) {
    let mut lines = Lines::new(b"a\r\n\n b\t\tc \r");
    for line in ["a", "", " b\t\tc \r"] {
        is_next(&rt, &mut lines, Some(line.as_bytes()));
    }
    is_next(&rt, &mut lines, None);
}

/// Lines, and how many tokens are found in each where up to nine are looked for.
static TOKENS: [(&str, usize); 6] = [
    ("", 0),
    (" \t ", 0),
    ("a", 1),
    (" b\t\tc \r", 3),
    ("1 2 3 4 5 6 7 8", 8),
    ("1 2 3 4 5 6 7 8 9", 9),
];

/// Asserts how many tokens are found in a line where up to nine are looked for.
fn has_tokens(rt: &impl Abort, alloc: Global, line: &str, count: usize) {
    let found = first_tokens(alloc, line.as_bytes(), 9).expect(rt, "room");
    is_number(rt, found.len() as u64, count as u64);
}

#[test]
fn parts_tokens(rt: HostRuntime) {
    for (line, count) in TOKENS.iter() {
        has_tokens(&rt, rt.alloc(), line, *count);
    }
}

/// Tokens, and the number that each spells.
static NUMBERS: [(&str, Option<i64>); 13] = [
    ("0", Some(0)),
    ("-0", Some(0)),
    ("-007", Some(-7)),
    ("0000000000000000000000000000005", Some(5)),
    ("9223372036854775807", Some(i64::MAX)),
    ("9223372036854775808", None),
    ("-9223372036854775808", Some(i64::MIN)),
    ("-9223372036854775809", None),
    ("", None),
    ("-", None),
    ("+1", None),
    ("1.0", None),
    ("--1", None),
];

#[test]
fn reads_numbers(rt: HostRuntime) {
    for (text, number) in NUMBERS.iter() {
        assert_eq!(rt; read_int(text.as_bytes()), *number);
    }
}

#[test]
fn writes_numbers(rt: HostRuntime) {
    let mut text = joined(&rt, rt.alloc(), &["n "]);
    for number in [0, -1, 1048576, i64::MIN] {
        put_number(&rt, &mut text, number);
        put(&rt, &mut text, " ");
    }
    is_text(
        &rt,
        text.as_slice(),
        b"n 0 -1 1048576 -9223372036854775808 ",
    );
}

/// A mesh as a scanner writes it, up to its first point.
const SCANNED: &[u8] =
    b"ply\r\nformat ascii 1.0\r\ncomment made by a scanner\r\nobj_info part 7\r\ncomment drc attr 0 0 9 3 0 0\r\ncomment drc attr 1 2 2 3 1 1\r\ncomment drc quant 0 11 3F800000 00000000 00000000 bf800000\r\nelement vertex 4\r\nproperty int x\r\nproperty int y\r\nproperty int32 z\r\nproperty uchar red\r\nproperty uint8 green\r\nproperty uchar blue\r\nelement face 2\r\nproperty list uchar int vertex_index\r\nend_header\r\n0 0 1023 255 0 0\r\n";

/// The data types of the properties of the scanned header.
static SCANNED_TYPES: [u8; 6] = [5, 5, 5, 2, 2, 2];

#[test]
fn reads_a_scanned_header(rt: HostRuntime) {
    let h = read_header(rt.alloc(), PROFILE_TWO, SCANNED).expect(&rt, "a header");
    is_number(&rt, h.vertices as u64, 4);
    is_number(&rt, h.body_line, 18);
    assert!(rt; h.faces == Some(2) && h.list == Some((2, 5)));
    is_text(&rt, h.types.as_slice(), &SCANNED_TYPES);
}

/// Asserts that a quantisation is that of its line in the scanned header.
fn is_quantised_so(rt: &impl Abort, quant: &Quant) {
    is_number(rt, quant.bits as u64, 11);
    is_number(rt, quant.range as u64, 0x3f80_0000);
    assert_eq!(rt; quant.min.as_slice(), [0, 0, 0xbf80_0000].as_slice());
}

#[test]
fn reads_the_heads_of_a_scanned_header(rt: HostRuntime) {
    let h = read_header(rt.alloc(), PROFILE_TWO, SCANNED).expect(&rt, "a header");
    has_heads(&rt, rt.alloc(), &h, "03090 23121 ");
    for head in h.heads.as_slice() {
        if let Some(quant) = &head.quant {
            is_quantised_so(&rt, quant);
        }
    }
}

/// Lines of properties without lines of attributes, and the heads that they make.
static NAMED: [(&str, &str); 7] = [
    (
        "property int x\nproperty int y\nproperty int32 z\n",
        "03050 ",
    ),
    (
        "property int x\nproperty int y\nproperty uint z\n",
        "41050 41051 41062 ",
    ),
    (
        "property char nx\nproperty char ny\nproperty char nz\nproperty int x\n",
        "13010 41051 ",
    ),
    (
        "property uchar red\nproperty uchar green\nproperty uchar blue\nproperty uchar alpha\n",
        "24120 ",
    ),
    (
        "property uchar red\nproperty uchar green\nproperty uchar blue\nproperty char alpha\n",
        "23120 41011 ",
    ),
    (
        "property short s\nproperty short t\nproperty ushort u\nproperty ushort v\n",
        "32030 32041 ",
    ),
    ("property short s\nproperty short v\n", "41030 41031 "),
];

#[test]
fn makes_heads_of_names(rt: HostRuntime) {
    for (properties, heads) in NAMED.iter() {
        let pieces = [START, "element vertex 0\n", *properties, "end_header"];
        is_cloud(&rt, rt.alloc(), &pieces, heads);
    }
}

/// Texts in two pieces, and the fault for which the header of each is refused.
static FAULTS: [(&str, &str, Kind, u64); 35] = [
    ("", "", Kind::PlyShort, 1),
    ("", "\n", Kind::PlyMagic, 1),
    ("", "ply 1\n", Kind::PlyMagic, 1),
    ("", "ply\n", Kind::PlyShort, 2),
    ("", "ply\ncomment\n\n", Kind::PlyFormat, 3),
    ("", "ply\nformat ascii 1.1\n", Kind::PlyFormat, 2),
    ("", "ply\nformat ascii 1.0\r", Kind::PlyFormat, 2),
    ("", "ply\nend_header\n", Kind::PlyFormat, 2),
    (START, "\n", Kind::PlyHeader, 3),
    (START, "vertices 3\n", Kind::PlyHeader, 3),
    (START, "element vertex\n", Kind::PlyHeader, 3),
    (START, "element vertex -1\n", Kind::PlyHeader, 3),
    (START, "element edge 1\n", Kind::PlyElement, 3),
    (START, "element edge x\n", Kind::PlyHeader, 3),
    (START, "element vertex 4194305 0\n", Kind::PlyHeader, 3),
    (START, "element face 1\n", Kind::PlyElement, 3),
    (START, "element edge 4194305\n", Kind::PlyElement, 3),
    (START, "element vertex 4194305\n", Kind::PointLimit, 3),
    (START, "property float\n", Kind::PlyHeader, 3),
    (START, "property float x\n", Kind::PlyType, 3),
    (START, "property int x\n", Kind::PlyElement, 3),
    (
        START,
        "property list uchar float vertex_indices\n",
        Kind::PlyType,
        3,
    ),
    (
        START,
        "property list uchar int vertex_indices\n",
        Kind::PlyElement,
        3,
    ),
    (START, "end_header 1\n", Kind::PlyHeader, 3),
    (START, "end_header\n", Kind::PlyElement, 3),
    (
        START,
        "element vertex 1\nelement vertex 1\n",
        Kind::PlyElement,
        4,
    ),
    (START, "element vertex 1\nend_header\n", Kind::PlyElement, 4),
    (POINT, "", Kind::PlyShort, 5),
    (
        POINT,
        "property list uchar int vertex_indices\n",
        Kind::PlyType,
        5,
    ),
    (POINT, "element face 4194305\n", Kind::FaceLimit, 5),
    (POINT, "element face 1\nend_header\n", Kind::PlyElement, 6),
    (
        POINT,
        "element face 1\nproperty float q\n",
        Kind::PlyType,
        6,
    ),
    (
        POINT,
        "element face 1\nproperty int q\n",
        Kind::PlyElement,
        6,
    ),
    (
        POINT,
        "element face 1\nproperty list uchar int q\n",
        Kind::PlyElement,
        6,
    ),
    (
        POINT,
        "element face 1\nelement face 1\n",
        Kind::PlyElement,
        6,
    ),
];

#[test]
fn refuses_the_first_fault(rt: HostRuntime) {
    for (start, rest, kind, at) in FAULTS.iter() {
        is_refused(&rt, rt.alloc(), &[*start, *rest], *kind, *at);
    }
}

/// Wrong lines of attributes, and the line of the first fault of each.
static WRONG_LINES: [(&str, u64); 19] = [
    ("comment drc attr 1 4 5 1 0 0\n", 5),
    ("comment drc attr 0 5 5 1 0 0\n", 5),
    ("comment drc attr 0 4 7 1 0 0\n", 5),
    ("comment drc attr 0 4 5 0 0 0\n", 5),
    ("comment drc attr 0 4 5 9 0 0\n", 5),
    ("comment drc attr 0 4 5 1 256 0\n", 5),
    ("comment drc attr 0 4 5 1 0 4294967296\n", 5),
    ("comment drc attr 0 4 5 1 0\n", 5),
    ("comment drc attr 0 4 5 1 0 -0\n", 5),
    ("comment drc quant 0 11 3f800000 00000000\n", 5),
    (
        "comment drc attr 0 4 9 1 0 0\ncomment drc quant 0 31 3f800000 00000000\n",
        6,
    ),
    (
        "comment drc attr 0 4 9 1 0 0\ncomment drc quant 0 11 3f800000 0000000g\n",
        6,
    ),
    (
        "comment drc attr 0 4 9 1 0 0\ncomment drc quant 0 11 3f800000 0000000\n",
        6,
    ),
    (
        "comment drc attr 0 4 9 1 0 0\ncomment drc quant 0 11 3f800000\n",
        6,
    ),
    (
        "comment drc attr 0 4 9 1 0 0\ncomment drc quant 0 11 3f800000 00000000\ncomment drc quant 0 11 3f800000 00000000\n",
        7,
    ),
    ("comment drc attr 0 4 6 1 0 0\nend_header\n", 6),
    ("comment drc attr 0 4 5 2 0 0\nend_header\n", 6),
    ("comment drc attr 0 4 9 1 0 0\nend_header\n", 6),
    (
        "comment drc attr 0 4 5 1 0 0\ncomment drc quant 0 11 3f800000 00000000\nend_header\n",
        7,
    ),
];

#[test]
fn refuses_wrong_lines_of_attributes(rt: HostRuntime) {
    for (rest, at) in WRONG_LINES.iter() {
        is_refused(&rt, rt.alloc(), &[POINT, *rest], Kind::PlyAttr, *at);
    }
}

/// Lines of attributes, and the heads that they tell.
static RIGHT_LINES: [(&str, &str); 2] = [
    (
        "comment drc attr 00 04 005 01 0255 04294967295\nend_header\n",
        "4125554294967295 ",
    ),
    (
        "comment drc other\ncomment drc attr 0 4 9 1 0 0\ncomment drc quant 00 030 ffFFffFF 00000000\nend_header\n",
        "41090 ",
    ),
];

#[test]
fn reads_lines_of_attributes(rt: HostRuntime) {
    for (rest, heads) in RIGHT_LINES.iter() {
        is_cloud(&rt, rt.alloc(), &[POINT, *rest], heads);
    }
}

/// The lines of a header of 2^22 points: so many lines of attributes of so many components, more
/// lines, so many properties, and its end.
#[derive(Drop)]
struct Many<'a> {
    lines: u32,
    comps: u8,
    more: &'a str,
    properties: u32,
    end: &'a str,
}

/// Appends the line of an attribute of so many components.
fn put_attr(rt: &impl Abort, text: &mut Vec<u8>, k: u32, comps: u8) {
    put(rt, text, "comment drc attr ");
    put_number(rt, text, k as i64);
    put(rt, text, " 4 5 ");
    put_number(rt, text, comps as i64);
    put(rt, text, " 0 0\n");
}

/// The text of such a header.
fn text_of(rt: &impl Abort, alloc: Global, many: &Many<'_>) -> Vec<u8> {
    let mut text = joined(rt, alloc, &[START]);
    for k in 0..many.lines {
        put_attr(rt, &mut text, k, many.comps);
    }
    put(rt, &mut text, many.more);
    put(rt, &mut text, "element vertex 4194304\n");
    for _ in 0..many.properties {
        put(rt, &mut text, "property int q\n");
    }
    put(rt, &mut text, many.end);
    text
}

/// What such a header is refused for.
fn refusal_of(rt: &impl Abort, alloc: Global, many: &Many<'_>) -> Option<Refusal> {
    let text = text_of(rt, alloc, many);
    read_header(alloc, PROFILE_TWO, text.as_slice()).err()
}

/// Asserts for which fault, if any, such a header is refused.
fn has_fault(rt: &impl Abort, alloc: Global, many: &Many<'_>, fault: Option<(Kind, u64)>) {
    let answer = refusal_of(rt, alloc, many);
    match fault {
        Some((kind, at)) => is_fault(rt, answer, kind, at),
        None => assert_eq!(rt; answer, None),
    }
}

/// Lines, components, more lines, properties and the end of such headers, and the fault of each.
static MANY: [(u32, u8, &str, u32, &str, Option<(Kind, u64)>); 10] = [
    (16, 1, "", 16, END, None),
    (0, 1, "", 16, END, None),
    (17, 1, "", 17, END, Some((Kind::AttrLimit, 19))),
    (
        16,
        1,
        "comment drc attr x\n",
        1,
        END,
        Some((Kind::AttrLimit, 19)),
    ),
    (0, 1, "", 17, END, Some((Kind::AttrLimit, 21))),
    (
        0,
        1,
        "",
        17,
        "element face 1\nend_header\n",
        Some((Kind::PlyElement, 22)),
    ),
    (2, 8, "", 16, END, None),
    (3, 6, "", 18, END, Some((Kind::ValueLimit, 25))),
    (3, 6, "", 17, END, Some((Kind::PlyAttr, 24))),
    (3, 6, "", 19, END, Some((Kind::PlyAttr, 26))),
];

#[test]
fn limits_attributes_and_values(rt: HostRuntime) {
    for (lines, comps, more, properties, end, fault) in MANY.iter() {
        let many = Many {
            lines: *lines,
            comps: *comps,
            more: *more,
            properties: *properties,
            end: *end,
        };
        has_fault(&rt, rt.alloc(), &many, *fault);
    }
}
