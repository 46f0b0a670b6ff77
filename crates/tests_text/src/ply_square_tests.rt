//! What no contract can say: that the lines of squares are read as they are meant, on texts worked by hand.

use crate::pieces::joined;
use crate::shown::{is_fault, is_text};
use drc_base::{Kind, PROFILE_TWO, Profile, Refusal};
use mesh_model::Geometry;
use ply_mesh::{read_ply, write_ply};
use std::alloc::Global;
use std::process::Abort;

/// The profile that has octahedral attributes.
const SQUARES: Profile = Profile { number: 3 };

/// The first lines of a cloud of two normals of four bits.
const START: &str = "ply\nformat ascii 1.0\ncomment drc attr 0 1 9 2 0 0\n";

const SQUARE: &str = "comment drc octa 0 4\n";

const POINTS: &str =
    "element vertex 2\nproperty int a0_0\nproperty int a0_1\nend_header\n14 0\n7 7\n";

/// Two normals: their components aren't named for their usage, and the three of the second attribute are.
const NORMALS: &[u8] =
    b"ply\nformat ascii 1.0\ncomment drc attr 0 1 9 2 0 0\ncomment drc octa 0 30\ncomment drc attr 1 3 9 2 1 7\ncomment drc octa 1 2\ncomment drc attr 2 3 3 2 0 2\nelement vertex 1\nproperty int a0_0\nproperty int a0_1\nproperty int a1_0\nproperty int a1_1\nproperty short s\nproperty short t\nend_header\n1073741822 0 2 0 -1 5\n";

/// The geometry of a text in pieces, in profile 3.
fn read(rt: &impl Abort, alloc: Global, pieces: &[&str]) -> Result<Geometry, Refusal> {
    let text = joined(rt, alloc, pieces);
    read_ply(alloc, SQUARES, text.as_slice())
}

/// Asserts that a text is read in profile 3, and that it is what is written of its geometry.
fn is_kept(rt: &impl Abort, alloc: Global, text: &[u8]) {
    let g = read_ply(alloc, SQUARES, text).expect(rt, "a geometry");
    let written = write_ply(alloc, &g).expect(rt, "room");
    is_text(rt, written.as_slice(), text);
}

#[test]
fn keeps_normals(rt: HostRuntime) {
    is_kept(&rt, rt.alloc(), NORMALS);
    let text = joined(&rt, rt.alloc(), &[START, SQUARE, POINTS]);
    is_kept(&rt, rt.alloc(), text.as_slice());
}

/// Lines behind the attribute's, and the line of the fault of each.
static WRONG_LINES: [(&str, u64); 11] = [
    ("comment drc octa 0 1\n", 4),
    ("comment drc octa 0 31\n", 4),
    ("comment drc octa 1 4\n", 4),
    ("comment drc octa 0\n", 4),
    ("comment drc octa 0 4 4\n", 4),
    ("comment drc octa 0 -4\n", 4),
    ("comment drc octa 0 4\ncomment drc octa 0 4\n", 5),
    (
        "comment drc quant 0 4 3f800000 00000000 00000000\ncomment drc octa 0 4\n",
        5,
    ),
    (
        "comment drc octa 0 4\ncomment drc quant 0 4 3f800000 00000000 00000000\n",
        5,
    ),
    ("comment drc attr 1 1 9 3 0 0\ncomment drc octa 1 4\n", 5),
    ("comment drc attr 1 1 5 2 0 0\ncomment drc octa 1 4\n", 5),
];

#[test]
fn refuses_wrong_lines_of_squares(rt: HostRuntime) {
    for (lines, at) in WRONG_LINES.iter() {
        let refusal = read(&rt, rt.alloc(), &[START, *lines, POINTS]).err();
        is_fault(&rt, refusal, Kind::PlyAttr, *at);
    }
}

#[test]
fn refuses_floats_without_a_line(rt: HostRuntime) {
    let refusal = read(&rt, rt.alloc(), &[START, POINTS]).err();
    is_fault(&rt, refusal, Kind::PlyAttr, 7);
}

/// The first lines of a cloud of one point in a square of four bits.
const POINT: &str = "element vertex 1\nproperty int p\nproperty int q\nend_header\n";

/// Asserts whether a line of a point is in a square of four bits.
fn is_within(rt: &impl Abort, alloc: Global, row: &str, within: bool) {
    let refusal = read(rt, alloc, &[START, SQUARE, POINT, row]).err();
    if within {
        assert_eq!(rt; refusal, None);
    } else {
        is_fault(rt, refusal, Kind::PlyNumber, 9);
    }
}

#[test]
fn keeps_points_within_their_square(rt: HostRuntime) {
    is_within(&rt, rt.alloc(), "0 14\n", true);
    is_within(&rt, rt.alloc(), " 14 -0", true);
    is_within(&rt, rt.alloc(), "0 15\n", false);
    is_within(&rt, rt.alloc(), "-1 0\n", false);
    is_within(&rt, rt.alloc(), "0\t15\n", false);
}

/// Texts in profile 2, where the line of a square is any other comment.
#[test]
fn reads_no_squares_in_profile_two(rt: HostRuntime) {
    let text = joined(&rt, rt.alloc(), &[START, SQUARE, POINTS]);
    let refusal = read_ply(rt.alloc(), PROFILE_TWO, text.as_slice()).err();
    is_fault(&rt, refusal, Kind::PlyAttr, 8);
    let quant = "comment drc octa 7 x\ncomment drc quant 0 4 3f800000 00000000 00000000\n";
    let text = joined(&rt, rt.alloc(), &[START, quant, POINTS]);
    assert!(&rt; read_ply(rt.alloc(), PROFILE_TWO, text.as_slice()).is_ok());
}
