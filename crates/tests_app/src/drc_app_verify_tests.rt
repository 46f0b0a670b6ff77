//! What `verify` says of maps, texts and streams worked by hand.

use crate::runs::{
    ALL, NEVER, NO_FAILS, READ_FAILED, TETRAHEDRON_MAP, TEXT, WRITE_FAILED, joined, leaves, prefix,
};
use std::alloc::Global;
use std::process::Abort;
use std::test::Fail;
use worked_surfaces::streams::{APART, TETRAHEDRON, TRIANGLE};

/// The text of a tetrahedron.
const TETRAHEDRON_TEXT: &[u8] =
    b"ply\nformat ascii 1.0\nelement vertex 4\nproperty int x\nproperty int y\nproperty int z\nelement face 4\nproperty list uchar int vertex_indices\nend_header\n0 0 0\n1 0 0\n0 1 0\n0 0 1\n3 0 2 1\n3 0 1 3\n3 1 2 3\n3 0 3 2\n";

/// The text of two triangles of a square.
const SQUARE_TEXT: &[u8] =
    b"ply\nformat ascii 1.0\nelement vertex 4\nproperty int x\nproperty int y\nproperty int z\nelement face 2\nproperty list uchar int vertex_indices\nend_header\n0 0 0\n2 0 0\n0 2 0\n2 2 0\n3 0 1 2\n3 1 3 2\n";

/// What `verify` reads.
fn verify_input(
    alloc: Global,
    map: &str,
    count: usize,
    text: &[u8],
    stream: &[u8],
) -> Result<Vec<u8>, Fail> {
    let line = format!(in alloc; "ply {count}\n")?;
    let mut input = joined(alloc, map, line.as_bytes())?;
    input.extend_from_slice(text)?;
    input.extend_from_slice(stream)?;
    Ok(input)
}

/// A map with a row of another turn.
const OTHER_ROW: &str = "map mesh 4\n3 0\n2 0\n1 2\n0 1\n";

/// The map of the tetrahedron, said to be of a cloud.
const OF_CLOUD: &str = "map cloud 4\n3 0\n2 1\n1 2\n0 1\n";

/// The map of one face.
const ONE: &str = "map mesh 1\n0 0\n";

/// The map of two faces.
const TWO: &str = "map mesh 2\n0 0\n1 0\n";

/// A line with `verify`, a map, a text, and a stream with how many of its bytes are given.
struct Asked {
    line: &'static str,
    map: &'static str,
    text: &'static [u8],
    stream: (&'static [u8], u64),
}

/// The input of what is asked.
fn input_of(alloc: Global, asked: &Asked) -> Result<Vec<u8>, Fail> {
    let stream = prefix(asked.stream.0, asked.stream.1, 1)?;
    verify_input(alloc, asked.map, asked.text.len(), asked.text, stream)
}

/// What is verified as the same, and the output.
static SAME: [(Asked, &[u8]); 4] = [
    (
        Asked {
            line: "verify",
            map: TETRAHEDRON_MAP,
            text: TETRAHEDRON_TEXT,
            stream: (&TETRAHEDRON, ALL),
        },
        b"same 4\n",
    ),
    (
        Asked {
            line: "verify --surface",
            map: TETRAHEDRON_MAP,
            text: TETRAHEDRON_TEXT,
            stream: (&TETRAHEDRON, ALL),
        },
        b"same 4\n",
    ),
    (
        Asked {
            line: "verify",
            map: TWO,
            text: SQUARE_TEXT,
            stream: (&APART, ALL),
        },
        b"same 2\n",
    ),
    (
        Asked {
            line: "verify",
            map: ONE,
            text: TEXT,
            stream: (&TRIANGLE, ALL),
        },
        b"same 1\n",
    ),
];

/// What is not verified as the same, and the status and the note.
static OTHER: [(Asked, u8, &[u8]); 7] = [
    (
        Asked {
            line: "verify",
            map: OTHER_ROW,
            text: TETRAHEDRON_TEXT,
            stream: (&TETRAHEDRON, ALL),
        },
        6,
        b"not same row 1\n",
    ),
    (
        Asked {
            line: "verify",
            map: OF_CLOUD,
            text: TETRAHEDRON_TEXT,
            stream: (&TETRAHEDRON, ALL),
        },
        6,
        b"not same heads 0\n",
    ),
    (
        Asked {
            line: "verify",
            map: ONE,
            text: TETRAHEDRON_TEXT,
            stream: (&TETRAHEDRON, ALL),
        },
        6,
        b"not same rows 1\n",
    ),
    (
        Asked {
            line: "verify --surface",
            map: TWO,
            text: SQUARE_TEXT,
            stream: (&APART, ALL),
        },
        6,
        b"not same pair 0\n",
    ),
    (
        Asked {
            line: "verify --surface",
            map: ONE,
            text: TEXT,
            stream: (&TRIANGLE, ALL),
        },
        2,
        b"refused Choice 0\n",
    ),
    (
        Asked {
            line: "verify",
            map: ONE,
            text: TEXT,
            stream: (&TRIANGLE, 20),
        },
        2,
        b"refused Short 20\n",
    ),
    (
        Asked {
            line: "verify",
            map: ONE,
            text: b"play",
            stream: (&TRIANGLE, ALL),
        },
        2,
        b"refused PlyMagic 1\n",
    ),
];

/// A run of what is asked, with these failing calls, leaves what is due.
fn answers(
    rt: &(impl Abort + AllocGlobal),
    asked: &Asked,
    fails: [u64; 3],
    due: (u8, &[u8], &[u8]),
) -> Result<(), Fail> {
    let input = input_of(rt.alloc(), asked)?;
    leaves(rt, asked.line, &input, fails, due)
}

#[test]
fn what_is_verified_is_the_same(rt: HostRuntime) -> Result<(), Fail> {
    for (asked, output) in SAME.iter() {
        answers(&rt, asked, NO_FAILS, (0, output, b""))?;
    }
    Ok(())
}

#[test]
fn what_is_verified_differs(rt: HostRuntime) -> Result<(), Fail> {
    for (asked, status, note) in OTHER.iter() {
        answers(&rt, asked, NO_FAILS, (*status, b"", note))?;
    }
    Ok(())
}

#[test]
fn what_is_not_read_is_not_verified(rt: HostRuntime) -> Result<(), Fail> {
    let due = (3, b"".as_slice(), READ_FAILED);
    for (asked, _) in SAME.iter() {
        answers(&rt, asked, [0, NEVER, NEVER], due)?;
    }
    for (asked, _, _) in OTHER.iter() {
        answers(&rt, asked, [0, NEVER, NEVER], due)?;
    }
    Ok(())
}

#[test]
fn a_yes_that_is_not_written_is_told(rt: HostRuntime) -> Result<(), Fail> {
    for (asked, output) in SAME.iter() {
        answers(&rt, asked, [NEVER, 0, NEVER], (4, b"", WRITE_FAILED))?;
        answers(&rt, asked, [NEVER, NEVER, 0], (4, output, b""))?;
    }
    Ok(())
}

#[test]
fn a_no_that_is_cut_keeps_a_prefix(rt: HostRuntime) -> Result<(), Fail> {
    for (asked, status, note) in OTHER.iter() {
        for call in 0..4u64 {
            let kept = prefix(note, call, 4)?;
            answers(&rt, asked, [NEVER, 0, call], (*status, b"", kept))?;
        }
    }
    Ok(())
}

/// A `verify` of a text and a stream is refused where the text's bytes are said to be so many, at the line
/// of the text, which stands behind the map's two lines.
fn is_no_form(rt: &(impl Abort + AllocGlobal), count: usize, stream: &[u8]) -> Result<(), Fail> {
    let input = verify_input(rt.alloc(), ONE, count, TEXT, stream)?;
    let due = (2, b"".as_slice(), b"refused MapForm 3\n".as_slice());
    leaves(rt, "verify", &input, NO_FAILS, due)
}

#[test]
fn a_text_of_fewer_bytes_than_are_said_is_refused(rt: HostRuntime) -> Result<(), Fail> {
    is_no_form(&rt, NEVER as usize, &TRIANGLE)?;
    is_no_form(&rt, TEXT.len() + 1, b"")
}
