//! What no contract can say of the commands, on inputs worked by hand.

use crate::runs::{
    ALL, NEVER, NO_FAILS, READ_FAILED, TETRAHEDRON_MAP, TEXT, WRITE_FAILED, calls, joined, leaves,
    prefix, run_line,
};
use drc_base::Sink;
use std::process::Abort;
use std::test::Fail;
use worked_surfaces::streams::{CLOUD, FACE, FLAT_FACE, TETRAHEDRON, TRIANGLE};

/// The text of a cloud.
const CLOUD_TEXT: &[u8] =
    b"ply\nformat ascii 1.0\nelement vertex 3\nproperty int x\nproperty int y\nproperty int z\nend_header\n5 5 5\n5 5 5\n5 5 6\n";

/// The same cloud as a kd-tree file.
const KD_CLOUD: [u8; 35] = [
    75, 68, 80, 84, 83, 1, 1, 0, 5, 3, 0, 0, 3, 5, 0, 0, 0, 0, 5, 0, 0, 0, 0, 5, 0, 0, 0, 1, 128,
    2, 0, 113, 1, 1, 0,
];

/// The text of that file.
const KD_TEXT: &[u8] =
    b"ply\nformat ascii 1.0\ncomment drc attr 0 0 5 3 0 0\nelement vertex 3\nproperty int x\nproperty int y\nproperty int z\nend_header\n5 5 5\n5 5 5\n5 5 6\n";

/// The tetrahedron with its faces in the order of its text, and its points in that of the stream.
const RESTORED_TEXT: &[u8] =
    b"ply\nformat ascii 1.0\ncomment drc attr 0 0 5 3 0 0\nelement vertex 4\nproperty int x\nproperty int y\nproperty int z\nelement face 4\nproperty list uchar int vertex_indices\nend_header\n0 0 0\n0 0 1\n0 1 0\n1 0 0\n3 0 2 3\n3 0 3 1\n3 3 2 1\n3 0 1 2\n";

/// The report on the triangle's stream.
const REPORT: &[u8] =
    b"drc 2.2 mesh seq\nconnectivity 11 6\nfaces 1\npoints 3\nattr 0 0 5 3 0 0 predict -2 entries 3 at 25\nend 64 rest 0\n";

/// The words of a command, parted by spaces; its input; its output and its note.
type Case = (&'static str, &'static [u8], &'static [u8], &'static str);

/// What each command is due.
static CASES: [Case; 7] = [
    ("dec", &TRIANGLE, TEXT, ""),
    (
        "enc --method seq --predict none --plain-values",
        TEXT,
        &FLAT_FACE,
        "map mesh 1\n0 0\n",
    ),
    (
        "enc --plain-values",
        CLOUD_TEXT,
        &CLOUD,
        "map cloud 3\n0 0\n1 0\n2 0\n",
    ),
    ("info", &TRIANGLE, REPORT, ""),
    (
        "recode --plain-values",
        &TRIANGLE,
        &FACE,
        "map mesh 1\n0 0\n",
    ),
    (
        "kd enc",
        CLOUD_TEXT,
        &KD_CLOUD,
        "map cloud 3\n0 0\n1 0\n2 0\n",
    ),
    ("kd dec", &KD_CLOUD, KD_TEXT, ""),
];

#[test]
fn each_command_gives_what_is_due(rt: HostRuntime) -> Result<(), Fail> {
    for (line, input, output, note) in CASES.iter() {
        leaves(&rt, line, input, NO_FAILS, (0, output, note.as_bytes()))?;
    }
    Ok(())
}

#[test]
fn a_failed_take_is_never_the_end(rt: HostRuntime) -> Result<(), Fail> {
    for (line, input, _, _) in CASES.iter() {
        for call in 0..calls(input, 16) {
            leaves(
                &rt,
                line,
                input,
                [call, NEVER, NEVER],
                (3, b"", READ_FAILED),
            )?;
        }
    }
    Ok(())
}

#[test]
fn an_output_that_fails_keeps_a_prefix(rt: HostRuntime) -> Result<(), Fail> {
    for (line, input, output, _) in CASES.iter() {
        for call in 0..calls(output, 16) {
            let kept = prefix(output, call, 16)?;
            leaves(
                &rt,
                line,
                input,
                [NEVER, call, NEVER],
                (4, kept, WRITE_FAILED),
            )?;
        }
    }
    Ok(())
}

#[test]
fn notes_that_fail_keep_a_prefix(rt: HostRuntime) -> Result<(), Fail> {
    for (line, input, output, note) in CASES.iter() {
        for call in 0..calls(note.as_bytes(), 4) {
            let kept = prefix(note.as_bytes(), call, 4)?;
            leaves(&rt, line, input, [NEVER, NEVER, call], (4, output, kept))?;
        }
    }
    Ok(())
}

/// A line, an input and how many of its bytes are given, and the status and the note.
static REFUSED: [(&str, &[u8], u64, u8, &str); 9] = [
    ("dec", &TRIANGLE, 20, 2, "refused Short 20\n"),
    ("dcd", &TRIANGLE, ALL, 1, "bad word 0\n"),
    ("enc --method eb", CLOUD_TEXT, ALL, 2, "refused Choice 0\n"),
    ("recode --method eb", &CLOUD, ALL, 2, "refused Choice 0\n"),
    ("recode", &TRIANGLE, 20, 2, "refused Short 20\n"),
    ("kd enc", TEXT, ALL, 2, "refused KdMesh 0\n"),
    ("kd enc", &TRIANGLE, ALL, 2, "refused PlyMagic 1\n"),
    ("kd dec", &KD_CLOUD, 30, 2, "refused Short 30\n"),
    ("kd dec", &TRIANGLE, ALL, 2, "refused KdMagic 0\n"),
];

/// The notes of a run that is refused keep a prefix, whichever of the first calls fails.
fn keeps_a_prefix(
    rt: &(impl Abort + AllocGlobal),
    line: &str,
    input: &[u8],
    status: u8,
    note: &[u8],
) -> Result<(), Fail> {
    for call in 0..4u64 {
        let kept = prefix(note, call, 4)?;
        leaves(rt, line, input, [NEVER, NEVER, call], (status, b"", kept))?;
    }
    Ok(())
}

#[test]
fn notes_of_refusals_that_fail_keep_a_prefix(rt: HostRuntime) -> Result<(), Fail> {
    for (line, input, len, status, note) in REFUSED.iter() {
        let given = prefix(input, *len, 1)?;
        keeps_a_prefix(&rt, line, given, *status, note.as_bytes())?;
    }
    Ok(())
}

#[test]
fn the_order_before_a_map_comes_back(rt: HostRuntime) -> Result<(), Fail> {
    let alloc = rt.alloc();
    let input = joined(alloc, TETRAHEDRON_MAP, &TETRAHEDRON)?;
    let done = run_line(alloc, "recode --restore", &input, NO_FAILS)?;
    assert_eq!(rt; done.status, 0);
    assert!(rt; done.notes.held().is_empty());
    leaves(
        &rt,
        "dec",
        done.output.held(),
        NO_FAILS,
        (0, RESTORED_TEXT, b""),
    )
}

/// Maps that a tetrahedron's stream is not put back by, and the note.
static WRONG_MAPS: [(&str, &str); 6] = [
    ("map mesh 1\n0 0\n", "refused MapCount 1\n"),
    ("map mesh 1\n0 3\n", "refused MapForm 2\n"),
    ("map cloud 1\n0 0\n", "refused MapKind 0\n"),
    ("map mesh 4\n3 0\n2 1\n1 2\n3 1\n", "refused BadMap 3\n"),
    ("map mesh 4\n3 0\n2 1\n1 2\n", "refused MapForm 5\n"),
    ("", "refused MapForm 1\n"),
];

#[test]
fn a_wrong_map_is_refused(rt: HostRuntime) -> Result<(), Fail> {
    for (map, note) in WRONG_MAPS.iter() {
        let input = joined(rt.alloc(), map, &TETRAHEDRON)?;
        let due = (2, b"".as_slice(), note.as_bytes());
        leaves(&rt, "recode --restore", &input, NO_FAILS, due)?;
    }
    Ok(())
}
