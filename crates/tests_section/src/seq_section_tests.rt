//! What no contract can say: that the calls succeed with ample memory, and that the definitions are the
//! ones meant, on sections that were worked by hand or written by another program.

use crate::faults::is_fault;
use drc_base::{Fault, Kind, MAX_POINTS, Refusal};
use drc_bits::Cursor;
use seq_section::{read_indices, write_indices};
use std::alloc::Global;
use std::test::Fail;

/// Whether these bytes, with one more behind them, are read as these faces.
fn reads(alloc: Global, bytes: &[u8], faces: &[[u32; 3]], points: u32) -> Result<bool, Refusal> {
    let mut longer = Vec::new(alloc);
    longer.extend_from_slice(bytes)?;
    longer.push(0xff)?;
    let mut c = Cursor::new(longer.as_slice());
    let read = read_indices(alloc, &mut c)?;
    Ok(read.faces.as_slice() == faces && read.points == points && c.rest().len() == 1)
}

/// Whether the face is written as these bytes.
fn writes(
    alloc: Global,
    face: [u32; 3],
    points: u32,
    packed: bool,
    bytes: &[u8],
) -> Result<bool, Refusal> {
    let [first, second, third] = face;
    if points > MAX_POINTS || first >= points || second >= points || third >= points {
        return Ok(false);
    }
    let mut written = Vec::new(alloc);
    write_indices(alloc, &mut written, &[face], points, packed)?;
    Ok(written.as_slice() == bytes)
}

/// The fault of a section.
fn fault_of(alloc: Global, bytes: &[u8]) -> Option<Fault> {
    match read_indices(alloc, &mut Cursor::new(bytes)) {
        Err(Refusal::Fault(fault)) => Some(fault),
        _ => None,
    }
}

/// Single faces, the number of points, whether the indices are packed, and the bytes.
static FACES: [([u32; 3], u32, bool, &[u8]); 7] = [
    (
        [0, 1, 2],
        3,
        true,
        &[
            1, 3, 0, 0, 3, 3, 0x55, 0x15, 0xad, 0x2a, 3, 4, 0x70, 0x81, 0x14,
        ],
    ),
    ([0, 1, 2], 3, false, &[1, 3, 1, 0, 1, 2]),
    ([0, 253, 254], 255, false, &[1, 0xff, 1, 1, 0, 0xfd, 0xfe]),
    (
        [0, 254, 255],
        256,
        false,
        &[1, 0x80, 2, 1, 0, 0, 0xfe, 0, 0xff, 0],
    ),
    (
        [0, 65533, 65534],
        65535,
        false,
        &[1, 0xff, 0xff, 3, 1, 0, 0, 0xfd, 0xff, 0xfe, 0xff],
    ),
    (
        [0, 65534, 65535],
        65536,
        false,
        &[1, 0x80, 0x80, 4, 1, 0, 0xfe, 0xff, 3, 0xff, 0xff, 3],
    ),
    (
        [0, 2097150, 2097151],
        2097152,
        false,
        &[
            1, 0x80, 0x80, 0x80, 1, 1, 0, 0, 0, 0, 0xfe, 0xff, 0x1f, 0, 0xff, 0xff, 0x1f, 0,
        ],
    ),
];

#[test]
fn faces_both_ways(rt: HostRuntime) -> Result<(), Fail> {
    for (face, points, packed, bytes) in FACES.iter() {
        assert!(rt;
            writes(rt.alloc(), *face, *points, *packed, bytes)?,
            "{points}"
        );
        assert!(rt; reads(rt.alloc(), bytes, &[*face], *points)?, "{points}");
    }
    Ok(())
}

/// Sections that are read though they are not written so, their faces, and the number of points.
static OTHER_SECTIONS: [(&[u8], &[[u32; 3]], u32); 5] = [
    // Blocks whose symbols have three bits each.
    (
        &[2, 4, 0, 0, 4, 0x0b, 1, 0x40, 1, 0, 0x90, 0x30, 2],
        &[[0, 1, 2], [2, 1, 3]],
        4,
    ),
    // Zeros with the sign of a negative number.
    (
        &[1, 1, 0, 0, 4, 0x0b, 1, 0x40, 1, 0, 0x49, 0],
        &[[0, 0, 0]],
        1,
    ),
    (&[0, 5, 0], &[], 5),
    (&[0, 0x80, 0x80, 0x80, 2, 1], &[], 0x40_0000),
    (&[1, 9, 1, 8, 8, 0], &[[8, 8, 0]], 9),
];

#[test]
fn other_sections_are_read(rt: HostRuntime) -> Result<(), Fail> {
    for (bytes, faces, points) in OTHER_SECTIONS.iter() {
        assert!(rt; reads(rt.alloc(), bytes, faces, *points)?, "{bytes:?}");
    }
    Ok(())
}

/// Faulty sections, and the kind and the place of the first fault.
static FAULTS: [(&[u8], Kind, u64); 12] = [
    (&[], Kind::Short, 0),
    (&[0x81, 0x80, 0x80, 2], Kind::FaceLimit, 0),
    (&[1, 0x81, 0x80, 0x80, 2], Kind::PointLimit, 1),
    (&[1, 3], Kind::Short, 2),
    (&[1, 3, 2, 0, 1, 2], Kind::IndexMethod, 2),
    (&[1, 3, 1, 0, 1, 3], Kind::IndexRange, 5),
    (&[1, 3, 1, 0, 3], Kind::IndexRange, 4),
    (&[1, 3, 1, 0, 1], Kind::Short, 5),
    (&[1, 3, 0, 2], Kind::Scheme, 3),
    // An index that is the number of points, one below zero, and one of these where the bits run out.
    (
        &[1, 3, 0, 0, 4, 0x0b, 1, 0x40, 1, 0, 0x10, 1],
        Kind::IndexRange,
        3,
    ),
    (
        &[1, 3, 0, 0, 4, 0x0b, 1, 0x40, 1, 0, 3, 0],
        Kind::IndexRange,
        3,
    ),
    (&[1, 3, 0, 0, 4, 0x0b, 1, 0x40, 1, 0, 3], Kind::Short, 10),
];

#[test]
fn faults_of_sections(rt: HostRuntime) {
    for (bytes, kind, at) in FAULTS.iter() {
        is_fault(&rt, fault_of(rt.alloc(), bytes), *kind, *at, bytes);
    }
}
