//! What no contract can say: that encoding by Edgebreaker succeeds with ample memory, and that the
//! definitions are the ones meant, on meshes worked beside.

use crate::drc_container_edgebreaker_reading_tests::decodes;
use drc_base::{Fault, Kind, PROFILE_TWO, Refusal};
use drc_container::{Choice, Method, Predict, Prediction, Walk, decode, decode_whole, encode};
use mesh_model::{Geometry, Renumber, matches};
use std::alloc::Global;
use std::process::Abort;
use std::test::Fail;
use worked_surfaces::streams::*;
use worked_surfaces::{RING_ROWS, TETRAHEDRON_ROWS, TORUS_ROWS, TWIN_ROWS};

/// Edgebreaker with standard symbols, and values as they are.
const PLAIN: Choice = Choice {
    method: None,
    index: None,
    predict: None,
    walk: None,
    plain_values: true,
};

/// Edgebreaker by all that is there by default.
const NOTHING: Choice = Choice {
    plain_values: false,
    ..PLAIN
};

/// Edgebreaker with symbols by valence, and values as they are.
const VALENCE: Choice = Choice {
    method: Some(Method::Valence),
    ..PLAIN
};

/// Edgebreaker in the order by degrees, and values as they are.
const DEGREE: Choice = Choice {
    walk: Some(Walk::Degree),
    ..PLAIN
};

/// Edgebreaker with values predicted by several parallelograms.
const MULTI: Choice = Choice {
    predict: Some(Predict::Plain(Prediction::Multi)),
    ..PLAIN
};

/// Edgebreaker with values that are not predicted.
const UNPREDICTED: Choice = Choice {
    predict: Some(Predict::Plain(Prediction::Off)),
    ..NOTHING
};

/// What `flat` means, encoded.
fn written_of(alloc: Global, flat: &[u8], choice: &Choice) -> Result<(Vec<u8>, Renumber), Refusal> {
    let geometry = decode(alloc, flat, PROFILE_TWO)?;
    encode(alloc, &geometry, choice)
}

/// Whether what `flat` means is encoded as these bytes, with these rows.
fn encodes(
    alloc: Global,
    flat: &[u8],
    choice: &Choice,
    bytes: &[u8],
    rows: &[(u32, u8)],
) -> Result<bool, Refusal> {
    let (written, order) = written_of(alloc, flat, choice)?;
    Ok(written.as_slice() == bytes && order.rows.as_slice() == rows)
}

/// A stream, a choice, and the stream and the rows that what it means is encoded as.
static ENCODED: [(&[u8], Choice, &[u8], &[(u32, u8)]); 12] = [
    (&FLAT_FACE, PLAIN, &FACE, &[(0, 0)]),
    (&FLAT_TETRAHEDRON, PLAIN, &TETRAHEDRON, &TETRAHEDRON_ROWS),
    (&FLAT_TETRAHEDRON, VALENCE, &BY_VALENCE, &TETRAHEDRON_ROWS),
    (&FLAT_TETRAHEDRON, DEGREE, &BY_DEGREE, &TETRAHEDRON_ROWS),
    (&FLAT_TETRAHEDRON, MULTI, &ALL_LEFT_OUT, &TETRAHEDRON_ROWS),
    (&FLAT_SQUARE, MULTI, &ONE_KEPT, &[(1, 1), (0, 2)]),
    (&FLAT_TORUS, PLAIN, &TORUS, &TORUS_ROWS),
    (&FLAT_RING, PLAIN, &RING, &RING_ROWS),
    (&FLAT_MIRRORED, PLAIN, &MIRRORED, &[(1, 0), (0, 0)]),
    (&FLAT_TWICE, PLAIN, &TWICE, &[(1, 0), (0, 0)]),
    (
        &FLAT_EDGE_OF_THREE,
        PLAIN,
        &EDGE_OF_THREE,
        &[(2, 0), (1, 2), (0, 0)],
    ),
    (&FLAT_SEAM, PLAIN, &SEAM, &[(1, 2), (0, 2)]),
];

#[test]
fn encodes_edgebreaker(rt: HostRuntime) -> Result<(), Fail> {
    for (flat, choice, bytes, order) in ENCODED.iter() {
        let is_encoded = encodes(rt.alloc(), flat, choice, bytes, order)?;
        assert!(&rt; is_encoded, "at {bytes:?}");
    }
    Ok(())
}

/// What `flat` means is encoded with these rows.
fn has_rows(
    rt: &(impl Abort + AllocGlobal),
    flat: &[u8],
    rows: &[(u32, u8)],
) -> Result<(), Refusal> {
    let (_, order) = written_of(rt.alloc(), flat, &NOTHING)?;
    assert_eq!(rt; order.rows.as_slice(), rows);
    Ok(())
}

/// How many events what `flat` means is encoded with.
fn events_of(alloc: Global, flat: &[u8]) -> Result<u32, Refusal> {
    let (written, _) = written_of(alloc, flat, &NOTHING)?;
    let again = decode_whole(alloc, written.as_slice(), PROFILE_TWO)?;
    Ok(again.info.events)
}

/// The torus beside a copy of it has the symbols of both, one after the other, and the events of both.
#[test]
fn encodes_twins(rt: HostRuntime) -> Result<(), Fail> {
    has_rows(&rt, &FLAT_TWINS, &TWIN_ROWS)?;
    assert_eq!(rt; events_of(rt.alloc(), &FLAT_TWINS)?, 4);
    Ok(())
}

/// The faces of the coloured square.
const COLOURED_FACES: [[u32; 3]; 2] = [[0, 1, 2], [1, 3, 2]];

/// Whether what the coloured square is encoded as is decoded as it.
fn colours_come_back(alloc: Global) -> Result<bool, Refusal> {
    let (written, _) = written_of(alloc, &FLAT_COLOURED, &NOTHING)?;
    let bytes = written.as_slice();
    decodes(alloc, bytes, Method::Eb, &COLOURED_POINTS, &COLOURED_FACES)
}

#[test]
fn encodes_colours(rt: HostRuntime) -> Result<(), Fail> {
    has_rows(&rt, &FLAT_COLOURED, &[(1, 2), (0, 2)])?;
    assert!(&rt; colours_come_back(rt.alloc())?);
    Ok(())
}

/// Whether these bytes mean a geometry, by these rows.
fn is_meant(
    alloc: Global,
    geometry: &Geometry,
    bytes: &[u8],
    rows: &Renumber,
) -> Result<bool, Refusal> {
    let again = decode(alloc, bytes, PROFILE_TWO)?;
    Ok(matches(alloc, geometry, &again, rows)?)
}

/// Whether what is written of what a stream means, as chosen, means the same mesh.
fn comes_back(alloc: Global, bytes: &[u8], choice: &Choice) -> Result<bool, Refusal> {
    let geometry = decode(alloc, bytes, PROFILE_TWO)?;
    let (written, rows) = encode(alloc, &geometry, choice)?;
    is_meant(alloc, &geometry, written.as_slice(), &rows)
}

/// The streams whose meshes are encoded in all ways.
static IN_ALL_WAYS: [&[u8]; 3] = [&CUBE, &FLAT_COLOURED, &FLAT_TWINS];

/// What is written of what each of these streams means, as chosen, means the same mesh.
fn all_come_back(rt: &impl Abort, alloc: Global, choice: &Choice) -> Result<(), Refusal> {
    for bytes in IN_ALL_WAYS.iter() {
        assert!(rt; comes_back(alloc, bytes, choice)?);
    }
    Ok(())
}

#[test]
fn what_is_encoded_comes_back(rt: HostRuntime) -> Result<(), Fail> {
    for method in [Method::Eb, Method::Valence] {
        for predict in Predict::all() {
            for walk in [Walk::Depth, Walk::Degree] {
                let choice = Choice {
                    method: Some(method),
                    predict: Some(predict),
                    walk: Some(walk),
                    ..NOTHING
                };
                all_come_back(&rt, rt.alloc(), &choice)?;
            }
        }
    }
    Ok(())
}

/// The front of the stream of a face of three points of one component each, not predicted.
const FRONT: [u8; 28] = [
    68, 82, 65, 67, 79, 2, 2, 1, 0, 0, 0, 1, 3, 1, 0, 1, 2, 1, 1, 0, 5, 1, 0, 0, 1, 254, 0, 4,
];

/// The stream of that face from the symbols of its values.
fn face_of(alloc: Global, values: &[u32; 3]) -> Result<Vec<u8>, Refusal> {
    let mut bytes = Vec::from_slice(alloc, &FRONT)?;
    for value in values.iter() {
        bytes.extend_from_slice(&value.to_le_bytes())?;
    }
    Ok(bytes)
}

/// Whether what is written of the face, as chosen, means the same face.
fn face_comes_back(alloc: Global, values: &[u32; 3], choice: &Choice) -> Result<bool, Refusal> {
    let bytes = face_of(alloc, values)?;
    comes_back(alloc, bytes.as_slice(), choice)
}

/// Symbols whose values are too far from each other to be predicted.
const FAR: [u32; 3] = [0x7fff_ffff, 0x7fff_fffe, 0];

/// Symbols of values, and the choice by which their face comes back.
static WIDE_VALUES: [([u32; 3], Choice); 3] = [
    ([0x7fff_ffff, 0x7fff_fffc, 0], NOTHING),
    ([0xffff_fffe, 0xffff_ffea, 0xffff_fff0], NOTHING),
    (FAR, UNPREDICTED),
];

#[test]
fn predicts_wide_values(rt: HostRuntime) -> Result<(), Fail> {
    for (values, choice) in WIDE_VALUES.iter() {
        assert!(&rt; face_comes_back(rt.alloc(), values, choice)?);
    }
    Ok(())
}

#[test]
fn refuses_values_that_are_too_far_apart(rt: HostRuntime) {
    let fault = face_comes_back(rt.alloc(), &FAR, &NOTHING).err();
    let due = Fault {
        kind: Kind::Range,
        at: 0,
    };
    assert_eq!(rt; fault, Some(Refusal::Fault(due)));
}
