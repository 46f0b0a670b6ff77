//! What no contract can say: that decoding succeeds with ample memory, and that the definitions are the ones meant, on streams of the
//! third profile.

use crate::profile_three::*;
use attr_heads::Head;
use drc_base::{Fault, Kind, PROFILE_THREE, PROFILE_TWO, Profile, Refusal};
use drc_container::{Choice, Method, Predict, decode, encode};
use mesh_model::Geometry;
use std::alloc::Global;
use std::process::Abort;
use std::test::Fail;

/// The heads of a geometry, the integers of its points, and its faces, of which a cloud has none.
fn parts(geometry: &Geometry) -> (&[Head], &[i32], &[[u32; 3]]) {
    match geometry {
        Geometry::Mesh(mesh) => (mesh.heads(), mesh.cells(), mesh.faces()),
        Geometry::Cloud(cloud) => (cloud.heads(), cloud.cells(), &[]),
    }
}

/// The number of components of the last attribute, and the bits of its square.
fn last_of(heads: &[Head]) -> Option<(u8, Option<u8>)> {
    heads.last().map(|head| (head.comps, head.octa))
}

/// Whether these bytes mean a geometry of these points and faces, whose last attribute has two components and these bits.
fn means(
    alloc: Global,
    bytes: &[u8],
    bits: Option<u8>,
    points: &[i32],
    faces: &[[u32; 3]],
) -> Result<bool, Refusal> {
    let geometry = decode(alloc, bytes, PROFILE_THREE)?;
    let (heads, cells, found) = parts(&geometry);
    Ok(last_of(heads) == Some((2, bits)) && cells == points && found == faces)
}

/// Streams, the bits of the square of their last attribute, and the points and faces that they mean.
static MEANINGS: [(&[u8], Option<u8>, &[i32], &[[u32; 3]]); 4] = [
    (&NORMALS, Some(4), &NORMALS_POINTS, &[]),
    (&FOLDED, Some(4), &FOLDED_POINTS, &TWO_FACES),
    (&TEXTURED, None, &TEXTURED_POINTS, &TWO_FACES),
    (&CREASED, Some(3), &CREASED_POINTS, &CREASED_FACES),
];

#[test]
fn decodes_octahedral_values_and_texture_coordinates(rt: HostRuntime) -> Result<(), Fail> {
    for (bytes, bits, points, faces) in MEANINGS.iter() {
        let is_so = means(rt.alloc(), bytes, *bits, points, faces)?;
        assert!(&rt; is_so, "at {bytes:?}");
    }
    Ok(())
}

#[test]
fn ignores_what_counts_for_nothing(rt: HostRuntime) -> Result<(), Fail> {
    let alloc = rt.alloc();
    for at in 37..41 {
        let bytes = with_byte(alloc, &NORMALS, at, 9)?;
        assert!(&rt; means(alloc, &bytes, Some(4), &NORMALS_POINTS, &[])?);
    }
    // An octahedral attribute may have each usage, and the positions stay the first attribute of theirs.
    let bytes = with_byte(alloc, &FOLDED, 41, 0)?;
    assert!(&rt; means(alloc, &bytes, Some(4), &FOLDED_POINTS, &TWO_FACES)?);
    let bytes = with_byte(alloc, &TEXTURED, 83, 3)?;
    assert!(&rt; means(alloc, &bytes, None, &TEXTURED_POINTS, &TWO_FACES)?);
    Ok(())
}

/// The fault of these bytes in a profile is of this kind and at this place.
fn is_refused(
    rt: &(impl Abort + AllocGlobal),
    bytes: &[u8],
    profile: Profile,
    kind: Kind,
    at: u64,
) {
    let fault = decode(rt.alloc(), bytes, profile).err();
    assert!(rt;
        fault == Some(Refusal::Fault(Fault { kind, at })),
        "{kind:?} {at}"
    );
}

#[test]
fn the_second_profile_refuses_them(rt: HostRuntime) {
    is_refused(&rt, &NORMALS, PROFILE_TWO, Kind::Octahedral, 22);
    is_refused(&rt, &FOLDED, PROFILE_TWO, Kind::Octahedral, 46);
    is_refused(&rt, &TEXTURED, PROFILE_TWO, Kind::Prediction, 71);
    is_refused(&rt, &CREASED, PROFILE_TWO, Kind::Octahedral, 46);
}

/// A stream, the place of another byte and that byte, and the kind and place of the fault.
static FAULTS: [(&[u8], usize, u8, Kind, u64); 20] = [
    // Three components and a type of quantised floats go with the coding.
    (&NORMALS, 19, 2, Kind::Coding, 22),
    (&NORMALS, 18, 5, Kind::Coding, 22),
    (&NORMALS, 22, 0, Kind::Generic, 22),
    (&NORMALS, 22, 4, Kind::Coding, 22),
    // A cloud has no positions over a surface.
    (&NORMALS, 23, 6, Kind::Prediction, 23),
    (&NORMALS, 23, 1, Kind::Prediction, 23),
    (&NORMALS, 24, 1, Kind::Transform, 24),
    (&NORMALS, 33, 0xe, Kind::QuantBits, 33),
    (&NORMALS, 33, 1, Kind::QuantBits, 33),
    (&NORMALS, 36, 0x7f, Kind::QuantBits, 33),
    // A correction outside the square of corrections, and a value outside that of the head.
    (&NORMALS, 27, 0xf, Kind::ValueRange, 23),
    (&NORMALS, 41, 3, Kind::ValueRange, 23),
    (&NORMALS, 41, 0x1f, Kind::QuantBits, 41),
    (&NORMALS, 41, 1, Kind::QuantBits, 41),
    // No attribute is a position.
    (&FOLDED, 34, 4, Kind::NoPosition, 71),
    (&FOLDED, 91, 0, Kind::BadProb, 91),
    (&TEXTURED, 83, 5, Kind::FlagCount, 83),
    (&TEXTURED, 83, 1, Kind::FlagsShort, 71),
    // Three components aren't texture coordinates.
    (&TEXTURED, 43, 3, Kind::Prediction, 71),
    (&TEXTURED, 72, 3, Kind::Transform, 72),
];

#[test]
fn refuses_faulty_bytes(rt: HostRuntime) -> Result<(), Fail> {
    for (bytes, at, byte, kind, place) in FAULTS.iter() {
        let faulty = with_byte(rt.alloc(), bytes, *at, *byte)?;
        is_refused(&rt, &faulty, PROFILE_THREE, *kind, *place);
    }
    Ok(())
}

/// The two triangles with positions that lie 2^31 - 1 apart, as they are.
fn far_apart(alloc: Global) -> Result<Vec<u8>, Refusal> {
    let mut bytes = TEXTURED[..47].to_vec(alloc)?;
    bytes.extend_from_slice(&[0xfe, 0, 4])?;
    bytes.extend_from_slice(&[0; 12])?;
    bytes.extend_from_slice(&[0xfe, 0xff, 0xff, 0xff])?;
    bytes.extend_from_slice(&[0; 32])?;
    bytes.extend_from_slice(&TEXTURED[71..])?;
    Ok(bytes)
}

#[test]
fn refuses_projections_of_great_numbers(rt: HostRuntime) -> Result<(), Fail> {
    let bytes = far_apart(rt.alloc())?;
    is_refused(&rt, &bytes, PROFILE_THREE, Kind::Projection, 98);
    Ok(())
}

#[test]
fn refuses_cut_bytes(rt: HostRuntime) {
    is_refused(&rt, &NORMALS[..41], PROFILE_THREE, Kind::Short, 41);
    is_refused(&rt, &NORMALS[..33], PROFILE_THREE, Kind::Short, 33);
    is_refused(&rt, &FOLDED[..91], PROFILE_THREE, Kind::Short, 91);
    is_refused(&rt, &TEXTURED[..83], PROFILE_THREE, Kind::Short, 83);
}

/// Predictions and a method that are chosen, where they are, and values as they are.
fn chosen(predict: Option<Predict>, method: Option<Method>) -> Choice {
    Choice {
        method,
        index: None,
        predict,
        walk: None,
        plain_values: true,
    }
}

/// How what these bytes mean is written, where it is, by the choice.
fn written_again(alloc: Global, bytes: &[u8], choice: &Choice) -> Result<Vec<u8>, Refusal> {
    let geometry = decode(alloc, bytes, PROFILE_THREE)?;
    let (written, _rows) = encode(alloc, &geometry, choice)?;
    Ok(written)
}

/// The last bytes of each stream: what is written of its last attribute by the shape of the surface.
static WRITTEN_BY_SHAPE: [(&[u8], &[u8]); 3] = [
    (
        &FOLDED,
        &[
            6, 3, 0, 1, 0x0d, 1, 0x0d, 4, 0, 0, 1, 4, 0x0f, 0, 0, 0, 7, 0, 0, 0, 1, 2, 0x40, 0x40,
            4,
        ],
    ),
    (
        &TEXTURED,
        &[
            5, 1, 0, 1, 3, 0, 4, 3, 0, 0, 0, 2, 2, 0, 0, 0, 0x80, 2, 0x80, 0x70, 0, 0, 0, 0, 9, 0,
            0, 0,
        ],
    ),
    (
        &CREASED,
        &[
            6, 3, 0, 1, 0, 0, 0, 0, 0, 0, 0, 3, 0, 3, 0, 3, 7, 0, 0, 0, 3, 0, 0, 0, 0xff, 2, 0x66,
            0x40, 3,
        ],
    ),
];

#[test]
fn normals_and_texture_coordinates_are_written_by_shape(rt: HostRuntime) -> Result<(), Fail> {
    let choice = chosen(Some(Predict::Shape), None);
    for (bytes, end) in WRITTEN_BY_SHAPE.iter() {
        let written = written_again(rt.alloc(), bytes, &choice)?;
        assert!(&rt;
            written.len() == bytes.len() && written.ends_with(end),
            "{written:?}"
        );
    }
    Ok(())
}

#[test]
fn octahedral_values_of_a_cloud_are_written_as_they_were(rt: HostRuntime) -> Result<(), Fail> {
    let written = written_again(rt.alloc(), &NORMALS, &chosen(None, None))?;
    assert_eq!(rt; written.as_slice(), NORMALS.as_slice());
    Ok(())
}

/// A cloud of no points, each of which would have a normal.
const NO_NORMALS: [u8; 27] = [
    0x44, 0x52, 0x41, 0x43, 0x4f, 2, 3, 0, 0, 0, 0, 0, 0, 0, 0, 1, 1, 1, 9, 3, 0, 0, 3, 0xfe, 0, 1,
    4,
];

/// A stream, what is chosen, and the kind and number of the fault.
static NOT_WRITTEN: [(&[u8], Option<Predict>, Option<Method>, Kind, u64); 3] = [
    (&NORMALS, None, Some(Method::Eb), Kind::Choice, 0),
    (&NORMALS, Some(Predict::Shape), None, Kind::Choice, 2),
    (&NO_NORMALS, None, None, Kind::Empty, 0),
];

#[test]
fn octahedral_attributes_that_are_not_written(rt: HostRuntime) {
    for (bytes, predict, method, kind, at) in NOT_WRITTEN.iter() {
        let fault = written_again(rt.alloc(), bytes, &chosen(*predict, *method)).err();
        assert!(&rt;
            fault
                == Some(Refusal::Fault(Fault {
                    kind: *kind,
                    at: *at
                })),
            "{kind:?} {at}"
        );
    }
}
