//! What no contract can say: that encoding succeeds, and that the definitions are the ones meant, on
//! streams worked by hand.

use drc_base::{Fault, Kind, PROFILE_TWO, Refusal};
use drc_container::{
    Choice, Index, Method, Predict, Prediction, Walk, decode, encode, encode_view,
};
use std::alloc::Global;
use std::process::Abort;
use std::test::Fail;
use worked_surfaces::streams::{CLOUD, FLAT_FACE, NO_POINTS, TRIANGLE};

/// A mesh of two points and the face 0 0 1.
const REPEATED: [u8; 34] = [
    68, 82, 65, 67, 79, 2, 2, 1, 0, 0, 0, 1, 2, 1, 0, 0, 1, 1, 1, 0, 5, 3, 0, 0, 1, 254, 0, 1, 0,
    0, 0, 2, 0, 0,
];

/// The triangle with a normal in place of its position.
const NO_POSITION: [u8; 37] = [
    68, 82, 65, 67, 79, 2, 2, 1, 0, 0, 0, 1, 3, 1, 0, 1, 2, 1, 1, 1, 5, 3, 0, 0, 1, 254, 0, 1, 0,
    0, 0, 20, 0, 0, 0, 20, 1,
];

/// A mesh of one point and no faces.
const NO_FACES: [u8; 28] = [
    68, 82, 65, 67, 79, 2, 2, 1, 0, 0, 0, 0, 1, 1, 1, 1, 0, 5, 3, 0, 0, 1, 254, 0, 1, 2, 2, 2,
];

/// A mesh with a quantised position and a label.
const LABELLED: [u8; 75] = [
    68, 82, 65, 67, 79, 2, 2, 1, 0, 0, 0, 1, 3, 1, 0, 1, 2, 1, 2, 0, 9, 3, 0, 0, 4, 2, 1, 1, 1, 2,
    1, 254, 0, 2, 0, 0, 0, 0, 254, 7, 254, 15, 0, 0, 254, 7, 0, 0, 254, 15, 254, 7, 254, 0, 1, 14,
    18, 200, 0, 0, 0, 0, 0, 0, 0, 0, 0, 0, 128, 191, 0, 0, 128, 63, 11,
];

/// The front of the stream of a cloud of two points of one component, not predicted.
const FRONT: [u8; 26] = [
    68, 82, 65, 67, 79, 2, 3, 0, 0, 0, 0, 2, 0, 0, 0, 1, 1, 0, 5, 1, 0, 0, 1, 254, 0, 4,
];

/// The stream of that cloud from the symbols of its values.
fn pair(alloc: Global, values: (u32, u32)) -> Result<Vec<u8>, Refusal> {
    let mut bytes = Vec::from_slice(alloc, &FRONT)?;
    bytes.extend_from_slice(&values.0.to_le_bytes())?;
    bytes.extend_from_slice(&values.1.to_le_bytes())?;
    Ok(bytes)
}

/// Nothing chosen.
const NOTHING: Choice = Choice {
    method: None,
    index: None,
    predict: None,
    walk: None,
    plain_values: false,
};

/// The sequential method.
const SEQUENTIAL: Choice = Choice {
    method: Some(Method::Seq),
    index: None,
    predict: None,
    walk: None,
    plain_values: false,
};

/// The sequential method with values as they are and not predicted.
const AS_THEY_ARE: Choice = Choice {
    method: Some(Method::Seq),
    index: None,
    predict: Some(Predict::Plain(Prediction::Off)),
    walk: None,
    plain_values: true,
};

/// Values as they are, and nothing else chosen.
const PLAIN: Choice = Choice {
    plain_values: true,
    ..NOTHING
};

/// The sequential method with numbers of points in few bytes.
const PACKED: Choice = Choice {
    index: Some(Index::Packed),
    ..SEQUENTIAL
};

/// What is written of what a stream means.
fn recoded(alloc: Global, bytes: &[u8], choice: &Choice) -> Result<Vec<u8>, Refusal> {
    let geometry = decode(alloc, bytes, PROFILE_TWO)?;
    let (written, _) = encode(alloc, &geometry, choice)?;
    Ok(written)
}

/// Whether what is written of what a stream means, written again as it is and not predicted, is that
/// stream.
fn returns(alloc: Global, bytes: &[u8], choice: &Choice) -> Result<bool, Refusal> {
    let written = recoded(alloc, bytes, choice)?;
    let again = recoded(alloc, written.as_slice(), &AS_THEY_ARE)?;
    Ok(again.as_slice() == bytes)
}

/// Why what a stream means isn't written.
fn fault(alloc: Global, bytes: &[u8], choice: &Choice) -> Option<Refusal> {
    recoded(alloc, bytes, choice).err()
}

/// A stream, a choice, and what is written of what the stream means.
static WRITTEN: [(&[u8], Choice, &[u8]); 4] = [
    (&TRIANGLE, AS_THEY_ARE, &FLAT_FACE),
    (&CLOUD, PLAIN, &CLOUD),
    (&REPEATED, AS_THEY_ARE, &REPEATED),
    (&LABELLED, AS_THEY_ARE, &LABELLED),
];

#[test]
fn writes_the_bytes_worked_by_hand(rt: HostRuntime) -> Result<(), Fail> {
    for (bytes, choice, due) in WRITTEN.iter() {
        let written = recoded(rt.alloc(), bytes, choice)?;
        assert_eq!(rt; written.as_slice(), *due);
    }
    Ok(())
}

/// Meshes that are written by the sequential method and read back.
static READ_BACK: [&[u8]; 3] = [&FLAT_FACE, &LABELLED, &REPEATED];

#[test]
fn what_is_written_is_read_back(rt: HostRuntime) -> Result<(), Fail> {
    for choice in [SEQUENTIAL, PACKED] {
        for bytes in READ_BACK.iter() {
            assert!(rt; returns(rt.alloc(), bytes, &choice)?);
        }
    }
    Ok(())
}

/// Symbols of values that are too far from each other to be predicted.
const FAR: (u32, u32) = (0x7fff_ffff, 0x7fff_fffe);

/// Symbols of two values, and the choice by which their cloud is read back.
static WIDE_VALUES: [((u32, u32), Choice); 3] = [
    ((0x7fff_ffff, 0x7fff_fffc), NOTHING),
    ((0xffff_fffe, 0xffff_ffea), NOTHING),
    (FAR, AS_THEY_ARE),
];

#[test]
fn wide_values_are_read_back(rt: HostRuntime) -> Result<(), Fail> {
    for (values, choice) in WIDE_VALUES.iter() {
        let bytes = pair(rt.alloc(), *values)?;
        assert!(rt; returns(rt.alloc(), bytes.as_slice(), choice)?);
    }
    Ok(())
}

/// What a stream means is not written, for this fault.
fn is_refused(rt: &(impl Abort + AllocGlobal), bytes: &[u8], choice: &Choice, kind: Kind, at: u64) {
    let refused = fault(rt.alloc(), bytes, choice);
    assert_eq!(rt; refused, Some(Refusal::Fault(Fault { kind, at })));
}

#[test]
fn values_too_far_apart_are_not_predicted(rt: HostRuntime) -> Result<(), Fail> {
    let far = pair(rt.alloc(), FAR)?;
    is_refused(&rt, far.as_slice(), &NOTHING, Kind::Range, 0);
    Ok(())
}

/// What is written of what a stream means, lent.
fn lent(alloc: Global, bytes: &[u8], choice: &Choice) -> Result<Vec<u8>, Refusal> {
    let geometry = decode(alloc, bytes, PROFILE_TWO)?;
    let (written, _) = encode_view(alloc, &geometry.view(), choice)?;
    Ok(written)
}

/// What is written of what a stream means is the same bytes where it is lent.
fn is_written_alike(
    rt: &(impl Abort + AllocGlobal),
    bytes: &[u8],
    choice: &Choice,
) -> Result<(), Refusal> {
    let own = recoded(rt.alloc(), bytes, choice)?;
    let lent = lent(rt.alloc(), bytes, choice)?;
    assert_eq!(rt; lent.as_slice(), own.as_slice());
    Ok(())
}

/// Streams whose geometries are lent, and how they are written.
static LENT: [(&[u8], Choice); 3] = [
    (&FLAT_FACE, SEQUENTIAL),
    (&FLAT_FACE, NOTHING),
    (&CLOUD, NOTHING),
];

#[test]
fn lent_geometries_are_written_alike(rt: HostRuntime) -> Result<(), Fail> {
    for (bytes, choice) in LENT.iter() {
        is_written_alike(&rt, bytes, choice)?;
    }
    Ok(())
}

/// Edgebreaker with an index, which it doesn't have.
const EDGEBREAKER: Choice = Choice {
    method: Some(Method::Eb),
    index: Some(Index::Plain),
    ..NOTHING
};

/// An index and a parallelogram, of which a cloud has none.
const INDEXED: Choice = Choice {
    index: Some(Index::Plain),
    predict: Some(Predict::Plain(Prediction::Parallelogram)),
    ..NOTHING
};

/// The sequential method with a parallelogram and a walk.
const PARALLELOGRAM: Choice = Choice {
    predict: Some(Predict::Plain(Prediction::Parallelogram)),
    walk: Some(Walk::Depth),
    ..SEQUENTIAL
};

/// The sequential method with several parallelograms.
const PARALLELOGRAMS: Choice = Choice {
    predict: Some(Predict::Plain(Prediction::Multi)),
    ..SEQUENTIAL
};

/// The sequential method with a walk.
const WALKED: Choice = Choice {
    walk: Some(Walk::Depth),
    ..SEQUENTIAL
};

/// Streams and choices, and the kind and place of the first fault.
static FAULTS: [(&[u8], Choice, Kind, u64); 10] = [
    (&CLOUD, EDGEBREAKER, Kind::Choice, 0),
    (&FLAT_FACE, EDGEBREAKER, Kind::Choice, 1),
    (&CLOUD, INDEXED, Kind::Choice, 1),
    (&FLAT_FACE, PARALLELOGRAM, Kind::Choice, 2),
    (&FLAT_FACE, PARALLELOGRAMS, Kind::Choice, 2),
    (&NO_POINTS, WALKED, Kind::Choice, 3),
    (&NO_POINTS, NOTHING, Kind::Empty, 0),
    (&NO_FACES, NOTHING, Kind::Empty, 0),
    (&NO_POSITION, NOTHING, Kind::NoPosition, 0),
    (&REPEATED, NOTHING, Kind::Degenerate, 0),
];

#[test]
fn refuses_the_first_fault(rt: HostRuntime) {
    for (bytes, choice, kind, at) in FAULTS.iter() {
        is_refused(&rt, bytes, choice, *kind, *at);
    }
}
