//! What no contract can say: that decoding succeeds with ample memory, and that the definitions are the
//! ones meant, on Edgebreaker streams.

use drc_base::{Fault, Kind, PROFILE_TWO, Refusal};
use drc_container::{Decoded, Method, decode, decode_whole};
use mesh_model::{CornerMesh, Geometry};
use std::alloc::{AllocError, Global};
use std::process::Abort;
use std::test::Fail;
use worked_surfaces::streams::*;

/// The integers of a mesh's points, one point after the other.
fn cells_of(alloc: Global, mesh: &CornerMesh) -> Result<Vec<i32>, AllocError> {
    let mut cells = Vec::new(alloc);
    for p in 0..mesh.point_count() {
        cells.extend_from_slice(mesh.point(p))?;
    }
    Ok(cells)
}

/// Whether a geometry is this mesh.
fn is_mesh(
    alloc: Global,
    geometry: &Geometry,
    points: &[i32],
    faces: &[[u32; 3]],
) -> Result<bool, Refusal> {
    let Geometry::Mesh(mesh) = geometry else {
        return Ok(false);
    };
    let cells = cells_of(alloc, mesh)?;
    Ok(mesh.faces() == faces && cells.as_slice() == points)
}

/// These bytes with one behind them, decoded.
fn decoded_with_one_behind(alloc: Global, bytes: &[u8]) -> Result<Decoded, Refusal> {
    let mut longer = bytes.to_vec(alloc)?;
    longer.push(7)?;
    decode_whole(alloc, longer.as_slice(), PROFILE_TWO)
}

/// Whether what was decoded is this mesh with its surface, of a connectivity that was coded so, with one
/// byte behind it.
fn is_decoded(
    alloc: Global,
    decoded: &Decoded,
    method: Method,
    points: &[i32],
    faces: &[[u32; 3]],
) -> Result<bool, Refusal> {
    let is_same = is_mesh(alloc, &decoded.geometry, points, faces)?;
    let is_read = decoded.info.method == method && decoded.info.rest == 1;
    Ok(is_same && is_read && decoded.sides.is_some())
}

/// Whether these bytes, with one behind them, are decoded as this mesh with its surface, and its
/// connectivity was coded so.
pub fn decodes(
    alloc: Global,
    bytes: &[u8],
    method: Method,
    points: &[i32],
    faces: &[[u32; 3]],
) -> Result<bool, Refusal> {
    let decoded = decoded_with_one_behind(alloc, bytes)?;
    is_decoded(alloc, &decoded, method, points, faces)
}

/// Streams with standard symbols, and the points and faces that they mean.
static MESHES: [(&[u8], &[i32], &[[u32; 3]]); 8] = [
    (&FACE, &FACE_POINTS, &FACE_FACES),
    (&TETRAHEDRON, &TETRAHEDRON_POINTS, &TETRAHEDRON_FACES),
    (&TORUS, &TORUS_POINTS, &TORUS_FACES),
    (&RING, &RING_POINTS, &RING_FACES),
    (&MIRRORED, &MIRRORED_POINTS, &MIRRORED_FACES),
    (&EDGE_OF_THREE, &EDGE_OF_THREE_POINTS, &EDGE_OF_THREE_FACES),
    (&SEAM, &SEAM_POINTS, &SEAM_FACES),
    (&CUBE, &CUBE_POINTS, &CUBE_FACES),
];

#[test]
fn decodes_edgebreaker(rt: HostRuntime) -> Result<(), Fail> {
    for (bytes, points, faces) in MESHES.iter() {
        let is_decoded = decodes(rt.alloc(), bytes, Method::Eb, points, faces)?;
        assert!(&rt; is_decoded, "at {bytes:?}");
    }
    Ok(())
}

#[test]
fn decodes_symbols_by_valence(rt: HostRuntime) -> Result<(), Fail> {
    let (points, faces) = (&TETRAHEDRON_POINTS, &TETRAHEDRON_FACES);
    assert!(&rt; decodes(rt.alloc(), &BY_VALENCE, Method::Valence, points, faces)?);
    Ok(())
}

/// A fault is of this kind and at this place.
fn is_fault(rt: &impl Abort, fault: Option<Refusal>, kind: Kind, at: u64) {
    assert_eq!(rt; fault, Some(Refusal::Fault(Fault { kind, at })));
}

/// The fault of these bytes behind the header of an Edgebreaker mesh.
fn fault_behind(alloc: Global, bytes: &[u8]) -> Result<Option<Refusal>, Refusal> {
    let mut whole = FACE[..11].to_vec(alloc)?;
    whole.extend_from_slice(bytes)?;
    Ok(decode(alloc, whole.as_slice(), PROFILE_TWO).err())
}

/// Bytes behind the header of an Edgebreaker mesh, and the kind and place of the fault.
static FAULTS: [(&[u8], Kind, u64); 7] = [
    (&[0, 0, 0xff, 0xff, 0xff, 0xff, 0x0f], Kind::FaceLimit, 13),
    (
        &[0, 4, 2, 0, 2, 1, 0, 1, 0x0f, 0xff, 1, 0x11],
        Kind::NoActive,
        1,
    ),
    (&[0, 4, 3, 0, 2, 0, 0, 1, 0x2f, 1, 1, 0x10], Kind::Loop, 2),
    (
        &[0, 5, 3, 0, 3, 0, 1, 1, 1, 0, 1, 0x57, 0xff, 1, 0x11],
        Kind::EventOrder,
        2,
    ),
    (
        &[0, 9, 5, 0, 5, 0, 0, 2, 0xa7, 0, 0xff, 1, 0x11],
        Kind::Degenerate,
        2,
    ),
    (&[0, 9, 4, 0, 4, 0, 0, 1, 0xa7, 1, 1, 0x10], Kind::Loop, 4),
    (&[1], Kind::Traversal, 11),
];

#[test]
fn refuses_edgebreaker(rt: HostRuntime) -> Result<(), Fail> {
    for (bytes, kind, at) in FAULTS.iter() {
        let fault = fault_behind(rt.alloc(), bytes)?;
        is_fault(&rt, fault, *kind, *at);
    }
    Ok(())
}

#[test]
fn refuses_an_empty_context(rt: HostRuntime) -> Result<(), Fail> {
    let alloc = rt.alloc();
    let mut whole = BY_VALENCE[..30].to_vec(alloc)?;
    whole.push(0)?;
    whole.extend_from_slice(&BY_VALENCE[39..])?;
    let fault = decode(alloc, whole.as_slice(), PROFILE_TWO).err();
    is_fault(&rt, fault, Kind::ContextEmpty, 2);
    Ok(())
}

/// The fault of the face's stream with another byte at a place.
fn fault_with(alloc: Global, at: usize, byte: u8) -> Result<Option<Refusal>, Refusal> {
    let mut whole = FACE.to_vec(alloc)?;
    if at < whole.len() {
        whole[at] = byte;
    }
    Ok(decode(alloc, whole.as_slice(), PROFILE_TWO).err())
}

/// The place of a byte of the face's stream and another byte there, and the kind of the fault at that place.
static BYTES_OF_THE_FACE: [(usize, u8, Kind); 7] = [
    (20, 0, Kind::BadProb),
    (22, 0x40, Kind::BadStart),
    (23, 0, Kind::NoAttribute),
    (24, 0, Kind::DataId),
    (25, 1, Kind::Element),
    (26, 2, Kind::Walk),
    (34, 5, Kind::Prediction),
];

#[test]
fn refuses_bytes_of_the_face(rt: HostRuntime) -> Result<(), Fail> {
    for (at, byte, kind) in BYTES_OF_THE_FACE.iter() {
        let fault = fault_with(rt.alloc(), *at, *byte)?;
        is_fault(&rt, fault, *kind, *at as u64);
    }
    Ok(())
}
