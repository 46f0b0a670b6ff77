//! What an answer is, asserted.

use drc_base::{Fault, Kind, Refusal};
use mesh_model::CornerMesh;
use std::process::Abort;

/// Asserts that a call is refused for this fault.
pub fn is_fault(rt: &impl Abort, refusal: Option<Refusal>, kind: Kind, at: u64) {
    assert_eq!(rt; refusal, Some(Refusal::Fault(Fault::new(kind, at))));
}

/// Asserts that a text is the one wanted.
pub fn is_text(rt: &impl Abort, text: &[u8], wanted: &[u8]) {
    assert_eq!(rt; text, wanted);
}

/// Asserts that a number is the one wanted.
pub fn is_number(rt: &impl Abort, number: u64, wanted: u64) {
    assert_eq!(rt; number, wanted);
}

/// Asserts that the integers of a point are those wanted.
pub fn is_point(rt: &impl Abort, point: &[i32], wanted: &[i32]) {
    assert_eq!(rt; point, wanted);
}

/// Asserts that faces are those wanted.
pub fn are_faces(rt: &impl Abort, faces: &[[u32; 3]], wanted: &[[u32; 3]]) {
    assert_eq!(rt; faces, wanted);
}

/// Asserts how many points and faces a mesh has.
pub fn has_counts(rt: &impl Abort, mesh: &CornerMesh, points: u32, faces: u32) {
    is_number(rt, mesh.point_count() as u64, points as u64);
    is_number(rt, mesh.face_count() as u64, faces as u64);
}

/// Asserts that a mesh has this point.
pub fn has_point(rt: &impl Abort, mesh: &CornerMesh, p: u32, point: &[i32]) {
    assert!(rt; p < mesh.point_count());
    is_point(rt, mesh.point(p), point);
}

/// Asserts that a mesh has this face.
pub fn has_face(rt: &impl Abort, mesh: &CornerMesh, f: u32, face: [u32; 3]) {
    assert!(rt; f < mesh.face_count());
    assert_eq!(rt; mesh.face(f), face);
}

/// Asserts that a place of a face of a mesh has the integers of this point.
pub fn has_corner(rt: &impl Abort, mesh: &CornerMesh, f: u32, k: u8, point: &[i32]) {
    assert!(rt; f < mesh.face_count() && k < 3);
    is_point(rt, mesh.corner(f, k), point);
}
