//! Streams of the third profile, which Google's draco 1.5.5 wrote and read back with the same integers, and what was read.

use std::alloc::{AllocError, Global};

/// A cloud of three normals of four bits, each predicted by the one before.
pub(crate) const NORMALS: [u8; 42] = [
    0x44, 0x52, 0x41, 0x43, 0x4f, 2, 3, 0, 0, 0, 0, 3, 0, 0, 0, 1, 1, 1, 9, 3, 0, 0, 3, 0, 3, 0, 1,
    7, 7, 7, 0, 0xa, 7, 0xf, 0, 0, 0, 7, 0, 0, 0, 4,
];

/// The integers of its points.
pub(crate) const NORMALS_POINTS: [i32; 6] = [7, 7, 14, 7, 4, 0];

/// Two triangles with normals of four bits, which are predicted from the positions.
pub(crate) const FOLDED: [u8; 96] = [
    0x44, 0x52, 0x41, 0x43, 0x4f, 2, 2, 1, 1, 0, 0, 0, 4, 2, 1, 2, 0, 0, 1, 0x1f, 0xff, 1, 0x11,
    0xff, 1, 0x11, 2, 0xff, 0, 0, 0, 0, 0, 1, 0, 5, 3, 0, 0, 1, 1, 1, 9, 3, 0, 1, 3, 1, 1, 0, 1, 0,
    1, 0, 1, 2, 0, 0, 1, 2, 0, 0, 0, 0, 0, 0, 0, 2, 0, 0, 0, 6, 3, 0, 1, 0xd, 4, 0xd, 1, 1, 4, 0,
    0, 0xf, 0, 0, 0, 7, 0, 0, 0, 1, 2, 0x40, 0x40, 4,
];

/// The integers of its points.
pub(crate) const FOLDED_POINTS: [i32; 20] = [
    2, 2, 1, 4, 3, 0, 2, 0, 4, 0, 2, 0, 0, 7, 0, 0, 0, 0, 7, 0,
];

/// Two triangles with texture coordinates, which are predicted from the positions.
pub(crate) const TEXTURED: [u8; 99] = [
    0x44, 0x52, 0x41, 0x43, 0x4f, 2, 2, 1, 1, 0, 0, 0, 4, 2, 1, 2, 0, 0, 1, 0x1f, 0xff, 1, 0x11,
    0xff, 1, 0x11, 2, 0xff, 0, 0, 0, 0, 0, 1, 0, 5, 3, 0, 0, 1, 1, 3, 5, 2, 0, 1, 1, 1, 1, 0, 1, 0,
    1, 0, 1, 2, 0, 0, 1, 0, 0, 0, 0, 0, 0, 0, 0, 4, 0, 0, 0, 5, 1, 0, 1, 0, 3, 3, 4, 0, 2, 0, 0, 2,
    0, 0, 0, 0x80, 2, 0x80, 0x70, 0, 0, 0, 0, 9, 0, 0, 0,
];

/// The integers of its points.
pub(crate) const TEXTURED_POINTS: [i32; 20] = [
    4, 4, 0, 8, 9, 0, 4, 0, 0, 8, 4, 0, 0, 8, 0, 0, 0, 0, 0, 0,
];

/// The faces of both.
pub(crate) const TWO_FACES: [[u32; 3]; 2] = [[0, 1, 2], [1, 3, 2]];

/// Two triangles whose normals of three bits have a seam at the side between them.
pub(crate) const CREASED: [u8; 100] = [
    0x44, 0x52, 0x41, 0x43, 0x4f, 2, 2, 1, 1, 0, 0, 0, 4, 2, 1, 2, 0, 0, 1, 0x1f, 0xff, 1, 0x11, 1,
    1, 0x10, 2, 0xff, 0, 0, 0, 1, 0, 1, 0, 5, 3, 0, 0, 1, 1, 1, 9, 3, 0, 1, 3, 1, 1, 0, 1, 0, 1, 0,
    1, 2, 0, 0, 1, 2, 0, 0, 0, 0, 0, 0, 0, 2, 0, 0, 0, 6, 3, 0, 1, 0, 3, 0, 3, 0, 3, 0, 0, 0, 0, 0,
    0, 7, 0, 0, 0, 3, 0, 0, 0, 0xff, 2, 0x66, 0x40, 3,
];

/// The integers of its points.
pub(crate) const CREASED_POINTS: [i32; 30] = [
    2, 2, 1, 6, 6, 0, 2, 0, 6, 6, 2, 0, 0, 6, 6, 0, 2, 0, 3, 6, 0, 0, 0, 3, 6, 2, 0, 0, 3, 6,
];

/// Its faces.
pub(crate) const CREASED_FACES: [[u32; 3]; 2] = [[0, 1, 2], [3, 4, 5]];

/// A stream with another byte at a place.
pub(crate) fn with_byte(
    alloc: Global,
    bytes: &[u8],
    at: usize,
    byte: u8,
) -> Result<Vec<u8>, AllocError> {
    let mut whole = bytes.to_vec(alloc)?;
    if at < whole.len() {
        whole[at] = byte;
    }
    Ok(whole)
}
