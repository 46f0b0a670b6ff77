//! Sides and corners of triangles.

ghost use Rattle.std.specs.Prelude.{◌<◌};

/// Side `k` of face `face`, and the corner `k` opposite to it. Side `k` runs from corner `k + 1` to
/// corner `k + 2`, counted modulo 3.
#[derive(Clone, Copy, Debug, PartialEq, Eq)]
pub struct Side {
    /// The number of the face.
    pub face: u32,
    /// The number of the side in its face: 0, 1 or 2.
    pub k: u8,
    ghost in_face: { k < 3 },
}
