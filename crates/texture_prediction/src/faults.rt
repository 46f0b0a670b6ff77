//! What is lacking where a prediction fails.

/// What is lacking where the texture coordinates of a corner can't be predicted.
#[derive(Clone, Copy, Debug)]
pub enum Lacking {
    /// Room: the coordinates, or the way along the side, are too great for products of 64 bits.
    Room,
    /// Flags: an orientation is wanted and none is left.
    Flags,
}
