//! The kinds of generated meshes (this project's choice).

/// A kind of mesh. Its size n says how many cells it has each way.
#[derive(Clone, Copy, Debug, PartialEq, Eq)]
pub enum GenKind {
    /// A square of n times n cells over (n + 1)^2 points, at drawn heights.
    Grid,
    /// n times n cells over n^2 points, closed both ways.
    Torus,
    /// A grid without the cells whose two numbers are odd and below n - 1.
    Holes,
    /// n^2 triangles round one point, which alone they have in common.
    Fans,
    /// n times n cells, each with four points and a drawn label for itself.
    Seams,
}
