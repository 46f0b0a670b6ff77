//! Points of the square, and directions.

ghost use Rattle.std.specs.Prelude.{◌≡◌};
ghost use Rattle.octahedron.specs.Square.{point};

/// A pair of integers: a point about the centre of a square, a value of a square, or a correction.
#[derive(Clone, Copy, Debug, PartialEq, Eq)]
pub struct Point {
    pub s: i32,
    pub t: i32,
}

/// The point of these coordinates.
pub(crate) fn point_at(s: i32, t: i32) -> Point
    ensures { result ≡ point s t }
{
    Point { s, t }
}

/// A direction by whole numbers.
#[derive(Clone, Copy, Debug, PartialEq, Eq)]
pub struct Direction {
    pub x: i32,
    pub y: i32,
    pub z: i32,
}
