//! Places of vertices.

ghost use Rattle.std.specs.Prelude.{◌≡◌, ◌-ℤ◌};
ghost use Rattle.wrapped_vectors.specs.Vectors.{apart};

use crate::vectors::{Vector, vector_at};

/// The place of a vertex, by three coordinates: integers of a position attribute, in its unit.
#[derive(Clone, Copy, Debug)]
pub struct Place {
    pub x: i32,
    pub y: i32,
    pub z: i32,
}

/// The whole difference of two coordinates, which has 33 bits.
pub fn difference_of(a: i32, b: i32) -> i64
    ensures { result ≡ a -ℤ b }
{
    a as i64 - b as i64
}

/// The vector from place `b` to place `a`, whole.
pub fn apart(a: Place, b: Place) -> Vector
    ensures { result ≡ apart a b }
{
    vector_at(
        difference_of(a.x, b.x),
        difference_of(a.y, b.y),
        difference_of(a.z, b.z),
    )
}
