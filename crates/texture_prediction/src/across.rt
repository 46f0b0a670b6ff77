//! The height of the third corner over a side, and how far coordinates come along the side and across it.

ghost use Rattle.std.specs.Prelude.{◌≡◌, ◌<◌, ◌^◌, ◌≢◌, pos, neg_ℤ, ◌*ℤ◌, ◌+ℤ◌, ◌-ℤ◌};
ghost use Rattle.wrapped_vectors.specs.Wrapped.{signed};
ghost use Rattle.wrapped_vectors.specs.Vectors.{reduced};
ghost use Rattle.texture_prediction.specs.Projection.{foot_at, from_foot, height, along_at};

use crate::numbers::quotient;
use wrapped_vectors::{
    Place, Vector, difference, difference_of, product, root_of, squared, sum, vector_at,
};

/// A component of the vector from the foot to the corner, to 64 bits.
fn component(tip: i32, n: i32, along: i64, d: i64, square: i64) -> i64
    requires some { square ≢ pos 0 }
    requires more { square ≢ neg_ℤ (pos 1) }
    ensures { result ≡ signed (tip -ℤ foot_at n along d square) }
{
    let forward = quotient(product(along, d), square);
    difference(difference_of(tip, n), forward)
}

/// The vector from the foot to the corner, to 64 bits.
pub fn from_foot(tip: Place, n: Place, d: Vector, along: i64, square: i64) -> Vector
    requires some { square ≢ pos 0 }
    requires more { square ≢ neg_ℤ (pos 1) }
    ensures { result ≡ reduced (from_foot tip n d along square) }
{
    vector_at(
        component(tip.x, n.x, along, d.x, square),
        component(tip.y, n.y, along, d.y, square),
        component(tip.z, n.z, along, d.z, square),
    )
}

/// The height of the corner over the side, times the side's length, which has 32 bits.
pub fn height(f: Vector, square: u64) -> u64
    ensures value { result ≡ height f square }
    ensures small { result < 2 ^ 32 }
{
    root_of(squared(f).wrapping_mul(square))
}

/// How far a coordinate comes along the side, times the square of its length.
pub fn along_at(a: i32, b: i32, along: i64, square: i64) -> i64
    ensures { result ≡ along_at a b along square }
{
    let from = product(a as i64, square);
    sum(from, product(along, difference_of(b, a)))
}

/// How far a coordinate comes across the side, times the square of its length.
pub fn across_at(a: i32, b: i32, height: u64) -> i64
    requires { height < 2 ^ 32 }
    ensures { result ≡ signed ((b -ℤ a) *ℤ pos height) }
{
    product(difference_of(b, a), height as i64)
}
