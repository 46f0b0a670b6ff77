//! Vectors of three whole numbers.

ghost use Rattle.std.specs.Prelude.{◌≡◌, ◌-ℤ◌, ◌*ℤ◌};
ghost use Rattle.wrapped_vectors.specs.Wrapped.{signed};
ghost use Rattle.wrapped_vectors.specs.Vectors.{cross, dot, reduced, squared, vector, vector_sum};

use crate::sums::{difference, product, sum};

/// A vector of three whole numbers of 64 bits.
#[derive(Clone, Copy, Debug)]
pub struct Vector {
    pub x: i64,
    pub y: i64,
    pub z: i64,
}

/// The vector of these components.
pub fn vector_at(x: i64, y: i64, z: i64) -> Vector
    ensures { result ≡ vector x y z }
{
    Vector { x, y, z }
}

/// The sum of two vectors, each component to 64 bits.
pub fn vector_sum(a: Vector, b: Vector) -> Vector
    ensures { result ≡ reduced (vector_sum a b) }
{
    vector_at(sum(a.x, b.x), sum(a.y, b.y), sum(a.z, b.z))
}

/// The sum of the products of the components, to 64 bits (Draco 1.5.5, VectorD::Dot).
pub fn dot(a: Vector, b: Vector) -> i64
    ensures { result ≡ signed (dot a b) }
{
    let xy = sum(product(a.x, b.x), product(a.y, b.y));
    sum(xy, product(a.z, b.z))
}

/// The square of a vector's length, modulo 2^64 (Draco 1.5.5, VectorD::SquaredNorm).
pub fn squared(d: Vector) -> u64
    ensures { result ≡ squared d }
{
    dot(d, d).cast_unsigned()
}

/// The difference of two products, to 64 bits.
fn difference_of_products(a: i64, b: i64, c: i64, d: i64) -> i64
    ensures { result ≡ signed (a *ℤ b -ℤ c *ℤ d) }
{
    difference(product(a, b), product(c, d))
}

/// The cross product, each component to 64 bits (Draco 1.5.5, CrossProduct).
pub fn cross(u: Vector, v: Vector) -> Vector
    ensures { result ≡ reduced (cross u v) }
{
    vector_at(
        difference_of_products(u.y, v.z, u.z, v.y),
        difference_of_products(u.z, v.x, u.x, v.z),
        difference_of_products(u.x, v.y, u.y, v.x),
    )
}
