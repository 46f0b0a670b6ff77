//! Directions of sums of normals: a sum is made small enough for products of 64 bits, and its first two components are brought to parts of
//! the centre of the square; the third has what they leave.

ghost use Rattle.std.specs.Prelude.{◌≡◌, ◌+◌, ◌-◌, ◌*◌, ◌^◌, ◌<◌, ◌≤◌, ◌<ℤ◌, min, pos, ◌*ℤ◌, int_div, unsigned_abs};
ghost use Rattle.octahedron.specs.Directions.{IsOnOctahedron};
ghost use Rattle.normal_prediction.specs.Directions.{abs_sum, capped_sum, direction_at, shrunk, rest, scaled, direction, opposite};

use octahedron::{Direction, Square};
use wrapped_vectors::{Vector, vector_at};

/// Above this sum of sizes components are divided (Draco 1.5.5, MeshPredictionSchemeGeometricNormalPredictorArea).
const UPPER_BOUND: u64 = 0x2000_0000;

/// The greatest number of 64 bits with a sign, 2^63 - 1.
const GREATEST: u64 = 0x7fff_ffff_ffff_ffff;

/// The direction of these components.
fn direction_at(x: i32, y: i32, z: i32) -> Direction
    ensures { result ≡ direction_at x y z }
{
    Direction { x, y, z }
}

/// The sum of the sizes of the components, at most 2^63 - 1 (Draco 1.5.5, VectorD::AbsSum).
fn capped_sum(n: Vector) -> u64
    ensures { result ≡ capped_sum n }
{
    let x = n.x.unsigned_abs();
    let y = n.y.unsigned_abs();
    let z = n.z.unsigned_abs();
    let all = x.saturating_add(y).saturating_add(z);
    all.min(GREATEST)
}

/// A quotient, toward zero, by a number from 1 to 2^34.
fn shrunk_by(n: i64, k: u64) -> i64
    requires some { 0 < k }
    requires few { k < 2 ^ 35 }
    requires near { unsigned_abs n < 2 ^ 30 * k }
    ensures value { result ≡ int_div n (pos k) }
    ensures small { unsigned_abs result < 2 ^ 30 }
{
    n / k as i64
}

/// A vector of nearly the same direction, whose components' sizes are below 2^30.
fn shrunk(n: Vector) -> Vector
    ensures value { result ≡ shrunk n }
    ensures x { unsigned_abs result.x < 2 ^ 30 }
    ensures y { unsigned_abs result.y < 2 ^ 30 }
    ensures z { unsigned_abs result.z < 2 ^ 30 }
{
    let sum = capped_sum(n);
    if sum > UPPER_BOUND {
        let k = sum / UPPER_BOUND;
        vector_at(shrunk_by(n.x, k), shrunk_by(n.y, k), shrunk_by(n.z, k))
    } else {
        n
    }
}

/// A component's part of the centre, toward zero.
fn part(n: i64, c: i32, s: u64) -> i32
    requires some { 0 < s }
    requires few { s < 2 ^ 33 }
    requires within { unsigned_abs n ≤ s }
    requires small { unsigned_abs n < 2 ^ 30 }
    requires centre { pos 0 <ℤ c }
    requires least { c <ℤ pos (2 ^ 29) }
    ensures { result ≡ int_div (n *ℤ c) (pos s) }
{
    divided_by(times(n, c), s) as i32
}

/// The product.
fn times(n: i64, c: i32) -> i64
    requires small { unsigned_abs n < 2 ^ 30 }
    requires centre { pos 0 <ℤ c }
    requires least { c <ℤ pos (2 ^ 29) }
    ensures { result ≡ n *ℤ c }
{
    n * c as i64
}

/// The quotient, toward zero.
fn divided_by(n: i64, s: u64) -> i64
    requires some { 0 < s }
    requires few { s < 2 ^ 33 }
    ensures { result ≡ int_div n (pos s) }
{
    n / s as i64
}

/// What two components leave of the centre for the third.
fn rest(c: i32, x: i32, y: i32, sign: i64) -> i32
    requires within { unsigned_abs x + unsigned_abs y ≤ unsigned_abs c }
    requires centre { pos 0 <ℤ c }
    requires least { c <ℤ pos (2 ^ 29) }
    ensures { result ≡ rest c x y sign }
{
    let both = (x.unsigned_abs() + y.unsigned_abs()) as i32;
    if sign < 0 { both - c } else { c - both }
}

/// A vector as a direction; the sizes of its components add up to `s`.
fn scaled(m: Vector, c: i32, s: u64) -> Direction
    requires sum { s ≡ abs_sum m }
    requires some { 0 < s }
    requires x { unsigned_abs m.x < 2 ^ 30 }
    requires y { unsigned_abs m.y < 2 ^ 30 }
    requires z { unsigned_abs m.z < 2 ^ 30 }
    requires centre { pos 0 <ℤ c }
    requires least { c <ℤ pos (2 ^ 29) }
    ensures value { result ≡ scaled c m s }
    ensures on { IsOnOctahedron c result }
{
    let x = part(m.x, c, s);
    let y = part(m.y, c, s);
    direction_at(x, y, rest(c, x, y, m.z))
}

/// The direction of a sum of normals: the sizes of its components add up to the centre of the square. That of the zero vector is along x
/// (Draco 1.5.5, OctahedronToolBox::CanonicalizeIntegerVector).
pub fn direction_of(square: Square, n: Vector) -> Direction
    ensures value { result ≡ direction square.centre n }
    ensures on { IsOnOctahedron square.centre result }
{
    let m = shrunk(n);
    let s = m.x.unsigned_abs() + (m.y.unsigned_abs() + m.z.unsigned_abs());
    if s == 0 {
        direction_at(square.centre, 0, 0)
    } else {
        scaled(m, square.centre, s)
    }
}

/// The opposite direction, as a flip bit that is set asks for it (Draco 1.5.5, MeshPredictionSchemeGeometricNormalDecoder).
pub fn opposite(square: Square, v: Direction) -> Direction
    requires { IsOnOctahedron square.centre v }
    ensures value { result ≡ opposite v }
    ensures on { IsOnOctahedron square.centre result }
{
    direction_at(-v.x, -v.y, -v.z)
}
