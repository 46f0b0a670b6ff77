//! Points in lists of integers, two for each.

ghost use Rattle.std.specs.Prelude.{◌≡◌, ◌+◌, ◌*◌, ◌<◌, length, slice_set};
ghost use Rattle.octahedron.specs.Pairs.{pair_in};
ghost use Rattle.octahedron.specs.Square.{point};

use octahedron::Point;

/// The point of these coordinates.
fn point_at(s: i32, t: i32) -> Point
    ensures { result ≡ point s t }
{
    Point { s, t }
}

/// The point of entry e of a list.
pub(crate) fn pair_at(integers: &[i32], e: usize) -> Point
    requires { 2 * e + 1 < length integers.now }
    ensures { result ≡ pair_in integers.now e }
{
    point_at(integers[2 * e], integers[2 * e + 1])
}

/// Writes the point of entry e.
pub(crate) fn put_pair(integers: &mut [i32], e: usize, p: Point)
    requires { 2 * e + 1 < length integers.old }
    ensures { integers.new ≡ slice_set (slice_set integers.old (2 * e) p.s) (2 * e + 1) p.t }
{
    integers[2 * e] = p.s;
    integers[2 * e + 1] = p.t;
}
