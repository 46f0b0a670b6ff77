//! Points in lists of integers, two for each.

ghost use Rattle.std.specs.Prelude.{◌≡◌, ◌+◌, ◌*◌, ◌<◌, ◌≤◌, length, slice_set};
ghost use Rattle.octahedron.specs.Pairs.{pair_in, pair_before};

use crate::points::{Point, point_at};

/// The point of entry e of a list.
pub(crate) fn pair_at(integers: &[i32], e: usize) -> Point
    requires { 2 * e + 1 < length integers.now }
    ensures { result ≡ pair_in integers.now e }
{
    point_at(integers[2 * e], integers[2 * e + 1])
}

/// The point before entry e of a list, and the first corner before the first one.
pub(crate) fn point_before(integers: &[i32], e: usize) -> Point
    requires { 2 * e ≤ length integers.now }
    ensures { result ≡ pair_before integers.now e }
{
    if e == 0 {
        point_at(0, 0)
    } else {
        pair_at(integers, e - 1)
    }
}

/// Writes the point of entry e.
pub(crate) fn put_pair(integers: &mut [i32], e: usize, p: Point)
    requires { 2 * e + 1 < length integers.old }
    ensures { integers.new ≡ slice_set (slice_set integers.old (2 * e) p.s) (2 * e + 1) p.t }
{
    integers[2 * e] = p.s;
    integers[2 * e + 1] = p.t;
}
