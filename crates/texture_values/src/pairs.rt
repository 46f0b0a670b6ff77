//! Pairs of texture coordinates in flat lists, in which two numbers are a pair.

ghost use Rattle.std.specs.Prelude.{◌≡◌, ◌+◌, ◌*◌, ◌<◌, length, set};
ghost use Rattle.texture_prediction.specs.Projection.{pair};
ghost use Rattle.texture_values.specs.Pairs.{pair_of, pairs_of};

use texture_prediction::Pair;

/// The pair of these coordinates.
pub(crate) fn pair_with(u: i32, v: i32) -> Pair
    ensures { result ≡ pair u v }
{
    Pair { u, v }
}

/// The pair of an entry.
pub(crate) fn pair_at(values: &[i32], e: usize) -> Pair
    requires { 2 * e + 1 < length values.now }
    ensures { result ≡ pair_of (pairs_of values.now) e }
{
    pair_with(values[2 * e], values[2 * e + 1])
}

/// Puts a pair in the place of that of an entry.
pub(crate) fn put_pair(values: &mut [i32], e: usize, x: Pair)
    requires { 2 * e + 1 < length values.old }
    ensures { pairs_of values.new ≡ set (pairs_of values.old) e x }
{
    values[2 * e] = x.u;
    values[2 * e + 1] = x.v;
}
