//! Pairs of texture coordinates.

ghost use Rattle.std.specs.Prelude.{◌≡◌};
ghost use Rattle.texture_prediction.specs.Projection.{pair};
ghost use Rattle.texture_prediction.specs.Texture.{same_pair};

/// The texture coordinates of a corner: integers or quantised values, in their attribute's unit.
#[derive(Clone, Copy, Debug)]
pub struct Pair {
    pub u: i32,
    pub v: i32,
}

/// The pair of these coordinates.
pub(crate) fn pair_at(u: i32, v: i32) -> Pair
    ensures { result ≡ pair u v }
{
    Pair { u, v }
}

/// Whether two pairs are equal.
pub(crate) fn same_pair(a: Pair, b: Pair) -> bool
    ensures { result ≡ same_pair a b }
{
    a.u == b.u && a.v == b.v
}
