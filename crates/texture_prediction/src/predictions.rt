//! Prediction of the third corner of a triangle.

ghost use Rattle.std.specs.Prelude.{◌≡◌, ◌<◌, ◌≤◌, ◌≢◌, pos, neg_ℤ, length};
ghost use Rattle.texture_prediction.specs.Projection.{pair, picked, projection};
ghost use Rattle.texture_prediction.specs.Texture.{same_pair, over_side, by_flag, left_of, Tells};

use crate::faults::Lacking;
use crate::pairs::{Pair, pair_at, same_pair};
use crate::projections::{Candidates, Projected, coordinate, project};
use wrapped_vectors::Place;

/// The candidate of an orientation, to 32 bits: the sum where it is set, else the difference.
pub fn picked_by(c: Candidates, plus: bool) -> Pair
    requires some { c.square ≢ pos 0 }
    requires more { c.square ≢ neg_ℤ (pos 1) }
    ensures { result ≡ picked c plus }
{
    pair_at(
        coordinate(c.along_u, c.across_u, c.square, plus),
        coordinate(c.along_v, c.across_v, c.square, plus),
    )
}

/// The candidate that the last of the first `left` flags picks, and how many flags are left then.
fn by_flag(c: Candidates, flags: &[bool], left: usize) -> Result<(Pair, usize), Lacking>
    requires some { c.square ≢ pos 0 }
    requires more { c.square ≢ neg_ℤ (pos 1) }
    requires left { left ≤ length flags.now }
    ensures { Tells (by_flag c (left_of flags.now left)) flags.now result }
{
    if left == 0 {
        return Err(Lacking::Flags);
    }
    Ok((picked_by(c, flags[left - 1]), left - 1))
}

/// The prediction of the corner at `tip`, over the side from the next corner, at place `n` with coordinates `a`, to the previous one, at
/// place `p` with coordinates `b`, and how many of the flags, which are orientations, are left then: an orientation is the last of the
/// first `left` ones. Equal coordinates, and a side of no length, take none. `Lacking::Room` where numbers are too great, and behind it
/// `Lacking::Flags` where no orientation is left (Draco 1.5.5, MeshPredictionSchemeTexCoordsPortablePredictor).
pub fn over_side(
    tip: Place,
    n: Place,
    p: Place,
    a: Pair,
    b: Pair,
    flags: &[bool],
    left: usize,
) -> Result<(Pair, usize), Lacking>
    requires { left ≤ length flags.now }
    ensures { Tells (over_side tip n p a b (left_of flags.now left)) flags.now result }
{
    if same_pair(a, b) {
        return Ok((a, left));
    }
    match project(tip, n, p, a, b) {
        Projected::Short => Ok((a, left)),
        Projected::Great => Err(Lacking::Room),
        Projected::At(c) => by_flag(c, flags, left),
    }
}
