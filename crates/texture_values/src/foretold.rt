//! What one entry's pair is foretold to be, from the pairs before.

ghost use Rattle.std.specs.Prelude.{◌≡◌, ◌+◌, ◌*◌, ◌<◌, ◌≤◌, ◌&&◌, nat_lt, true, length, take};
ghost use Rattle.texture_prediction.specs.Texture.{left_of};
ghost use Rattle.texture_values.specs.Pairs.{pairs_of};
ghost use Rattle.texture_values.specs.Foretold.{kind_of, without_side, over_entries, from_entries, Foretells};

use crate::pairs::{pair_at, pair_with};
use drc_base::Kind;
use texture_prediction::{Lacking, Pair, over_side};
use wrapped_vectors::Place;

/// The fault of what is lacking.
fn kind_of(lacking: Lacking) -> Kind
    ensures { result ≡ kind_of lacking }
{
    match lacking {
        Lacking::Room => Kind::Projection,
        Lacking::Flags => Kind::FlagsShort,
    }
}

/// Whether two entries come before a third one.
pub(crate) fn are_before(n: usize, p: usize, e: usize) -> bool
    ensures { result ≡ (nat_lt n e && nat_lt p e) }
{
    n < e && p < e
}

/// The pair of entry `n` where it comes before entry `e`, else that of the entry before, and zeros for the first entry.
pub(crate) fn without_side(values: &[i32], e: usize, n: usize) -> Pair
    requires { 2 * e + 1 < length values.now }
    ensures { result ≡ without_side e n (take e (pairs_of values.now)) }
{
    if n < e {
        pair_at(values, n)
    } else if e > 0 {
        pair_at(values, e - 1)
    } else {
        pair_with(0, 0)
    }
}

/// The pair of entry `e` over the side between entries `n` and `p`, which come before.
fn over_entries(
    places: &[Place],
    values: &[i32],
    e: usize,
    n: usize,
    p: usize,
    orientations: &[bool],
    left: usize,
) -> Result<(Pair, usize), Kind>
    requires place { e < length places.now }
    requires entry { 2 * e + 1 < length values.now }
    requires next { n < e }
    requires previous { p < e }
    requires left { left ≤ length orientations.now }
    ensures { Foretells (over_entries places.now e n p (take e (pairs_of values.now)) (left_of orientations.now left)) orientations.now result }
{
    let (a, b) = (pair_at(values, n), pair_at(values, p));
    match over_side(places[e], places[n], places[p], a, b, orientations, left) {
        Ok(x) => Ok(x),
        Err(lacking) => Err(kind_of(lacking)),
    }
}

/// What the pair of entry `e` is foretold to be, where the entries of the corners after and before its own are `n` and `p`, and how many of
/// the orientations are left then.
pub(crate) fn from_entries(
    places: &[Place],
    values: &[i32],
    e: usize,
    n: usize,
    p: usize,
    orientations: &[bool],
    left: usize,
) -> Result<(Pair, usize), Kind>
    requires place { e < length places.now }
    requires entry { 2 * e + 1 < length values.now }
    requires left { left ≤ length orientations.now }
    ensures { Foretells (from_entries places.now e n p (take e (pairs_of values.now)) (left_of orientations.now left)) orientations.now result }
{
    if are_before(n, p, e) {
        over_entries(places, values, e, n, p, orientations, left)
    } else {
        Ok((without_side(values, e, n), left))
    }
}
