//! What is foretold of an entry's pair where its orientation may be chosen.

ghost use Rattle.std.specs.Prelude.{◌≡◌, ◌≢◌, ◌+◌, ◌*◌, ◌<◌, pos, neg_ℤ, Some, length, take};
ghost use Rattle.texture_prediction.specs.Projection.{picked};
ghost use Rattle.texture_prediction.specs.Texture.{same_pair};
ghost use Rattle.predict.specs.Surfaces.{surface, IsOverTable};
ghost use Rattle.texture_values.specs.Pairs.{pair_of, pairs_of};
ghost use Rattle.texture_values.specs.Foretold.{place_of};
ghost use Rattle.texture_values.specs.Chosen.{nearer, choice_over, choice_from, texture_choice};

use crate::corners::entries_round;
use crate::foretold::{are_before, without_side};
use crate::nearer::nearer;
use crate::pairs::pair_at;
use drc_base::Kind;
use predict::Ordered;
use texture_prediction::{Candidates, Pair, Projected, picked_by, project};
use wrapped_vectors::Place;

/// Whether two pairs are equal.
fn same_pair(a: Pair, b: Pair) -> bool
    ensures { result ≡ same_pair a b }
{
    a.u == b.u && a.v == b.v
}

/// The candidate that is nearer to a pair, and its orientation.
fn by_nearer(c: Candidates, x: Pair) -> (Pair, Option<bool>)
    requires some { c.square ≢ pos 0 }
    requires more { c.square ≢ neg_ℤ (pos 1) }
    ensures { result ≡ (picked c (nearer c x), Some (nearer c x)) }
{
    let plus = nearer(c, x);
    (picked_by(c, plus), Some(plus))
}

/// What is foretold of pair `x` over a side, and the orientation that it takes.
fn choice_over(
    tip: Place,
    n: Place,
    p: Place,
    a: Pair,
    b: Pair,
    x: Pair,
) -> Result<(Pair, Option<bool>), Kind>
    ensures { result ≡ choice_over tip n p a b x }
{
    if same_pair(a, b) {
        return Ok((a, None));
    }
    match project(tip, n, p, a, b) {
        Projected::Short => Ok((a, None)),
        Projected::Great => Err(Kind::Projection),
        Projected::At(c) => Ok(by_nearer(c, x)),
    }
}

/// The same of entry `e` over the side between entries `n` and `p`, which come before.
fn choice_between(
    places: &[Place],
    values: &[i32],
    e: usize,
    n: usize,
    p: usize,
) -> Result<(Pair, Option<bool>), Kind>
    requires place { e < length places.now }
    requires entry { 2 * e + 1 < length values.now }
    requires next { n < e }
    requires previous { p < e }
    ensures { result ≡ choice_over (place_of places.now e) (place_of places.now n) (place_of places.now p) (pair_of (take e (pairs_of values.now)) n) (pair_of (take e (pairs_of values.now)) p) (pair_of (pairs_of values.now) e) }
{
    choice_over(
        places[e],
        places[n],
        places[p],
        pair_at(values, n),
        pair_at(values, p),
        pair_at(values, e),
    )
}

/// The same of entry `e`, where the entries of the corners after and before its own are `n` and `p`.
fn choice_from(
    places: &[Place],
    values: &[i32],
    e: usize,
    n: usize,
    p: usize,
) -> Result<(Pair, Option<bool>), Kind>
    requires place { e < length places.now }
    requires entry { 2 * e + 1 < length values.now }
    ensures { result ≡ choice_from places.now e n p (take e (pairs_of values.now)) (pair_of (pairs_of values.now) e) }
{
    if are_before(n, p, e) {
        choice_between(places, values, e, n, p)
    } else {
        Ok((without_side(values, e, n), None))
    }
}

/// What is foretold of entry `e` over a surface, and the orientation that it takes.
pub(crate) fn choice_at(
    on: &Ordered<'_>,
    places: &[Place],
    values: &[i32],
    e: usize,
) -> Result<(Pair, Option<bool>), Kind>
    requires over { IsOverTable on.now }
    requires entry { e < length on.now.order.now.corner_of_entry }
    requires place { e < length places.now }
    requires pair { 2 * e + 1 < length values.now }
    ensures { result ≡ texture_choice (surface on.now) places.now (take e (pairs_of values.now)) (pair_of (pairs_of values.now) e) }
{
    let (n, p) = entries_round(on, e);
    choice_from(places, values, e, n as usize, p as usize)
}
