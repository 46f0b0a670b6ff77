//! Restoring texture coordinates from corrections, in place.

ghost use Rattle.std.specs.Prelude.{◌≡◌, ◌+◌, ◌*◌, ◌<◌, ◌≤◌, Ok, Err, MatchResult, length, take};
ghost use Rattle.texture_prediction.specs.Texture.{left_of};
ghost use Rattle.predict.specs.Surfaces.{surface, IsOverTable};
ghost use Rattle.texture_values.specs.Pairs.{pairs_of};
ghost use Rattle.texture_values.specs.Foretold.{texture_step, Foretells};
ghost use Rattle.texture_values.specs.Restored.{restored_pair, restored_texture};

use crate::corners::entries_round;
use crate::foretold::from_entries;
use crate::pairs::{pair_at, pair_with, put_pair};
use drc_base::Kind;
use predict::{Ordered, Wrap};
use texture_prediction::Pair;
use wrapped_vectors::Place;

/// The pair at this prediction and correction, component by component.
fn restored_pair(wrap: &Wrap, prediction: Pair, correction: Pair) -> Pair
    ensures { result ≡ restored_pair wrap.now prediction correction }
{
    pair_with(
        wrap.restored(prediction.u, correction.u),
        wrap.restored(prediction.v, correction.v),
    )
}

/// What the pair of entry `e` is foretold to be over a surface, and how many of the orientations are left then.
fn foretold(
    on: &Ordered<'_>,
    places: &[Place],
    values: &[i32],
    e: usize,
    orientations: &[bool],
    left: usize,
) -> Result<(Pair, usize), Kind>
    requires over { IsOverTable on.now }
    requires entry { e < length on.now.order.now.corner_of_entry }
    requires place { e < length places.now }
    requires pair { 2 * e + 1 < length values.now }
    requires left { left ≤ length orientations.now }
    ensures { Foretells (texture_step (surface on.now) places.now (take e (pairs_of values.now)) (left_of orientations.now left)) orientations.now result }
{
    let (n, p) = entries_round(on, e);
    from_entries(
        places,
        values,
        e,
        n as usize,
        p as usize,
        orientations,
        left,
    )
}

/// Turns corrections of texture coordinates into the values that they restore, in place: two numbers for each entry of an ordered surface.
/// `places` has the place of each entry, and `wrap` the range of both coordinates. An entry is foretold over the side of its face that is
/// opposite to its corner, where both entries there come before; else its pair is foretold to be that of the corner after its own, where
/// that comes before, or of the entry before, and zeros for the first entry. An orientation is the last one that is left of `orientations`;
/// those that are left over are ignored. At the first entry that shows it `Projection`, where numbers are too great for products of 64
/// bits, or `FlagsShort`, where an orientation is wanted and none is left; the values are then restored in part. It takes no memory (Draco
/// 1.5.5, MeshPredictionSchemeTexCoordsPortableDecoder).
pub fn restore_texture(
    on: &Ordered<'_>,
    places: &[Place],
    wrap: &Wrap,
    orientations: &[bool],
    values: &mut [i32],
) -> Result<(), Kind>
    requires over { IsOverTable on.now }
    requires each_place { length places.now ≡ length on.now.order.now.corner_of_entry }
    requires whole { length values.old ≡ length on.now.order.now.corner_of_entry * 2 }
    ensures { MatchResult result (λ _. restored_texture (surface on.now) places.now wrap.now orientations.now values.old ≡ Ok values.new) (λ k. restored_texture (surface on.now) places.now wrap.now orientations.now values.old ≡ Err k) }
{
    let wrap = wrap.copy();
    let mut left = orientations.len();
    for e in 0..on.order.corner_of_entry.len() {
        let (prediction, rest) = foretold(on, places, values, e, orientations, left)?;
        let correction = pair_at(values, e);
        put_pair(values, e, restored_pair(&wrap, prediction, correction));
        left = rest;
    }
    Ok(())
}
