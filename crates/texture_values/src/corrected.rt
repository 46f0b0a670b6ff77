//! Corrections of texture coordinates, and the orientations that are written with them.

ghost use Rattle.std.specs.Prelude.{◌≡◌, ◌+◌, ◌*◌, ◌<◌, ◌≤◌, ◌≤ℤ◌, ◌++◌, [], ◌∷◌, ℤ, Ok, Err, IfOk, MatchResult, length, reverse, take, vec_len, vec_capacity};
ghost use Rattle.std.specs.Option.{option_to_list};
ghost use Rattle.std.specs.List.{All};
ghost use Rattle.predict.specs.Wrap.{least_correction, greatest_correction};
ghost use Rattle.predict.specs.Surfaces.{surface, IsOverTable};
ghost use Rattle.texture_values.specs.Restored.{restored_texture};
ghost use Rattle.texture_values.specs.Chosen.{chosen_texture};
ghost use Rattle.texture_values.specs.Corrected.{correction_pair, corrected_texture};

use crate::chosen::choice_at;
use crate::pairs::pair_at;
use drc_base::{Kind, Memory};
use predict::{Ordered, Wrap};
use std::alloc::Global;
use texture_prediction::Pair;
use wrapped_vectors::Place;

/// Puts the correction of a pair at a prediction behind others.
fn put_correction(wrap: &Wrap, prediction: Pair, x: Pair, out: &mut Vec<i32>)
    requires u { (wrap.now.low ≤ℤ x.u) × (x.u ≤ℤ wrap.now.high) }
    requires v { (wrap.now.low ≤ℤ x.v) × (x.v ≤ℤ wrap.now.high) }
    requires room { vec_len out.old + 2 ≤ vec_capacity out.old }
    ensures put { out.new.items ≡ out.old.items ++ (correction_pair wrap.now prediction x).u ∷ (correction_pair wrap.now prediction x).v ∷ [] }
    ensures small { All (λ c. (least_correction wrap.now ≤ℤ c) × (c ≤ℤ greatest_correction wrap.now)) out.old.items → All (λ c. (least_correction wrap.now ≤ℤ c) × (c ≤ℤ greatest_correction wrap.now)) out.new.items }
    ensures len { vec_len out.new ≡ vec_len out.old + 2 }
    ensures capacity { vec_capacity out.new ≡ vec_capacity out.old }
{
    let u = wrap.correction(prediction.u, x.u);
    let v = wrap.correction(prediction.v, x.v);
    out.push_reserved(u);
    out.push_reserved(v);
}

/// Puts an orientation, where there is one, behind others.
fn put_orientation(orientation: Option<bool>, out: &mut Vec<bool>)
    requires { vec_len out.old < vec_capacity out.old }
    ensures put { out.new.items ≡ out.old.items ++ option_to_list orientation }
    ensures few { vec_len out.new ≤ vec_len out.old + 1 }
    ensures capacity { vec_capacity out.new ≡ vec_capacity out.old }
{
    if let Some(plus) = orientation {
        out.push_reserved(plus);
    }
}

/// Turns a list round.
fn turn_round(list: &mut Vec<bool>)
    ensures { list.new.items ≡ reverse list.old.items }
{
    list.as_mut_slice().reverse();
}

/// The corrections of texture coordinates, two numbers for each entry of an ordered surface, and the orientations that are written with
/// them: from both `restore_texture` restores the coordinates. `places` has the place of each entry, and `wrap` the range in which both
/// coordinates lie; a correction is of at most half a span. An entry that wants an orientation gets that of the nearer candidate, by the
/// square of the distance to 64 bits, before a candidate is taken to 32 bits; the orientation isn't set where both are as near. The last
/// entry's orientation stands first, and there are no more than entries. `Projection` where numbers are too great for products of 64 bits
/// at some entry. It takes memory for the corrections and the orientations, and fails only when out of memory (Draco 1.5.5,
/// MeshPredictionSchemeTexCoordsPortableEncoder).
pub fn correct_texture(
    alloc: Global,
    on: &Ordered<'_>,
    places: &[Place],
    wrap: &Wrap,
    values: &[i32],
) -> Result<Result<(Vec<i32>, Vec<bool>), Kind>, Memory>
    requires over { IsOverTable on.now }
    requires each_place { length places.now ≡ length on.now.order.now.corner_of_entry }
    requires whole { length values.now ≡ length on.now.order.now.corner_of_entry * 2 }
    requires within { All (λ x. (wrap.now.low ≤ℤ x) × (x ≤ℤ wrap.now.high)) values.now }
    ensures orientations { IfOk result (λ r. MatchResult r (λ x. chosen_texture (surface on.now) places.now values.now ≡ Ok (reverse x.1.items)) (λ k. chosen_texture (surface on.now) places.now values.now ≡ Err k)) }
    ensures corrections { IfOk result (λ r. IfOk r (λ x. corrected_texture (surface on.now) places.now wrap.now x.1.items values.now ≡ Ok x.0.items)) }
    ensures restores { IfOk result (λ r. IfOk r (λ x. restored_texture (surface on.now) places.now wrap.now x.1.items x.0.items ≡ Ok values.now)) }
    ensures few { IfOk result (λ r. IfOk r (λ x. length x.1.items ≤ length on.now.order.now.corner_of_entry)) }
    ensures small { IfOk result (λ r. IfOk r (λ x. All (λ c. (least_correction wrap.now ≤ℤ c) × (c ≤ℤ greatest_correction wrap.now)) x.0.items)) }
{
    let wrap = wrap.copy();
    let entries = on.order.corner_of_entry.len();
    let mut corrections = Vec::with_capacity(alloc, values.len())?;
    let mut orientations = Vec::with_capacity(alloc, entries)?;
    for e in 0..entries {
        match choice_at(on, places, values, e) {
            Err(kind) => return Ok(Err(kind)),
            Ok((prediction, orientation)) => {
                put_correction(&wrap, prediction, pair_at(values, e), &mut corrections);
                put_orientation(orientation, &mut orientations);
            }
        }
    }
    turn_round(&mut orientations);
    Ok(Ok((corrections, orientations)))
}
