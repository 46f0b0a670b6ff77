//! Writing values by their prediction.

ghost use Rattle.std.specs.Prelude.{◌≡◌, ℕ, ◌≤◌, ◌<◌, ◌%◌, ◌++◌, true, Some, OnOk, length};
ghost use Rattle.std.specs.Option.{option_map};
ghost use Rattle.drc_bits.specs.Spells.{Spells};
ghost use Rattle.predict.specs.Schemes.{facts};
ghost use Rattle.predict.specs.Wrap.{CanWrap};
ghost use Rattle.predict.specs.Surfaces.{surface_of, surface_or, MayBeOver, CanStand};
ghost use Rattle.attr_section.specs.Values.{integers_at, corrected_at};
ghost use Rattle.attr_section.specs.WrittenParts.{range_of, integers_bytes, corrected_bytes, predicted_bytes, prediction_bytes, CanPredict, HasFewFlags, PredictedSpelled};

use crate::behind::put_behind;
use crate::correcting::corrected_symbols;
use crate::integer_writing::put_symbols;
use crate::ranges::range_of;
use drc_base::{MAX_VALUES, Memory};
use predict::{Ordered, Prediction, Transform, symbols_of};
use std::alloc::Global;

/// Appends values without a prediction.
#[tactic(auto, unfolding(crate::specs::WrittenParts::integers_bytes))]
pub(crate) fn put_integers(
    alloc: Global,
    out: &mut Vec<u8>,
    values: &[i32],
    comps: u32,
    plain: bool,
) -> Result<(), Memory>
    requires some { 0 < comps }
    requires whole { length values.now % comps ≡ 0 }
    requires few { length values.now ≤ MAX_VALUES }
    ensures bytes { OnOk result (out.new.items ≡ out.old.items ++ integers_bytes plain comps values.now) }
    ensures again { OnOk result (Spells (integers_at comps (length values.now)) (integers_bytes plain comps values.now) values.now) }
{
    let symbols = symbols_of(alloc, values)?;
    put_symbols(alloc, out, symbols, comps, plain)?;
    Ok(())
}

/// Appends values by a prediction that corrects, over an ordered surface where it needs one: the
/// corrections, and the flags beside them.
#[tactic(auto, unfolding(crate::specs::WrittenParts::flagged_bytes, crate::specs::WrittenParts::integers_bytes))]
fn put_corrected(
    alloc: Global,
    out: &mut Vec<u8>,
    on: Option<&Ordered<'_>>,
    prediction: Prediction,
    values: &[i32],
    comps: u32,
    plain: bool,
) -> Result<(), Memory>
    requires corrects { (facts prediction).corrects ≡ true }
    requires comps { 0 < comps }
    requires some { 0 < length values.now }
    requires whole { length values.now % comps ≡ 0 }
    requires few { length values.now ≤ MAX_VALUES }
    requires over { MayBeOver (option_map (λ t. t.now) on) }
    requires stand { CanStand prediction (surface_of (option_map (λ t. t.now) on)) comps (length values.now) }
    requires can_wrap { CanWrap (range_of values.now) }
    ensures bytes { OnOk result (out.new.items ≡ out.old.items ++ corrected_bytes plain (surface_or (surface_of (option_map (λ t. t.now) on.entry))) prediction comps values.now) }
    ensures again { OnOk result (HasFewFlags (surface_or (surface_of (option_map (λ t. t.now) on.entry))) → (at : ℕ) → Spells (corrected_at at (surface_or (surface_of (option_map (λ t. t.now) on.entry))) prediction comps (length values.now)) (corrected_bytes plain (surface_or (surface_of (option_map (λ t. t.now) on.entry))) prediction comps values.now) values.now) }
{
    let (least, greatest) = range_of(values);
    let (symbols, flags) = corrected_symbols(
        alloc, prediction, on, values, comps, least, greatest,
    )?;
    out.push(Transform::Wrap.byte())?;
    put_symbols(alloc, out, symbols, comps, plain)?;
    put_behind(
        alloc,
        out,
        prediction.facts().behind,
        &flags,
        least,
        greatest,
    )?;
    Ok(())
}

/// Appends values of this prediction, behind its byte.
#[tactic(auto, unfolding(crate::specs::WrittenParts::predicted_bytes))]
pub fn put_predicted(
    alloc: Global,
    out: &mut Vec<u8>,
    on: Option<&Ordered<'_>>,
    prediction: Prediction,
    values: &[i32],
    comps: u32,
    plain: bool,
) -> Result<(), Memory>
    requires comps { 0 < comps }
    requires some { 0 < length values.now }
    requires whole { length values.now % comps ≡ 0 }
    requires few { length values.now ≤ MAX_VALUES }
    requires on { MayBeOver (option_map (λ t. t.now) on) }
    requires predicted { CanPredict (surface_of (option_map (λ t. t.now) on)) comps values.now prediction }
    ensures bytes { OnOk result (out.new.items ≡ out.old.items ++ predicted_bytes plain (surface_of (option_map (λ t. t.now) on.entry)) prediction comps values.now) }
    ensures again { OnOk result (PredictedSpelled plain (surface_of (option_map (λ t. t.now) on.entry)) prediction comps values.now) }
{
    if prediction.facts().corrects {
        put_corrected(alloc, out, on, prediction, values, comps, plain)
    } else {
        put_integers(alloc, out, values, comps, plain)
    }
}

/// Appends values by a prediction: its byte, and what it says.
pub fn put_prediction(
    alloc: Global,
    out: &mut Vec<u8>,
    on: Option<&Ordered<'_>>,
    prediction: Prediction,
    values: &[i32],
    comps: u32,
    plain: bool,
) -> Result<(), Memory>
    requires comps { 0 < comps }
    requires some { 0 < length values.now }
    requires whole { length values.now % comps ≡ 0 }
    requires few { length values.now ≤ MAX_VALUES }
    requires on { MayBeOver (option_map (λ t. t.now) on) }
    requires predicted { CanPredict (surface_of (option_map (λ t. t.now) on)) comps values.now prediction }
    ensures bytes { OnOk result (out.new.items ≡ out.old.items ++ prediction_bytes plain (surface_of (option_map (λ t. t.now) on.entry)) (Some prediction) comps values.now) }
    ensures again { OnOk result (PredictedSpelled plain (surface_of (option_map (λ t. t.now) on.entry)) prediction comps values.now) }
{
    out.push(prediction.facts().byte)?;
    put_predicted(alloc, out, on, prediction, values, comps, plain)?;
    Ok(())
}
