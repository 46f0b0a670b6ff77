//! Corrections of values, by each prediction: their symbols, and the flags that are written beside them.

ghost use Rattle.std.specs.Prelude.{◌≡◌, ◌<◌, ◌*◌, ◌≤ℤ◌, true, map, length, Ok, IfOk};
ghost use Rattle.std.specs.Option.{option_map};
ghost use Rattle.std.specs.List.{All};
ghost use Rattle.predict.specs.Schemes.{facts};
ghost use Rattle.predict.specs.Wrap.{least_correction, greatest_correction};
ghost use Rattle.predict.specs.Restored.{restored, corrections};
ghost use Rattle.predict.specs.Symbols.{zigzag_of};
ghost use Rattle.predict.specs.Surfaces.{surface, surface_of, surface_or, IsOverTable, MayBeOver, CanStand};
ghost use Rattle.predict.specs.Parallelogram.{parallelogram};
ghost use Rattle.predict.specs.Multi.{multi, flag_lists_of};
ghost use Rattle.predict.specs.Foretold.{foretold, marks_of, HasWanted, restored_with};
ghost use Rattle.predict.specs.declared.transforms.Transform.TheVariants as transform;

use crate::differences::correct_difference;
use crate::flags::Flags;
use crate::multi::correct_multi;
use crate::orders::Ordered;
use crate::schemes::Prediction;
use crate::single::correct_parallelogram;
use crate::symbols::symbols_of;
use crate::wraps::Wrap;
use drc_base::Memory;
use std::alloc::Global;

/// The symbols of the corrections of values by parallelograms over an ordered surface.
fn symbols_by_parallelogram(
    alloc: Global,
    w: &Wrap,
    comps: u32,
    on: &Ordered<'_>,
    v: &[i32],
) -> Result<Vec<u32>, Memory>
    requires some { 0 < comps }
    requires over { IsOverTable on.now }
    requires entries { length v.now ≡ length on.now.order.now.corner_of_entry * comps }
    requires within { All (λ x. (w.now.low ≤ℤ x) × (x ≤ℤ w.now.high)) v.now }
    ensures { IfOk result (λ s. s.items ≡ map zigzag_of (corrections (parallelogram (surface on.now) comps) w.now v.now)) }
{
    let corrections = correct_parallelogram(alloc, w, comps, on, v)?;
    let symbols = symbols_of(alloc, &corrections)?;
    Ok(symbols)
}

/// The symbols of the corrections of values by the means of parallelograms over an ordered surface, and
/// the flags that choose them.
fn symbols_by_multi(
    alloc: Global,
    w: &Wrap,
    comps: u32,
    on: &Ordered<'_>,
    v: &[i32],
) -> Result<(Vec<u32>, Flags), Memory>
    requires some { 0 < comps }
    requires over { IsOverTable on.now }
    requires entries { length v.now ≡ length on.now.order.now.corner_of_entry * comps }
    requires within { All (λ x. (w.now.low ≤ℤ x) × (x ≤ℤ w.now.high)) v.now }
    ensures flags { IfOk result (λ s. s.1.lists ≡ flag_lists_of (surface on.now) comps v.now) }
    ensures symbols { IfOk result (λ s. s.0.items ≡ map zigzag_of (corrections (multi (surface on.now) comps s.1.lists) w.now v.now)) }
{
    let (corrections, flags) = correct_multi(alloc, w, comps, on, v)?;
    let symbols = symbols_of(alloc, &corrections)?;
    Ok((symbols, flags))
}

/// The symbols of corrections, and flags, by a prediction that corrects.
fn corrected_by(
    alloc: Global,
    prediction: Prediction,
    w: &Wrap,
    comps: u32,
    on: Option<&Ordered<'_>>,
    v: &[i32],
) -> Result<(Vec<u32>, Flags), Memory>
    requires corrects { (facts prediction).corrects ≡ true }
    requires some { 0 < comps }
    requires over { MayBeOver (option_map (λ t. t.now) on) }
    requires stand { CanStand prediction (surface_of (option_map (λ t. t.now) on)) comps (length v.now) }
    requires within { All (λ x. (w.now.low ≤ℤ x) × (x ≤ℤ w.now.high)) v.now }
    ensures flags { IfOk result (λ c. c.1.lists ≡ marks_of prediction (surface_or (surface_of (option_map (λ t. t.now) on.entry))) comps v.now) }
    ensures symbols { IfOk result (λ c. c.0.items ≡ map zigzag_of (corrections (foretold prediction (surface_or (surface_of (option_map (λ t. t.now) on.entry))) comps c.1.lists) w.now v.now)) }
{
    match (prediction, on) {
        (Prediction::Difference, _) => {
            let symbols = correct_difference(alloc, w, comps, v)?;
            Ok((symbols, Flags::none(alloc)))
        }
        (Prediction::Parallelogram, Some(on)) => {
            let symbols = symbols_by_parallelogram(alloc, w, comps, on, v)?;
            Ok((symbols, Flags::none(alloc)))
        }
        (Prediction::Multi, Some(on)) => symbols_by_multi(alloc, w, comps, on, v),
        (Prediction::Off, _) | (Prediction::Parallelogram | Prediction::Multi, None) => {
            unreachable!()
        }
    }
}

/// The symbols of the corrections of the values `v` of entries of `comps` components, by a prediction that
/// corrects, over an ordered surface where it needs one, and the flags that are written beside them: each
/// correction is of at most half a span, and from both the values are restored. It takes memory for the
/// corrections and the flags, and fails only when out of memory.
pub fn correct(
    alloc: Global,
    prediction: Prediction,
    w: &Wrap,
    comps: u32,
    on: Option<&Ordered<'_>>,
    v: &[i32],
) -> Result<(Vec<u32>, Flags), Memory>
    requires corrects { (facts prediction).corrects ≡ true }
    requires some { 0 < comps }
    requires over { MayBeOver (option_map (λ t. t.now) on) }
    requires stand { CanStand prediction (surface_of (option_map (λ t. t.now) on)) comps (length v.now) }
    requires within { All (λ x. (w.now.low ≤ℤ x) × (x ≤ℤ w.now.high)) v.now }
    ensures flags { IfOk result (λ c. c.1.lists ≡ marks_of prediction (surface_or (surface_of (option_map (λ t. t.now) on.entry))) comps v.now) }
    ensures symbols { IfOk result (λ c. c.0.items ≡ map zigzag_of (corrections (foretold prediction (surface_or (surface_of (option_map (λ t. t.now) on.entry))) comps c.1.lists) w.now v.now)) }
    ensures enough { IfOk result (λ c. HasWanted prediction (surface_or (surface_of (option_map (λ t. t.now) on.entry))) c.1.lists) }
    ensures restores { IfOk result (λ c. restored (foretold prediction (surface_or (surface_of (option_map (λ t. t.now) on.entry))) comps c.1.lists) w.now (corrections (foretold prediction (surface_or (surface_of (option_map (λ t. t.now) on.entry))) comps c.1.lists) w.now v.now) ≡ v.now) }
    ensures again { IfOk result (λ c. restored_with transform.Wrap prediction (surface_or (surface_of (option_map (λ t. t.now) on.entry))) comps c.1.lists w.now (corrections (foretold prediction (surface_or (surface_of (option_map (λ t. t.now) on.entry))) comps c.1.lists) w.now v.now) ≡ Ok v.now) }
    ensures small { IfOk result (λ c. All (λ x. (least_correction w.now ≤ℤ x) × (x ≤ℤ greatest_correction w.now)) (corrections (foretold prediction (surface_or (surface_of (option_map (λ t. t.now) on.entry))) comps c.1.lists) w.now v.now)) }
{
    let wrap = w.copy();
    let (symbols, flags) = corrected_by(alloc, prediction, &wrap, comps, on, v)?;
    Ok((symbols, flags))
}
