//! The symbols of the corrections of values, and the flags that are written beside them.

ghost use Rattle.std.specs.Prelude.{◌≡◌, ◌≤◌, ◌<◌, ◌^◌, true, Ok, IfOk, All, length, map};
ghost use Rattle.std.specs.Option.{option_map};
ghost use Rattle.predict.specs.Schemes.{facts};
ghost use Rattle.predict.specs.Wrap.{CanWrap};
ghost use Rattle.predict.specs.Symbols.{zigzag_of};
ghost use Rattle.predict.specs.Restored.{corrections};
ghost use Rattle.predict.specs.Surfaces.{surface_of, surface_or, MayBeOver, CanStand};
ghost use Rattle.predict.specs.Foretold.{foretold, marks_of, restored_with};
ghost use Rattle.predict.specs.declared.transforms.Transform.TheVariants as transform;
ghost use Rattle.attr_section.specs.WrittenParts.{range_of};

use crate::ranges::wrap_of;
use drc_base::{MAX_VALUES, Memory};
use predict::{Flags, Ordered, Prediction, correct};
use std::alloc::Global;

/// The symbols of the corrections of values in their range by a prediction that corrects, over the surface
/// of a walk where it needs one, and the flags that are written beside them.
pub fn corrected_symbols(
    alloc: Global,
    prediction: Prediction,
    on: Option<&Ordered<'_>>,
    values: &[i32],
    comps: u32,
    low: i32,
    high: i32,
) -> Result<(Vec<u32>, Flags), Memory>
    requires corrects { (facts prediction).corrects ≡ true }
    requires comps { 0 < comps }
    requires few { length values.now ≤ MAX_VALUES }
    requires over { MayBeOver (option_map (λ t. t.now) on) }
    requires stand { CanStand prediction (surface_of (option_map (λ t. t.now) on)) comps (length values.now) }
    requires range { range_of values.now ≡ record { low = low; high = high } }
    requires can_wrap { CanWrap (record { low = low; high = high }) }
    ensures flags { IfOk result (λ s. s.1.lists ≡ marks_of prediction (surface_or (surface_of (option_map (λ t. t.now) on.entry))) comps values.now) }
    ensures few { IfOk result (λ s. All (λ flags. length flags < 2 ^ 31) s.1.lists) }
    ensures symbols { IfOk result (λ s. s.0.items ≡ map zigzag_of (corrections (foretold prediction (surface_or (surface_of (option_map (λ t. t.now) on.entry))) comps s.1.lists) (range_of values.now) values.now)) }
    ensures len { IfOk result (λ s. length s.0.items ≡ length values.now) }
    ensures again { IfOk result (λ s. restored_with transform.Wrap prediction (surface_or (surface_of (option_map (λ t. t.now) on.entry))) comps s.1.lists (range_of values.now) (corrections (foretold prediction (surface_or (surface_of (option_map (λ t. t.now) on.entry))) comps s.1.lists) (range_of values.now) values.now) ≡ Ok values.now) }
{
    let wrap = wrap_of(low, high);
    let (symbols, flags) = correct(alloc, prediction, &wrap, comps, on, values)?;
    Ok((symbols, flags))
}
