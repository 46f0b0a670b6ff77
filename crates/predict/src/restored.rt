//! Restoring values from a source of corrections, by any prediction that corrects.

ghost use Rattle.std.specs.Prelude.{◌≡◌, ◌<◌, true, Ok, Err, length, IfOk, MatchResult};
ghost use Rattle.std.specs.Option.{option_map};
ghost use Rattle.predict.specs.Schemes.{facts};
ghost use Rattle.predict.specs.Restored.{restored};
ghost use Rattle.predict.specs.Surfaces.{surface_of, surface_or, MayBeOver, CanStand};
ghost use Rattle.predict.specs.Foretold.{foretold, HasWanted, LacksWanted, restored_with};
ghost use Rattle.predict.specs.declared.transforms.Transform.TheVariants as transform;

use crate::flags::Flags;
use crate::from_source::{by_difference, by_parallelogram};
use crate::multi_from_source::by_multi;
use crate::orders::Ordered;
use crate::schemes::Prediction;
use crate::sources::CorrectionSource;
use crate::wraps::Wrap;
use drc_base::{Kind, Memory};
use std::alloc::Global;

/// The values that corrections restore by a prediction that corrects.
#[inline(always)]
fn by_prediction<C: CorrectionSource>(
    alloc: Global,
    prediction: Prediction,
    w: &Wrap,
    comps: usize,
    on: Option<&Ordered<'_>>,
    flags: &Flags,
    source: C,
) -> Result<Result<Vec<i32>, Kind>, Memory>
    requires corrects { (facts prediction).corrects ≡ true }
    requires some { 0 < comps }
    requires over { MayBeOver (option_map (λ t. t.now) on) }
    requires stand { CanStand prediction (surface_of (option_map (λ t. t.now) on)) comps (length (C.left source)) }
    ensures values { IfOk result (λ r. IfOk r (λ v. v.items ≡ restored (foretold prediction (surface_or (surface_of (option_map (λ t. t.now) on.entry))) comps flags.now.lists) w.now (C.left source))) }
    ensures flags { IfOk result (λ r. MatchResult r (λ _. HasWanted prediction (surface_or (surface_of (option_map (λ t. t.now) on.entry))) flags.now.lists) (λ k. (k ≡ Kind.FlagsShort) × LacksWanted prediction (surface_or (surface_of (option_map (λ t. t.now) on.entry))) flags.now.lists)) }
    ensures len { IfOk result (λ r. IfOk r (λ v. length v.items ≡ length (C.left source))) }
{
    match (prediction, on) {
        (Prediction::Difference, _) => {
            let values = by_difference(alloc, w, comps, source)?;
            Ok(Ok(values))
        }
        (Prediction::Parallelogram, Some(on)) => {
            let values = by_parallelogram(alloc, w, comps, on, source)?;
            Ok(Ok(values))
        }
        (Prediction::Multi, Some(on)) => by_multi(alloc, w, comps, on, flags, source),
        (Prediction::Off, _) | (Prediction::Parallelogram | Prediction::Multi, None) => {
            unreachable!()
        }
    }
}

/// The same of few components, each number of which has loops of its own.
fn by_comps<C: CorrectionSource>(
    alloc: Global,
    prediction: Prediction,
    w: &Wrap,
    comps: u32,
    on: Option<&Ordered<'_>>,
    flags: &Flags,
    source: C,
) -> Result<Result<Vec<i32>, Kind>, Memory>
    requires corrects { (facts prediction).corrects ≡ true }
    requires some { 0 < comps }
    requires over { MayBeOver (option_map (λ t. t.now) on) }
    requires stand { CanStand prediction (surface_of (option_map (λ t. t.now) on)) comps (length (C.left source)) }
    ensures values { IfOk result (λ r. IfOk r (λ v. v.items ≡ restored (foretold prediction (surface_or (surface_of (option_map (λ t. t.now) on.entry))) comps flags.now.lists) w.now (C.left source))) }
    ensures flags { IfOk result (λ r. MatchResult r (λ _. HasWanted prediction (surface_or (surface_of (option_map (λ t. t.now) on.entry))) flags.now.lists) (λ k. (k ≡ Kind.FlagsShort) × LacksWanted prediction (surface_or (surface_of (option_map (λ t. t.now) on.entry))) flags.now.lists)) }
    ensures len { IfOk result (λ r. IfOk r (λ v. length v.items ≡ length (C.left source))) }
{
    match comps {
        1 => by_prediction(alloc, prediction, w, 1, on, flags, source),
        2 => by_prediction(alloc, prediction, w, 2, on, flags, source),
        3 => by_prediction(alloc, prediction, w, 3, on, flags, source),
        _ => by_prediction(alloc, prediction, w, comps as usize, on, flags, source),
    }
}

/// The values that the corrections of a source restore, of entries of `comps` components, by a prediction
/// that corrects, with its flags, over an ordered surface where it needs one. Each correction is taken when
/// its value is put behind those before. It takes memory for the values, and fails only when out of memory.
/// `FlagsShort` exactly where more flags of a list are needed than it has. Flags that are left over are
/// ignored.
pub fn restore_with_flags<C: CorrectionSource>(
    alloc: Global,
    prediction: Prediction,
    w: &Wrap,
    comps: u32,
    on: Option<&Ordered<'_>>,
    flags: &Flags,
    source: C,
) -> Result<Result<Vec<i32>, Kind>, Memory>
    requires corrects { (facts prediction).corrects ≡ true }
    requires some { 0 < comps }
    requires over { MayBeOver (option_map (λ t. t.now) on) }
    requires stand { CanStand prediction (surface_of (option_map (λ t. t.now) on)) comps (length (C.left source)) }
    ensures due { IfOk result (λ r. MatchResult r (λ v. restored_with transform.Wrap prediction (surface_or (surface_of (option_map (λ t. t.now) on.entry))) comps flags.now.lists w.now (C.left source) ≡ Ok v.items) (λ k. restored_with transform.Wrap prediction (surface_or (surface_of (option_map (λ t. t.now) on.entry))) comps flags.now.lists w.now (C.left source) ≡ Err k)) }
    ensures values { IfOk result (λ r. IfOk r (λ v. v.items ≡ restored (foretold prediction (surface_or (surface_of (option_map (λ t. t.now) on.entry))) comps flags.now.lists) w.now (C.left source))) }
    ensures flags { IfOk result (λ r. MatchResult r (λ _. HasWanted prediction (surface_or (surface_of (option_map (λ t. t.now) on.entry))) flags.now.lists) (λ k. (k ≡ Kind.FlagsShort) × LacksWanted prediction (surface_or (surface_of (option_map (λ t. t.now) on.entry))) flags.now.lists)) }
    ensures len { IfOk result (λ r. IfOk r (λ v. length v.items ≡ length (C.left source))) }
{
    let restored = by_comps(alloc, prediction, w, comps, on, flags, source)?;
    Ok(restored)
}
