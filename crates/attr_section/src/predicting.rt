//! Reading values by their prediction.

ghost use Rattle.drc_base.specs.Profile.{profile_numbered};
ghost use Rattle.std.specs.Prelude.{◌≡◌, ℕ, ◌≤◌, ◌<◌, ◌*◌, ◌%◌, true, Ok, Err, IfOk, MatchResult, length};
ghost use Rattle.drc_base.specs.declared.faults.Fault.{Fault as AnyFault};
ghost use Rattle.drc_base.specs.declared.faults.Refusal.TheVariants as refusal;
ghost use Rattle.std.specs.Option.{option_map};
ghost use Rattle.drc_bits.specs.Reading.{Reads, Gives};
ghost use Rattle.predict.specs.Schemes.{facts};
ghost use Rattle.predict.specs.Surfaces.{surface_of, surface_or, lacks_surface, MayBeOrderedOf, MayBeOver, CanStand};
ghost use Rattle.attr_section.specs.Opened.{integers_of};
ghost use Rattle.predict.specs.Foretold.{restored_with};
ghost use Rattle.attr_section.specs.Values.{prediction_at, transform_at, corrected_at, predicted_at};
ghost use Rattle.attr_section.specs.Openings.{corrected_opening_at, predicted_opening_at};

use crate::behind::read_behind;
use crate::integers::{Integers, open_integers, read_integers};
use crate::listed::Listed;
use drc_base::{Fault, Kind, MAX_VALUES, Memory, Profile, Refusal};
use drc_bits::Cursor;
use predict::{Flags, Ordered, Prediction, Transform, Wrap, restore_with_flags};
use std::alloc::Global;

/// The prediction of an attribute, one that the profile has.
#[tactic(auto, unfolding(crate::specs::Values::prediction_at))]
pub fn read_prediction(c: &mut Cursor<'_>, profile: Profile) -> Result<Prediction, Fault>
    ensures { Reads (λ q. q) (prediction_at (profile_numbered profile.number) c.old) c.new result }
{
    let fault = c.fault(Kind::Prediction);
    let byte = c.get_u8()?;
    let Some(prediction) = Prediction::of_byte(byte) else {
        return Err(fault);
    };
    if !profile.has(prediction.facts().since) {
        return Err(fault);
    }
    Ok(prediction)
}

/// The transform of corrections.
#[tactic(auto, unfolding(crate::specs::Values::transform_at))]
pub(crate) fn read_transform(c: &mut Cursor<'_>) -> Result<Transform, Fault>
    ensures { Reads (λ t. t) (transform_at c.old) c.new result }
{
    let fault = c.fault(Kind::Transform);
    let byte = c.get_u8()?;
    Transform::of_byte(byte).ok_or(fault)
}

/// The values of corrections that were opened, which are taken one after another while values are restored,
/// by a transform and a prediction that corrects.
fn restored_values(
    alloc: Global,
    transform: Transform,
    prediction: Prediction,
    wrap: &Wrap,
    comps: u32,
    on: Option<&Ordered<'_>>,
    flags: &Flags,
    corrections: Integers<'_>,
) -> Result<Result<Vec<i32>, Kind>, Memory>
    requires corrects { (facts prediction).corrects ≡ true }
    requires some { 0 < comps }
    requires over { MayBeOver (option_map (λ t. t.now) on) }
    requires stand { CanStand prediction (surface_of (option_map (λ t. t.now) on)) comps (length (integers_of corrections)) }
    ensures due { IfOk result (λ r. MatchResult r (λ v. restored_with transform prediction (surface_or (surface_of (option_map (λ t. t.now) on.entry))) comps flags.now.lists wrap.now (integers_of corrections.entry) ≡ Ok v.items) (λ k. restored_with transform prediction (surface_or (surface_of (option_map (λ t. t.now) on.entry))) comps flags.now.lists wrap.now (integers_of corrections.entry) ≡ Err k)) }
    ensures len { IfOk result (λ r. IfOk r (λ v. length v.items ≡ length (integers_of corrections.entry))) }
{
    match (transform, corrections) {
        (Transform::Wrap, Integers::Coded(source)) => {
            restore_with_flags(alloc, prediction, wrap, comps, on, flags, source)
        }
        (Transform::Wrap, Integers::Symbols(symbols)) => {
            let source = Listed::new(symbols);
            restore_with_flags(alloc, prediction, wrap, comps, on, flags, source)
        }
        (Transform::Wrap, Integers::Plain(integers)) => {
            let source = Listed::new(integers);
            restore_with_flags(alloc, prediction, wrap, comps, on, flags, source)
        }
    }
}

/// `n` values that are restored from corrections by this prediction, whose byte stands at `at`, over the
/// ordered surface where it needs one.
#[tactic(auto, unfolding(crate::specs::Values::corrected_at, crate::specs::Openings::corrected_opening_at))]
fn read_corrected(
    alloc: Global,
    c: &mut Cursor<'_>,
    at: u64,
    on: Option<&Ordered<'_>>,
    prediction: Prediction,
    comps: u32,
    n: u32,
) -> Result<Vec<i32>, Refusal>
    requires corrects { (facts prediction).corrects ≡ true }
    requires some { 0 < comps }
    requires whole { n % comps ≡ 0 }
    requires few { n ≤ MAX_VALUES }
    requires over { MayBeOver (option_map (λ t. t.now) on) }
    requires stand { CanStand prediction (surface_of (option_map (λ t. t.now) on)) comps n }
    ensures item { Gives (λ v. v.items) (corrected_at at (surface_or (surface_of (option_map (λ t. t.now) on.entry))) prediction comps n c.old) c.new result }
    ensures early { (f : AnyFault) → corrected_opening_at n c.old ≡ Err f → result ≡ Err (refusal.Fault f) }
    ensures len { IfOk result (λ v. length v.items ≡ n) }
{
    let transform = read_transform(c)?;
    let integers = open_integers(alloc, c, comps, n)?;
    let (flags, wrap) = read_behind(alloc, c, prediction.facts().behind, on)?;
    match restored_values(
        alloc, transform, prediction, &wrap, comps, on, &flags, integers,
    )? {
        Ok(values) => Ok(values),
        Err(kind) => Err(Refusal::Fault(Fault::new(kind, at))),
    }
}

/// Whether a prediction needs a surface where there is no surface.
fn lacks_surface(prediction: Prediction, on: Option<&Ordered<'_>>) -> bool
    ensures { result ≡ lacks_surface prediction (surface_of (option_map (λ t. t.now) on.entry)) }
{
    match on {
        None => prediction.facts().needs_surface,
        Some(_) => false,
    }
}

/// `n` values of this prediction, whose byte stands at `at`.
#[tactic(auto, unfolding(crate::specs::Values::predicted_at, crate::specs::Openings::predicted_opening_at))]
pub fn read_predicted(
    alloc: Global,
    c: &mut Cursor<'_>,
    at: u64,
    on: Option<&Ordered<'_>>,
    prediction: Prediction,
    comps: u32,
    n: u32,
) -> Result<Vec<i32>, Refusal>
    requires some { 0 < comps }
    requires whole { n % comps ≡ 0 }
    requires few { n ≤ MAX_VALUES }
    requires on { (entries : ℕ) × (n ≡ entries * comps) × MayBeOrderedOf entries (option_map (λ t. t.now) on) }
    ensures item { Gives (λ v. v.items) (predicted_at at (surface_of (option_map (λ t. t.now) on.entry)) prediction comps n c.old) c.new result }
    ensures early { (f : AnyFault) → predicted_opening_at at (surface_of (option_map (λ t. t.now) on.entry)) prediction n c.old ≡ Err f → result ≡ Err (refusal.Fault f) }
    ensures len { IfOk result (λ v. length v.items ≡ n) }
{
    if !prediction.facts().corrects {
        return read_integers(alloc, c, comps, n);
    }
    if lacks_surface(prediction, on) {
        return Err(Refusal::Fault(Fault::new(Kind::Prediction, at)));
    }
    read_corrected(alloc, c, at, on, prediction, comps, n)
}
