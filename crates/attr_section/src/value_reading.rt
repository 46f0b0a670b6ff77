//! Reading the values of attributes.

ghost use Rattle.drc_base.specs.Profile.{profile_numbered};
ghost use Rattle.std.specs.Prelude.{◌≡◌, ◌≤◌, ◌<◌, ◌*◌, ◌+◌, ◌%◌, ◌/◌, ℕ, ℤ, Ok, Err, IfOk, IfSome, MatchResult, IsTrue, All, length};
ghost use Rattle.std.specs.Option.{option_map};
ghost use Rattle.drc_base.specs.declared.faults.Fault.{Fault as AnyFault};
ghost use Rattle.drc_base.specs.declared.faults.Refusal.TheVariants as refusal;
ghost use Rattle.drc_base.specs.Refusals.{Refuses};
ghost use Rattle.drc_bits.specs.Reading.{Gives};
ghost use Rattle.predict.specs.Surfaces.{surface_of, MayBeOrderedOf};
ghost use Rattle.attr_section.specs.Orders.{HasCoordinates, MayHaveEntries};
ghost use Rattle.attr_section.specs.TablePositions.{read_in};
ghost use Rattle.attr_section.specs.Attributes.{plain_typed_at, textured_typed_at, squared_typed_at, typed_values_at, values_at, values_in, attributes_at, decoder_values_at, AreColumns};
ghost use Rattle.attr_section.specs.Openings.{plain_opening_at, textured_opening_at, squared_opening_at, typed_opening_at, values_opening_at, attributes_opening_at};

use crate::bounded::are_in_bounds;
use crate::decoder_heads::DecoderHead;
use crate::positions::{ReadPositions, with_attributes};
use crate::predicting::{read_predicted, read_prediction};
use crate::quants::read_quants;
use crate::squared_reading::{read_square_predicted, read_square_prediction};
use crate::textured::{TEXTURE_PREDICTION, is_textured, read_textured};
use crate::values::Values;
use attr_heads::{Bounds, Head};
use drc_base::{Fault, Kind, MAX_VALUES, Profile, Refusal, Sequence};
use drc_bits::Cursor;
use predict::Ordered;
use std::alloc::Global;

/// `n` values of an attribute, whose components are predicted one by one.
#[tactic(auto, unfolding(crate::specs::Attributes::plain_typed_at, crate::specs::Openings::plain_opening_at))]
fn read_plain_typed(
    alloc: Global,
    c: &mut Cursor<'_>,
    profile: Profile,
    on: Option<&Ordered<'_>>,
    head: &Head,
    n: u32,
) -> Result<Values, Refusal>
    requires some { 0 < head.now.comps }
    requires whole { n % head.now.comps ≡ 0 }
    requires few { n ≤ MAX_VALUES }
    requires on { (entries : ℕ) × (n ≡ entries * head.now.comps) × MayBeOrderedOf entries (option_map (λ t. t.now) on) }
    ensures item { Gives (λ v. v) (plain_typed_at (profile_numbered profile.number) (surface_of (option_map (λ t. t.now) on.entry)) head.now n c.old) c.new result }
    ensures early { (f : AnyFault) → plain_opening_at (profile_numbered profile.number) (surface_of (option_map (λ t. t.now) on.entry)) n c.old ≡ Err f → result ≡ Err (refusal.Fault f) }
    ensures len { IfOk result (λ v. length v.values ≡ n) }
{
    let at = c.place();
    let prediction = read_prediction(c, profile)?;
    let values = read_predicted(alloc, c, at, on, prediction, head.comps as u32, n)?;
    if !are_in_bounds(Bounds::of_type(head.dtype), &values) {
        return Err(Refusal::Fault(Fault::new(Kind::ValueRange, at)));
    }
    Ok(Values {
        values: Sequence::from_vec(values),
        predict: prediction.code(),
        at,
    })
}

/// `n` texture coordinates that are predicted from positions.
#[tactic(auto, unfolding(crate::specs::Attributes::textured_typed_at))]
fn read_textured_typed(
    alloc: Global,
    c: &mut Cursor<'_>,
    on: Option<&Ordered<'_>>,
    found: ReadPositions<'_>,
    head: &Head,
    n: u32,
) -> Result<Values, Refusal>
    requires few { n ≤ MAX_VALUES }
    requires even { n % 2 ≡ 0 }
    requires on { MayBeOrderedOf (n / 2) (option_map (λ t. t.now) on) }
    ensures item { Gives (λ v. v) (textured_typed_at (surface_of (option_map (λ t. t.now) on.entry)) (read_in found.entry) head.now n c.old) c.new result }
    ensures early { (f : AnyFault) → textured_opening_at (surface_of (option_map (λ t. t.now) on.entry)) (read_in found.entry) n c.old ≡ Err f → result ≡ Err (refusal.Fault f) }
    ensures len { IfOk result (λ v. length v.values ≡ n) }
{
    let at = c.place();
    let values = read_textured(alloc, c, on, found, n)?;
    if !are_in_bounds(Bounds::of_type(head.dtype), &values) {
        return Err(Refusal::Fault(Fault::new(Kind::ValueRange, at)));
    }
    Ok(Values {
        values: Sequence::from_vec(values),
        predict: TEXTURE_PREDICTION.cast_signed(),
        at,
    })
}

/// `n` values of an octahedral attribute.
#[tactic(auto, unfolding(crate::specs::Attributes::squared_typed_at, crate::specs::Openings::squared_opening_at))]
fn read_squared_typed(
    alloc: Global,
    c: &mut Cursor<'_>,
    profile: Profile,
    on: Option<&Ordered<'_>>,
    found: ReadPositions<'_>,
    n: u32,
) -> Result<Values, Refusal>
    requires few { n ≤ MAX_VALUES }
    requires even { n % 2 ≡ 0 }
    requires entries { MayHaveEntries (option_map (λ t. t.now) on) }
    requires on { MayBeOrderedOf (n / 2) (option_map (λ t. t.now) on) }
    ensures item { Gives (λ v. v) (squared_typed_at (profile_numbered profile.number) (surface_of (option_map (λ t. t.now) on.entry)) (read_in found.entry) n c.old) c.new result }
    ensures early { (f : AnyFault) → squared_opening_at (profile_numbered profile.number) (surface_of (option_map (λ t. t.now) on.entry)) (read_in found.entry) n c.old ≡ Err f → result ≡ Err (refusal.Fault f) }
    ensures len { IfOk result (λ v. length v.values ≡ n) }
{
    let at = c.place();
    let prediction = read_square_prediction(c, profile, on)?;
    let values = read_square_predicted(alloc, c, at, prediction, on, found, n)?;
    Ok(Values {
        values: Sequence::from_vec(values),
        predict: prediction.facts().byte.cast_signed(),
        at,
    })
}

/// `n` values of an attribute.
#[tactic(auto, unfolding(crate::specs::Attributes::typed_values_at, crate::specs::Openings::typed_opening_at))]
fn read_typed_values(
    alloc: Global,
    c: &mut Cursor<'_>,
    profile: Profile,
    on: Option<&Ordered<'_>>,
    found: ReadPositions<'_>,
    head: &Head,
    n: u32,
) -> Result<Values, Refusal>
    requires some { 0 < head.now.comps }
    requires square { HasCoordinates head.now }
    requires whole { n % head.now.comps ≡ 0 }
    requires few { n ≤ MAX_VALUES }
    requires entries { MayHaveEntries (option_map (λ t. t.now) on) }
    requires on { (entries : ℕ) × (n ≡ entries * head.now.comps) × MayBeOrderedOf entries (option_map (λ t. t.now) on) }
    ensures item { Gives (λ v. v) (typed_values_at (profile_numbered profile.number) (surface_of (option_map (λ t. t.now) on.entry)) (read_in found.entry) head.now n c.old) c.new result }
    ensures early { (f : AnyFault) → typed_opening_at (profile_numbered profile.number) (surface_of (option_map (λ t. t.now) on.entry)) (read_in found.entry) head.now n c.old ≡ Err f → result ≡ Err (refusal.Fault f) }
    ensures len { IfOk result (λ v. length v.values ≡ n) }
{
    if head.octa.is_some() {
        read_squared_typed(alloc, c, profile, on, found, n)
    } else if is_textured(c, profile, on, head.comps) {
        read_textured_typed(alloc, c, on, found, head, n)
    } else {
        read_plain_typed(alloc, c, profile, on, head, n)
    }
}

/// The values of an attribute for so many entries, behind so many values of other attributes.
#[tactic(auto, unfolding(crate::specs::Attributes::values_at, crate::specs::Openings::values_opening_at))]
fn read_values(
    alloc: Global,
    c: &mut Cursor<'_>,
    profile: Profile,
    on: Option<&Ordered<'_>>,
    found: ReadPositions<'_>,
    head: &Head,
    entries: u32,
    spent: u64,
) -> Result<Values, Refusal>
    requires some { 0 < head.now.comps }
    requires square { HasCoordinates head.now }
    requires spent { spent ≤ MAX_VALUES }
    requires within { MayHaveEntries (option_map (λ t. t.now) on) }
    requires on { MayBeOrderedOf entries (option_map (λ t. t.now) on) }
    ensures item { Gives (λ v. v) (values_at (profile_numbered profile.number) (surface_of (option_map (λ t. t.now) on.entry)) (read_in found.entry) head.now entries spent c.old) c.new result }
    ensures early { (f : AnyFault) → values_opening_at (profile_numbered profile.number) (surface_of (option_map (λ t. t.now) on.entry)) (read_in found.entry) head.now entries spent c.old ≡ Err f → result ≡ Err (refusal.Fault f) }
    ensures len { IfOk result (λ v. length v.values ≡ entries * head.now.comps) }
    ensures few { IfOk result (λ v. spent + length v.values ≤ MAX_VALUES) }
{
    let n = entries as u64 * head.comps as u64;
    if spent + n > MAX_VALUES as u64 {
        return Err(Refusal::Fault(c.fault(Kind::ValueLimit)));
    }
    read_typed_values(alloc, c, profile, on, found, head, n as u32)
}

/// The values of attributes for so many entries, behind so many other values.
fn read_attributes(
    alloc: Global,
    c: &mut Cursor<'_>,
    profile: Profile,
    on: Option<&Ordered<'_>>,
    found: ReadPositions<'_>,
    heads: &[Head],
    entries: u32,
    spent: u64,
) -> Result<Vec<Values>, Refusal>
    requires some { All (λ h. 0 < h.comps) heads.now }
    requires squares { All HasCoordinates heads.now }
    requires within { MayHaveEntries (option_map (λ t. t.now) on) }
    requires spent { spent ≤ MAX_VALUES }
    requires on { MayBeOrderedOf entries (option_map (λ t. t.now) on) }
    ensures item { Gives (λ v. v.items) (attributes_at (profile_numbered profile.number) (surface_of (option_map (λ t. t.now) on.entry)) (read_in found.entry) heads.now entries spent c.old) c.new result }
    ensures early { (f : AnyFault) → attributes_opening_at (profile_numbered profile.number) (surface_of (option_map (λ t. t.now) on.entry)) (read_in found.entry) heads.now entries spent c.old ≡ Err f → result ≡ Err (refusal.Fault f) }
    ensures few { IfOk result (λ v. spent + values_in v.items ≤ MAX_VALUES) }
    ensures columns { IfOk result (λ v. AreColumns entries heads.now v.items) }
{
    let mut total = spent;
    let mut attributes = Vec::new(alloc);
    for head in heads {
        let positions = with_attributes(on, found, heads, &attributes);
        let values = read_values(alloc, c, profile, on, positions, head, entries, total)?;
        total += values.values.len() as u64;
        attributes.push(values)?;
    }
    Ok(attributes)
}

/// How many values attributes have.
fn values_in(attributes: &[Values]) -> u64
    requires { values_in attributes.now ≤ MAX_VALUES }
    ensures { result ≡ values_in attributes.now }
{
    let mut total: u64 = 0;
    for values in attributes {
        total += values.values.len() as u64;
    }
    total
}

/// The values of a decoder in a stream of this profile, for so many entries, behind so many values of decoders before it; `spent`
/// grows by the values read, and the decoder's heads get what stands at its end: a quantisation, or the bits of a square. `on` is the
/// surface that the values of an Edgebreaker stream stand on, in the decoder's order, and `entries` is then the number of its entries; None
/// stands for a sequential stream. Entries of `on` have numbers below `entries`, and octahedral heads two components, as `read_heads` gives
/// them. `found` is what was read of the positions before. The first fault of the bytes: for each attribute
/// `ValueLimit` where it passes `MAX_VALUES` values in all, at its prediction byte; `Prediction`, also at one that came with a later
/// profile, and at one that needs a surface where there is none; `NoPosition` there, where positions are needed that weren't read;
/// `Transform`, `ByteWidth`, the faults of a symbol block; `FlagCount` where there are more flags of constrained multi-parallelograms than
/// three for each face, or more orientations than entries, and the faults of their blocks; `WrapRange` at a range's start, `QuantBits` at
/// that of a square; `FlagsShort` at the prediction byte where a flag or an orientation is needed that isn't there, `Projection` where
/// texture coordinates can't be projected in 64 bits, and `ValueRange`, both at that byte; then `QuantBits` at the bits of a quantisation
/// or a square, and `ValueRange` at the prediction byte of a value outside it; and `Short` and `Long`. The faults of the first attribute
/// up to what its integers open with, so `ValueLimit`, `Prediction`, `NoPosition`, `Transform`, `ByteWidth`, `Scheme`, `Length` and
/// `TableLimit` there, come before out of memory. Beside the table or the list that a block was opened as, restoring takes memory for the
/// values, and for the flags, orientations, places and normals that a prediction wants.
#[tactic(auto, unfolding(crate::specs::Attributes::decoder_values_at))]
pub fn read_decoder(
    alloc: Global,
    c: &mut Cursor<'_>,
    profile: Profile,
    h: &mut DecoderHead,
    entries: u32,
    on: Option<&Ordered<'_>>,
    found: ReadPositions<'_>,
    spent: &mut u64,
) -> Result<Vec<Values>, Refusal>
    requires some { All (λ head. 0 < head.comps) h.old.heads }
    requires squares { All HasCoordinates h.old.heads }
    requires within { MayHaveEntries (option_map (λ t. t.now) on) }
    requires spent { spent.old ≤ MAX_VALUES }
    requires on { MayBeOrderedOf entries (option_map (λ t. t.now) on) }
    ensures values { MatchResult result (λ v. decoder_values_at (profile_numbered profile.number) (surface_of (option_map (λ t. t.now) on.entry)) (read_in found.entry) h.old entries spent.old c.old ≡ Ok ((v.items, h.new), c.new)) (λ e. Refuses (decoder_values_at (profile_numbered profile.number) (surface_of (option_map (λ t. t.now) on.entry)) (read_in found.entry) h.old entries spent.old c.old) e) }
    ensures early { (f : AnyFault) → attributes_opening_at (profile_numbered profile.number) (surface_of (option_map (λ t. t.now) on.entry)) (read_in found.entry) h.old.heads entries spent.old c.old ≡ Err f → result ≡ Err (refusal.Fault f) }
    ensures spent { IfOk result (λ v. spent.new ≡ spent.old + values_in v.items) }
    ensures few { IfOk result (λ v. spent.new ≤ MAX_VALUES) }
    ensures columns { IfOk result (λ v. AreColumns entries h.new.heads v.items) }
{
    let attributes = read_attributes(
        alloc,
        c,
        profile,
        on,
        found,
        h.heads.as_slice(),
        entries,
        *spent,
    )?;
    let heads = read_quants(alloc, c, h.heads.as_slice(), &attributes)?;
    h.heads = Sequence::from_vec(heads);
    *spent += values_in(&attributes);
    Ok(attributes)
}
