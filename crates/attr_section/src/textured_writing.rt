//! Writing texture coordinates that are predicted from positions.

ghost use Rattle.std.specs.Prelude.{◌≡◌, ◌*◌, ◌/◌, ◌%◌, ◌^◌, ◌≤◌, ◌<◌, ℕ, Ok, Err, Some, OnOk, IfOk, MatchResult, ◌++◌, length};
ghost use Rattle.std.specs.Option.{option_map};
ghost use Rattle.drc_bits.specs.Spells.{Spells};
ghost use Rattle.predict.specs.declared.schemes.Prediction.TheVariants as prediction;
ghost use Rattle.predict.specs.Wrap.{CanWrap};
ghost use Rattle.predict.specs.Surfaces.{surface, surface_of, IsOverTable, MayBeOver, CanStand};
ghost use Rattle.texture_prediction.specs.Orientations.{bits_of};
ghost use Rattle.texture_values.specs.Restored.{restored_texture};
ghost use Rattle.attr_section.specs.Positions.{places_on};
ghost use Rattle.attr_section.specs.TablePositions.{positions_in};
ghost use Rattle.attr_section.specs.Textured.{orientations_at, texture_corrected_at};
ghost use Rattle.attr_section.specs.WrittenParts.{range_of, CanPredict};
ghost use Rattle.attr_section.specs.WrittenTexture.{is_texture, projected_texture, projected_on, orientations_bytes, texture_corrected_bytes, texture_bytes, RestoresOn, TextureCorrected, TextureSpelled};

use crate::flag_writing::put_bits;
use crate::places::places_on;
use crate::positions::Positions;
use crate::predicted_writing::{put_integers, put_prediction};
use crate::quant_writing::put_u32;
use crate::ranges::{put_range, range_of, wrap_of};
use crate::textured::TEXTURE_PREDICTION;
use drc_base::{Kind, MAX_VALUES, Memory};
use predict::{Ordered, Prediction, Transform};
use std::alloc::Global;
use texture_prediction::orientations_to_bits;
use texture_values::correct_texture;

/// Whether values of so many components are texture coordinates for which the prediction from positions is asked.
pub fn is_texture(comps: u8, code: i8) -> bool
    ensures { result ≡ is_texture comps code }
{
    code == TEXTURE_PREDICTION.cast_signed() && comps == 2
}

/// The bits that say orientations.
fn bits_from(orientations: Vec<bool>) -> Vec<bool>
    ensures bits { result.items ≡ bits_of orientations.items }
    ensures len { length result.items ≡ length orientations.items }
{
    let mut bits = orientations;
    orientations_to_bits(&mut bits);
    bits
}

/// Appends orientations: how many, and a block of the bits that say them.
#[tactic(auto, unfolding(crate::specs::WrittenTexture::orientations_bytes))]
fn put_orientations(alloc: Global, out: &mut Vec<u8>, orientations: Vec<bool>) -> Result<(), Memory>
    requires { length orientations.items < 2 ^ 31 }
    ensures bytes { OnOk result (out.new.items ≡ out.old.items ++ orientations_bytes orientations.items) }
    ensures again { OnOk result ((entries : ℕ) → length orientations.items ≤ entries → Spells (orientations_at entries) (orientations_bytes orientations.items) orientations.items) }
{
    put_u32(out, orientations.len() as u32)?;
    let bits = bits_from(orientations);
    put_bits(alloc, out, &bits)?;
    Ok(())
}

/// What is written of texture coordinates in their range over an ordered surface with positions: the corrections, and the
/// orientations, that of the last entry first. `Projection` where an entry can't be projected.
#[tactic(auto, unfolding(crate::specs::WrittenTexture::projected_texture))]
fn projected(
    alloc: Global,
    on: &Ordered<'_>,
    positions: &Positions<'_>,
    low: i32,
    high: i32,
    values: &[i32],
) -> Result<Result<(Vec<i32>, Vec<bool>), Kind>, Memory>
    requires over { IsOverTable on.now }
    requires whole { length values.now ≡ length on.now.order.now.corner_of_entry * 2 }
    requires range { range_of values.now ≡ record { low = low; high = high } }
    requires can_wrap { CanWrap (record { low = low; high = high }) }
    ensures due { IfOk result (λ r. MatchResult r (λ x. projected_texture (surface on.now) (places_on (positions_in positions.now) (surface on.now)) values.now ≡ Ok (x.1.items, x.0.items)) (λ k. projected_texture (surface on.now) (places_on (positions_in positions.now) (surface on.now)) values.now ≡ Err k)) }
    ensures restores { IfOk result (λ r. IfOk r (λ x. restored_texture (surface on.now) (places_on (positions_in positions.now) (surface on.now)) (range_of values.now) x.1.items x.0.items ≡ Ok values.now)) }
    ensures few { IfOk result (λ r. IfOk r (λ x. length x.1.items ≤ length on.now.order.now.corner_of_entry)) }
    ensures each { IfOk result (λ r. IfOk r (λ x. length x.0.items ≡ length values.now)) }
{
    let places = places_on(alloc, positions, on)?;
    let wrap = wrap_of(low, high);
    correct_texture(alloc, on, &places, &wrap, values)
}

/// Appends the corrections of texture coordinates and what stands behind them.
#[tactic(auto, unfolding(crate::specs::WrittenTexture::texture_corrected_bytes))]
fn put_texture_corrected(
    alloc: Global,
    out: &mut Vec<u8>,
    low: i32,
    high: i32,
    corrections: Vec<i32>,
    orientations: Vec<bool>,
    plain: bool,
) -> Result<(), Memory>
    requires whole { length corrections.items % 2 ≡ 0 }
    requires few { length corrections.items ≤ MAX_VALUES }
    requires short { length orientations.items ≤ length corrections.items / 2 }
    requires can_wrap { CanWrap (record { low = low; high = high }) }
    ensures bytes { OnOk result (out.new.items ≡ out.old.items ++ texture_corrected_bytes plain (record { low = low; high = high }) orientations.items corrections.items) }
    ensures again { OnOk result (TextureCorrected plain (record { low = low; high = high }) orientations.items corrections.items) }
{
    out.push(Transform::Wrap.byte())?;
    put_integers(alloc, out, &corrections, 2, plain)?;
    put_orientations(alloc, out, orientations)?;
    put_range(out, low, high)?;
    Ok(())
}

/// What is written of texture coordinates in their range where there may be no surface, and no positions that can be used.
fn projected_on(
    alloc: Global,
    on: Option<&Ordered<'_>>,
    positions: Option<&Positions<'_>>,
    low: i32,
    high: i32,
    values: &[i32],
) -> Result<Result<(Vec<i32>, Vec<bool>), Kind>, Memory>
    requires over { MayBeOver (option_map (λ t. t.now) on) }
    requires stand { CanStand prediction.Parallelogram (surface_of (option_map (λ t. t.now) on)) 2 (length values.now) }
    requires range { range_of values.now ≡ record { low = low; high = high } }
    requires can_wrap { CanWrap (record { low = low; high = high }) }
    ensures due { let w = surface_of (option_map (λ t. t.now) on.entry) in let ps = option_map (λ p. positions_in p.now) positions.entry in
        IfOk result (λ r. MatchResult r (λ x. projected_on w ps values.now ≡ Ok (x.1.items, x.0.items)) (λ k. projected_on w ps values.now ≡ Err k)) }
    ensures restores { let w = surface_of (option_map (λ t. t.now) on.entry) in let ps = option_map (λ p. positions_in p.now) positions.entry in
        IfOk result (λ r. IfOk r (λ x. RestoresOn w ps (range_of values.now) x.1.items x.0.items values.now)) }
    ensures few { IfOk result (λ r. IfOk r (λ x. length x.1.items ≤ length x.0.items / 2)) }
    ensures each { IfOk result (λ r. IfOk r (λ x. length x.0.items ≡ length values.now)) }
{
    match (on, positions) {
        (None, _) => Ok(Err(Kind::Prediction)),
        (Some(_), None) => Ok(Err(Kind::NoPosition)),
        (Some(on), Some(positions)) => projected(alloc, on, positions, low, high, values),
    }
}

/// Appends texture coordinates, for which the prediction from positions is asked: by a parallelogram where they can't be projected.
pub fn put_texture(
    alloc: Global,
    out: &mut Vec<u8>,
    on: Option<&Ordered<'_>>,
    positions: Option<&Positions<'_>>,
    values: &[i32],
    plain: bool,
) -> Result<(), Memory>
    requires some { 0 < length values.now }
    requires whole { length values.now % 2 ≡ 0 }
    requires few { length values.now ≤ MAX_VALUES }
    requires on { MayBeOver (option_map (λ t. t.now) on) }
    requires predicted { CanPredict (surface_of (option_map (λ t. t.now) on)) 2 values.now prediction.Parallelogram }
    ensures bytes { OnOk result (out.new.items ≡ out.old.items ++ texture_bytes plain (surface_of (option_map (λ t. t.now) on.entry)) values.now (projected_on (surface_of (option_map (λ t. t.now) on.entry)) (option_map (λ p. positions_in p.now) positions.entry) values.now)) }
    ensures again { let w = surface_of (option_map (λ t. t.now) on.entry) in let ps = option_map (λ p. positions_in p.now) positions.entry in
        OnOk result (TextureSpelled plain w ps values.now (projected_on w ps values.now)) }
{
    let (least, greatest) = range_of(values);
    match projected_on(alloc, on, positions, least, greatest, values)? {
        Ok((corrections, orientations)) => {
            out.push(TEXTURE_PREDICTION)?;
            put_texture_corrected(
                alloc,
                out,
                least,
                greatest,
                corrections,
                orientations,
                plain,
            )
        }
        Err(_) => put_prediction(alloc, out, on, Prediction::Parallelogram, values, 2, plain),
    }
}
