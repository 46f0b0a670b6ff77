//! Writing the values of attributes.

ghost use Rattle.std.specs.Prelude.{◌≡◌, ◌<◌, ◌≤◌, ◌%◌, ℕ, true, false, None, Some, ◌++◌, OnOk, length};
ghost use Rattle.std.specs.Option.{option_map};
ghost use Rattle.predict.specs.declared.schemes.Prediction.{Prediction};
ghost use Rattle.predict.specs.Schemes.{code_of, prediction_coded};
ghost use Rattle.predict.specs.Surfaces.{surface_of, MayBeOver};
ghost use Rattle.attr_section.specs.Positions.{PositionsRead, usable};
ghost use Rattle.attr_section.specs.TablePositions.{read_in, positions_in};
ghost use Rattle.attr_section.specs.declared.square_predictions.SquarePrediction.{SquarePrediction as AnySquarePrediction};
ghost use Rattle.attr_section.specs.WrittenParts.{prediction_bytes};
ghost use Rattle.attr_section.specs.WrittenSquares.{square_code};
ghost use Rattle.attr_section.specs.WrittenTexture.{is_texture, projected_on, texture_bytes};
ghost use Rattle.attr_section.specs.Written.{values_bytes_under, values_bytes, ValuesPass, ValuesSpelled};

use crate::positions::{Positions, ReadPositions, usable};
use crate::predicted_writing::put_prediction;
use crate::square_predictions::SquarePrediction;
use crate::squared_writing::put_squared;
use crate::textured_writing::{is_texture, put_texture};
use crate::values::Values;
use attr_heads::Head;
use drc_base::Memory;
use predict::{Ordered, Prediction};
use std::alloc::Global;

/// The prediction of this number.
fn prediction_of(code: i8) -> Prediction
    requires { (q : Prediction) × (code ≡ code_of q) }
    ensures { code_of result ≡ code }
{
    match Prediction::of_code(code) {
        Some(prediction) => prediction,
        None => unreachable!(),
    }
}

/// The prediction of octahedral values of this number.
fn square_prediction_of(code: i8) -> SquarePrediction
    requires { (q : AnySquarePrediction) × (code ≡ square_code q) }
    ensures { square_code result ≡ code }
{
    match SquarePrediction::of_code(code) {
        Some(prediction) => prediction,
        None => unreachable!(),
    }
}

/// Appends the values of an attribute in a square of so many bits, beside the positions that can be used.
#[tactic(auto, unfolding(crate::specs::Written::values_bytes))]
fn put_in_square(
    alloc: Global,
    out: &mut Vec<u8>,
    on: Option<&Ordered<'_>>,
    positions: Option<&Positions<'_>>,
    head: &Head,
    bits: u8,
    v: &Values,
    plain: bool,
) -> Result<(), Memory>
    requires octa { head.now.octa ≡ Some bits }
    requires values { ValuesPass (surface_of (option_map (λ t. t.now) on)) head.now v.now }
    requires on { MayBeOver (option_map (λ t. t.now) on) }
    ensures bytes { OnOk result (out.new.items ≡ out.old.items ++ values_bytes_under plain (surface_of (option_map (λ t. t.now) on.entry)) (option_map (λ p. positions_in p.now) positions.entry) head.now.octa head.now.comps v.now) }
    ensures again { OnOk result ((found : PositionsRead) → usable found ≡ option_map (λ p. positions_in p.now) positions.entry → ValuesSpelled plain (surface_of (option_map (λ t. t.now) on.entry)) found head.now v.now) }
{
    let asked = square_prediction_of(v.predict);
    let values = v.values.as_slice();
    put_squared(alloc, out, on, positions, bits, asked, values, plain)?;
    Ok(())
}

/// Appends the values of an attribute without a square, for which a prediction of single components is asked.
fn put_plainly(
    alloc: Global,
    out: &mut Vec<u8>,
    on: Option<&Ordered<'_>>,
    head: &Head,
    v: &Values,
    plain: bool,
) -> Result<(), Memory>
    requires octa { head.now.octa ≡ None }
    requires components { is_texture head.now.comps v.now.predict ≡ false }
    requires values { ValuesPass (surface_of (option_map (λ t. t.now) on)) head.now v.now }
    requires on { MayBeOver (option_map (λ t. t.now) on) }
    ensures bytes { OnOk result (out.new.items ≡ out.old.items ++ prediction_bytes plain (surface_of (option_map (λ t. t.now) on.entry)) (prediction_coded v.now.predict) head.now.comps v.now.values) }
    ensures again { OnOk result ((found : PositionsRead) → ValuesSpelled plain (surface_of (option_map (λ t. t.now) on.entry)) found head.now v.now) }
{
    let prediction = prediction_of(v.predict);
    let values = v.values.as_slice();
    put_prediction(alloc, out, on, prediction, values, head.comps as u32, plain)?;
    Ok(())
}

/// Appends texture coordinates for which the prediction from positions is asked, beside the positions that can be used.
fn put_coordinates(
    alloc: Global,
    out: &mut Vec<u8>,
    on: Option<&Ordered<'_>>,
    positions: Option<&Positions<'_>>,
    head: &Head,
    v: &Values,
    plain: bool,
) -> Result<(), Memory>
    requires octa { head.now.octa ≡ None }
    requires texture { is_texture head.now.comps v.now.predict ≡ true }
    requires values { ValuesPass (surface_of (option_map (λ t. t.now) on)) head.now v.now }
    requires on { MayBeOver (option_map (λ t. t.now) on) }
    ensures bytes { OnOk result (out.new.items ≡ out.old.items ++ texture_bytes plain (surface_of (option_map (λ t. t.now) on.entry)) v.now.values (projected_on (surface_of (option_map (λ t. t.now) on.entry)) (option_map (λ p. positions_in p.now) positions.entry) v.now.values)) }
    ensures again { OnOk result ((found : PositionsRead) → usable found ≡ option_map (λ p. positions_in p.now) positions.entry → ValuesSpelled plain (surface_of (option_map (λ t. t.now) on.entry)) found head.now v.now) }
{
    let _comps = head.comps;
    let values = v.values.as_slice();
    put_texture(alloc, out, on, positions, values, plain)?;
    Ok(())
}

/// Appends the values of an attribute without a square, beside the positions that can be used.
fn put_unsquared(
    alloc: Global,
    out: &mut Vec<u8>,
    on: Option<&Ordered<'_>>,
    positions: Option<&Positions<'_>>,
    head: &Head,
    v: &Values,
    plain: bool,
) -> Result<(), Memory>
    requires octa { head.now.octa ≡ None }
    requires values { ValuesPass (surface_of (option_map (λ t. t.now) on)) head.now v.now }
    requires on { MayBeOver (option_map (λ t. t.now) on) }
    ensures bytes { OnOk result (out.new.items ≡ out.old.items ++ values_bytes_under plain (surface_of (option_map (λ t. t.now) on.entry)) (option_map (λ p. positions_in p.now) positions.entry) head.now.octa head.now.comps v.now) }
    ensures again { OnOk result ((found : PositionsRead) → usable found ≡ option_map (λ p. positions_in p.now) positions.entry → ValuesSpelled plain (surface_of (option_map (λ t. t.now) on.entry)) found head.now v.now) }
{
    if is_texture(head.comps, v.predict) {
        put_coordinates(alloc, out, on, positions, head, v, plain)
    } else {
        put_plainly(alloc, out, on, head, v, plain)
    }
}

/// Appends the values of an attribute, behind what was found of the positions.
#[tactic(auto, unfolding(crate::specs::Written::values_bytes))]
pub fn put_values(
    alloc: Global,
    out: &mut Vec<u8>,
    on: Option<&Ordered<'_>>,
    found: ReadPositions<'_>,
    head: &Head,
    v: &Values,
    plain: bool,
) -> Result<(), Memory>
    requires values { ValuesPass (surface_of (option_map (λ t. t.now) on)) head.now v.now }
    requires on { MayBeOver (option_map (λ t. t.now) on) }
    ensures bytes { OnOk result (out.new.items ≡ out.old.items ++ values_bytes plain (surface_of (option_map (λ t. t.now) on.entry)) (read_in found.entry) head.now v.now) }
    ensures again { OnOk result (ValuesSpelled plain (surface_of (option_map (λ t. t.now) on.entry)) (read_in found.entry) head.now v.now) }
{
    let positions = usable(&found);
    match head.octa {
        None => put_unsquared(alloc, out, on, positions, head, v, plain),
        Some(bits) => put_in_square(alloc, out, on, positions, head, bits, v, plain),
    }
}
