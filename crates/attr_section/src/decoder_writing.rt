//! Writing the values of a decoder.

ghost use Rattle.drc_base.specs.Profile.{profile_numbered};
ghost use Rattle.std.specs.Prelude.{◌≡◌, ◌≤◌, ◌+◌, ◌++◌, ℕ, List, Ok, OnOk, All, length};
ghost use Rattle.std.specs.List.{zip};
ghost use Rattle.std.specs.Option.{option_map};
ghost use Rattle.attr_section.specs.Heads.{bare_decoder};
ghost use Rattle.predict.specs.Surfaces.{surface_of, MayBeOver};
ghost use Rattle.attr_section.specs.Attributes.{values_in, decoder_values_at};
ghost use Rattle.attr_section.specs.Positions.{PositionsRead};
ghost use Rattle.attr_section.specs.TablePositions.{read_in};
ghost use Rattle.attr_section.specs.WrittenParts.{MayHaveFewFlags};
ghost use Rattle.attr_section.specs.Written.{attributes_bytes, decoder_values_bytes, values_placed, any_came_later, ValuesPass, DecoderValuesPass, HaveEntries, IsReadIn, AttributesSpelled, EndSpelled};

use crate::decoder_heads::DecoderHead;
use crate::positions::{ReadPositions, with_one};
use crate::quant_writing::put_ends;
use crate::value_writing::put_values;
use crate::values::Values;
use attr_heads::Head;
use drc_base::{MAX_VALUES, Memory};
use predict::Ordered;
use std::alloc::Global;

/// Appends the values of attributes, behind what was found of the positions.
fn put_attributes(
    alloc: Global,
    out: &mut Vec<u8>,
    on: Option<&Ordered<'_>>,
    found: ReadPositions<'_>,
    heads: &[Head],
    attributes: &[Values],
    plain: bool,
) -> Result<(), Memory>
    requires each_head { length attributes.now ≡ length heads.now }
    requires each { All (λ (h, v). ValuesPass (surface_of (option_map (λ t. t.now) on)) h v) (zip heads.now attributes.now) }
    requires on { MayBeOver (option_map (λ t. t.now) on) }
    ensures bytes { OnOk result (out.new.items ≡ out.old.items ++ attributes_bytes plain (surface_of (option_map (λ t. t.now) on.entry)) (read_in found.entry) heads.now attributes.now) }
    ensures again { OnOk result (AttributesSpelled plain (surface_of (option_map (λ t. t.now) on.entry)) (read_in found.entry) heads.now attributes.now) }
{
    let mut positions = found;
    for i in 0..heads.len() {
        let head = &heads[i];
        let values = &attributes[i];
        put_values(alloc, out, on, positions, head, values, plain)?;
        positions = with_one(on, positions, head, values.values.as_slice());
    }
    Ok(())
}

/// Appends the values of a decoder and what stands at its end, each of which is read back.
#[tactic(auto, unfolding(crate::specs::Written::decoder_values_bytes))]
fn put_decoder(
    alloc: Global,
    out: &mut Vec<u8>,
    on: Option<&Ordered<'_>>,
    found: ReadPositions<'_>,
    heads: &[Head],
    attributes: &[Values],
    plain: bool,
) -> Result<(), Memory>
    requires values { DecoderValuesPass (surface_of (option_map (λ t. t.now) on)) heads.now attributes.now }
    requires on { MayBeOver (option_map (λ t. t.now) on) }
    ensures bytes { OnOk result (out.new.items ≡ out.old.items ++ decoder_values_bytes plain (surface_of (option_map (λ t. t.now) on.entry)) (read_in found.entry) heads.now attributes.now) }
    ensures again { OnOk result (AttributesSpelled plain (surface_of (option_map (λ t. t.now) on.entry)) (read_in found.entry) heads.now attributes.now) }
    ensures ends { OnOk result (All EndSpelled heads.now) }
{
    put_attributes(alloc, out, on, found, heads, attributes, plain)?;
    put_ends(out, heads)?;
    Ok(())
}

/// Appends the values `v` of the decoder `h`, attribute after attribute, and then what stands at its end, quantisations and the
/// bits of squares: values as they are where `plain` says so, else in symbol blocks. `on` is the surface that the values of an
/// Edgebreaker stream stand on, in the decoder's order; None stands for a sequential stream. `found` is what stands in the stream
/// of the positions before the decoder. An attribute without a square may ask for no prediction, for the difference, over a
/// surface also for parallelograms, one or the mean of several, and with two components for the prediction of texture coordinates
/// from positions; one with a square may ask for none, the difference, or normals. Over a surface, attributes that ask for more
/// than the difference have values for each of its entries. Three things are written otherwise than they are asked for: normals
/// without a surface, or without positions that can be used, by the difference; values of a square in another spelling than the
/// canonical one by none; and texture coordinates that can't be projected by a parallelogram. What is written is read back over
/// that surface, wherever it begins and whatever follows it, and takes exactly the length of its bytes, for the number of entries
/// that the values have, where the values of all decoders are within their limit, and no list of flags over the surface has more of
/// them than there are corners (`flags_are_few`): in each profile from the second on, and whatever was read of the positions
/// before, if no attribute has a square and none asks for the prediction from positions; else in each profile that has these,
/// behind the same positions. It fails only when out of memory, and what `out` holds then is left open.
pub fn write_decoder(
    alloc: Global,
    out: &mut Vec<u8>,
    h: &DecoderHead,
    v: &[Values],
    plain: bool,
    on: Option<&Ordered<'_>>,
    found: ReadPositions<'_>,
) -> Result<(), Memory>
    requires values { DecoderValuesPass (surface_of (option_map (λ t. t.now) on)) h.now.heads v.now }
    requires on { MayBeOver (option_map (λ t. t.now) on) }
    ensures bytes { OnOk result (out.new.items ≡ out.old.items ++ decoder_values_bytes plain (surface_of (option_map (λ t. t.now) on.entry)) (read_in found.entry) h.now.heads v.now) }
    ensures again { OnOk result (let bytes = decoder_values_bytes plain (surface_of (option_map (λ t. t.now) on.entry)) (read_in found.entry) h.now.heads v.now in
        MayHaveFewFlags (surface_of (option_map (λ t. t.now) on.entry)) → (n : ℕ) (before : PositionsRead) (entries spent place : ℕ) (rest : List ℕ) → IsReadIn n (read_in found.entry) before (any_came_later h.now.heads v.now) → HaveEntries entries h.now.heads v.now → spent + values_in v.now ≤ MAX_VALUES → decoder_values_at (profile_numbered n) (surface_of (option_map (λ t. t.now) on.entry)) before (bare_decoder h.now) entries spent (record { place = place; rest = bytes ++ rest }) ≡ Ok ((values_placed plain (surface_of (option_map (λ t. t.now) on.entry)) (read_in found.entry) place h.now.heads v.now, h.now), record { place = place + length bytes; rest = rest })) }
{
    put_decoder(alloc, out, on, found, h.heads.as_slice(), v, plain)?;
    Ok(())
}
