//! The decoders of a mesh's attributes by Edgebreaker: their heads, and the values of each.

ghost use Rattle.std.specs.Prelude.{◌≡◌, ◌<◌, ◌-◌, ◌++◌, ℕ, List, Some, Ok, map, length, get_or, All, IfOk, OnOk};
ghost use Rattle.std.specs.List.{enumerate_from};
ghost use Rattle.drc_bits.specs.Spells.{Spells};
ghost use Rattle.drc_base.specs.Profile.{profile_numbered};
ghost use Rattle.attr_section.specs.Heads.{bare_decoder, heads_at};
ghost use Rattle.attr_section.specs.Positions.{with_attribute};
ghost use Rattle.attr_section.specs.Written.{decoder_values_bytes, DecoderValuesPass, HaveEntries, IsReadIn, any_came_later};
ghost use Rattle.drc_container.specs.writing.WrittenOnSurface.{surface_order, positions_before, coded_values, data_id_of, decoder_for, decoders_for, values_bytes_on, decoder_heads_bytes};
ghost use Rattle.attr_section.specs.TablePositions.{read_in};
ghost use Rattle.drc_container.specs.choice.CanCode.{CanCode};
ghost use Rattle.drc_container.specs.choice.Predicts.{needed_number};
ghost use Rattle.drc_container.specs.writing.Encoded.{AttributeSpelled, AreReadAgain};
ghost use Rattle.drc_container.specs.surface.AttributeSurfaces.{glued_on, order_in, AreAttributeSurfaces};

use crate::choice::codings::Coding;
use crate::surface::attribute_surfaces::{AttributeSurfaces, is_cut_at, surface_at};
use crate::surface::ordered_surface::OrderedSurface;
use attr_heads::Head;
use attr_section::{
    DecoderHead, Ordered, POSITION_ID, Positions, ReadPositions, Values, with_attribute,
    write_decoder, write_heads,
};
use drc_base::{Memory, Sequence};
use std::alloc::Global;

/// The data id of an attribute: the first one has the surface itself, each other one an attribute data of
/// its own.
fn data_id_of(attr: u8) -> u8
    ensures { result ≡ data_id_of attr }
{
    if attr == 0 { POSITION_ID } else { attr - 1 }
}

/// The decoder of an attribute, which has this head.
fn decoder_for(
    alloc: Global,
    s: &AttributeSurfaces<'_>,
    coding: &Coding,
    attr: u8,
    head: &Head,
) -> Result<DecoderHead, Memory>
    requires stands { AreAttributeSurfaces coding.now.degree s.now }
    requires attribute { attr < length s.now.mesh.heads }
    ensures { IfOk result (λ d. d ≡ decoder_for coding.now (glued_on s.now) attr head.now) }
{
    let corner = is_cut_at(s, attr as usize);
    let mut heads = Vec::new(alloc);
    heads.push(head.copy(alloc)?)?;
    Ok(DecoderHead {
        data_id: Some(data_id_of(attr)),
        corner,
        degree: coding.degree && !corner,
        heads: Sequence::from_vec(heads),
    })
}

/// The decoders of the attributes.
fn decoders_of(
    alloc: Global,
    s: &AttributeSurfaces<'_>,
    coding: &Coding,
) -> Result<Vec<DecoderHead>, Memory>
    requires { AreAttributeSurfaces coding.now.degree s.now }
    ensures { IfOk result (λ v. v.items ≡ decoders_for coding.now (glued_on s.now)) }
{
    let mut decoders = Vec::new(alloc);
    for (attr, head) in s.mesh.heads().iter().enumerate() {
        decoders.push(decoder_for(alloc, s, coding, attr as u8, head)?)?;
    }
    Ok(decoders)
}

/// Appends the heads of the decoders.
fn put_decoder_heads(
    out: &mut Vec<u8>,
    s: &AttributeSurfaces<'_>,
    coding: &Coding,
    decoders: &[DecoderHead],
) -> Result<(), Memory>
    requires stands { AreAttributeSurfaces coding.now.degree s.now }
    requires decoders { decoders.now ≡ decoders_for coding.now (glued_on s.now) }
    ensures bytes { OnOk result (out.new.items ≡ out.old.items ++ decoder_heads_bytes coding.now (glued_on s.now)) }
    ensures again { OnOk result (Spells (heads_at (profile_numbered (needed_number coding.now.predict s.now.mesh.heads)) (Some (length s.now.mesh.heads - 1))) (decoder_heads_bytes coding.now (glued_on s.now)) (map bare_decoder (decoders_for coding.now (glued_on s.now)))) }
{
    // For the prover alone: the call states what holds of every mesh.
    let _heads = s.mesh.heads();
    write_heads(out, decoders, true)?;
    Ok(())
}

/// Appends the values of a decoder over the surface that they stand on, behind what was found of the positions.
fn put_values_over(
    alloc: Global,
    out: &mut Vec<u8>,
    surface: &OrderedSurface,
    found: ReadPositions<'_>,
    decoder: &DecoderHead,
    values: &[Values],
    plain: bool,
) -> Result<(), Memory>
    requires values { DecoderValuesPass (Some (order_in surface.now)) decoder.now.heads values.now }
    requires entries { HaveEntries (length (order_in surface.now).corners) decoder.now.heads values.now }
    ensures bytes { OnOk result (out.new.items ≡ out.old.items ++ decoder_values_bytes plain (Some (order_in surface.now)) (read_in found.entry) decoder.now.heads values.now) }
    ensures again { OnOk result ((n : ℕ) → IsReadIn n (read_in found.entry) (read_in found.entry) (any_came_later decoder.now.heads values.now) → AreReadAgain n plain (order_in surface.now) (read_in found.entry) decoder.now values.now) }
{
    let on = Ordered {
        sides: &surface.sides,
        classes: &surface.classes,
        order: &surface.order,
    };
    write_decoder(alloc, out, decoder, values, plain, Some(&on), found)?;
    Ok(())
}

/// Appends the values of the decoder of attribute `attr`, behind what was found of the positions.
fn put_decoder_values(
    alloc: Global,
    out: &mut Vec<u8>,
    s: &AttributeSurfaces<'_>,
    coding: &Coding,
    attr: usize,
    found: ReadPositions<'_>,
    decoder: &DecoderHead,
    values: &[Values],
) -> Result<(), Memory>
    requires stands { AreAttributeSurfaces coding.now.degree s.now }
    requires attribute { attr < length s.now.mesh.heads }
    requires values { DecoderValuesPass (Some (surface_order coding.now (glued_on s.now) attr)) decoder.now.heads values.now }
    requires entries { HaveEntries (length (surface_order coding.now (glued_on s.now) attr).corners) decoder.now.heads values.now }
    ensures bytes { OnOk result (out.new.items ≡ out.old.items ++ decoder_values_bytes coding.now.plain (Some (surface_order coding.now (glued_on s.now) attr)) (read_in found.entry) decoder.now.heads values.now) }
    ensures again { OnOk result ((n : ℕ) → IsReadIn n (read_in found.entry) (read_in found.entry) (any_came_later decoder.now.heads values.now) → AreReadAgain n coding.now.plain (surface_order coding.now (glued_on s.now) attr) (read_in found.entry) decoder.now values.now) }
{
    let surface = surface_at(s, attr);
    put_values_over(alloc, out, surface, found, decoder, values, coding.plain)?;
    Ok(())
}

/// What stands of the positions behind an attribute with these values over a surface.
fn found_behind<'t>(
    surface: &'t OrderedSurface,
    found: ReadPositions<'t>,
    head: &Head,
    values: &'t Values,
) -> ReadPositions<'t>
    ensures { read_in result ≡ with_attribute (read_in found.entry) head.now values.now.values (Some (order_in surface.now).entries) }
{
    let positions = Positions {
        values: values.values.as_slice(),
        classes: surface.classes.of_corner.as_slice(),
        entry_of_class: surface.order.entry_of_class.as_slice(),
    };
    with_attribute(found, head, positions)
}

/// Appends the values of the attributes, each behind what stands of the positions in front of it.
fn put_values(
    alloc: Global,
    out: &mut Vec<u8>,
    s: &AttributeSurfaces<'_>,
    coding: &Coding,
    decoders: &[DecoderHead],
    values: &[Values],
) -> Result<(), Memory>
    requires stands { AreAttributeSurfaces coding.now.degree s.now }
    requires some { 0 < length s.now.mesh.faces }
    requires can { CanCode s.now.mesh.heads (coded_values coding.now (glued_on s.now)) }
    requires decoders { decoders.now ≡ decoders_for coding.now (glued_on s.now) }
    requires values { values.now ≡ coded_values coding.now (glued_on s.now) }
    ensures bytes { OnOk result (out.new.items ≡ out.old.items ++ values_bytes_on coding.now (glued_on s.now)) }
    ensures again { OnOk result (All (λ (k, h). AttributeSpelled (needed_number coding.now.predict s.now.mesh.heads) coding.now (glued_on s.now) k h) (enumerate_from 0 s.now.mesh.heads)) }
{
    // For the prover alone: the call states that the table is a surface.
    let _faces = s.whole.sides.face_count();
    let heads = s.mesh.heads();
    let mut found = ReadPositions::NotYet;
    for attr in 0..decoders.len() {
        let its_values = &values[attr..attr + 1];
        put_decoder_values(
            alloc,
            out,
            s,
            coding,
            attr,
            found,
            &decoders[attr],
            its_values,
        )?;
        found = found_behind(surface_at(s, attr), found, &heads[attr], &values[attr]);
    }
    Ok(())
}

/// Appends the attributes: the heads of their decoders, and then their values.
pub fn write_attributes(
    alloc: Global,
    out: &mut Vec<u8>,
    s: &AttributeSurfaces<'_>,
    coding: &Coding,
    values: &[Values],
) -> Result<(), Memory>
    requires stands { AreAttributeSurfaces coding.now.degree s.now }
    requires some { 0 < length s.now.mesh.faces }
    requires can { CanCode s.now.mesh.heads (coded_values coding.now (glued_on s.now)) }
    requires values { values.now ≡ coded_values coding.now (glued_on s.now) }
    ensures bytes { OnOk result (out.new.items ≡ out.old.items ++ (decoder_heads_bytes coding.now (glued_on s.now) ++ values_bytes_on coding.now (glued_on s.now))) }
    ensures heads { OnOk result (Spells (heads_at (profile_numbered (needed_number coding.now.predict s.now.mesh.heads)) (Some (length s.now.mesh.heads - 1))) (decoder_heads_bytes coding.now (glued_on s.now)) (map bare_decoder (decoders_for coding.now (glued_on s.now)))) }
    ensures again { OnOk result (All (λ (k, h). AttributeSpelled (needed_number coding.now.predict s.now.mesh.heads) coding.now (glued_on s.now) k h) (enumerate_from 0 s.now.mesh.heads)) }
{
    let decoders = decoders_of(alloc, s, coding)?;
    put_decoder_heads(out, s, coding, decoders.as_slice())?;
    put_values(alloc, out, s, coding, decoders.as_slice(), values)?;
    Ok(())
}
