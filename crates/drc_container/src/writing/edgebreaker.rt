//! Encoding a mesh by Edgebreaker.

ghost use Rattle.std.specs.Prelude.{◌≡◌, ◌<◌, ◌-◌, ◌++◌, ℕ, List, map, length, Some, Err, All, IfOk, OnOk};
ghost use Rattle.std.specs.Option.{option_map};
ghost use Rattle.std.specs.List.{enumerate_from};
ghost use Rattle.drc_base.specs.declared.faults.Fault.{Fault as AnyFault};
ghost use Rattle.drc_base.specs.declared.faults.Refusal.TheVariants as refusal;
ghost use Rattle.drc_base.specs.Refusals.{Answers};
ghost use Rattle.drc_bits.specs.Spells.{Spells};
ghost use Rattle.attr_heads.specs.FirstFault.{value_unless};
ghost use Rattle.mesh_model.specs.Same.{Rows};
ghost use Rattle.pairing.specs.Degenerate.{degenerate_fault};
ghost use Rattle.drc_base.specs.Profile.{profile_numbered};
ghost use Rattle.attr_section.specs.Heads.{bare_decoder, heads_at};
ghost use Rattle.drc_container.specs.choice.Refused.{values_fault};
ghost use Rattle.drc_container.specs.choice.CanCode.{CanCode};
ghost use Rattle.drc_container.specs.choice.Predicts.{needed_number};
ghost use Rattle.drc_container.specs.writing.WrittenOnSurface.{coded_values, decoders_for, decoder_heads_bytes, values_bytes_on};
ghost use Rattle.drc_container.specs.surface.AttributeSurfaces.{glued_by, glued_on, flag_lists, AreAttributeSurfaces};
ghost use Rattle.drc_container.specs.writing.Encoded.{due_on_surface, CanCodeSurface, AttributeSpelled, SurfaceSpelled};

use crate::choice::codings::Coding;
use crate::surface::attribute_surfaces::{AttributeSurfaces, surfaces_of};
use crate::surface::seamed_surface::SeamedSurface;
use crate::surface::traced_surfaces::traced_surface;
use crate::surface::turned_meshes::TurnedMesh;
use crate::writing::decoders::write_attributes;
use crate::writing::preludes::write_prelude;
use crate::writing::surface_values::values_on;
use corner_table::SideTable;
use drc_base::{Refusal, Sequence};
use mesh_model::CornerMesh;
use std::alloc::Global;

/// Appends the attributes of a mesh over the surfaces that their values stand on. Refusals, the first that applies:
/// ValueLimit at the number of coded values, Range at the first attribute whose values lie too far apart to be
/// corrected by wrap.
fn put_attributes_over(
    alloc: Global,
    out: &mut Vec<u8>,
    s: &AttributeSurfaces<'_>,
    coding: &Coding,
) -> Result<(), Refusal>
    requires stands { AreAttributeSurfaces coding.now.degree s.now }
    requires some { 0 < length s.now.mesh.faces }
    ensures answer { let d = glued_on s.now in
        Answers (λ _. out.new.items) (value_unless (values_fault coding.now d) (out.old.items ++ (decoder_heads_bytes coding.now d ++ values_bytes_on coding.now d))) result }
    ensures can { OnOk result (CanCode s.now.mesh.heads (coded_values coding.now (glued_on s.now))) }
    ensures heads { let d = glued_on s.now in
        OnOk result (Spells (heads_at (profile_numbered (needed_number coding.now.predict d.mesh.heads)) (Some (length d.mesh.heads - 1))) (decoder_heads_bytes coding.now d) (map bare_decoder (decoders_for coding.now d))) }
    ensures again { let d = glued_on s.now in
        OnOk result (All (λ (k, h). AttributeSpelled (needed_number coding.now.predict d.mesh.heads) coding.now d k h) (enumerate_from 0 d.mesh.heads)) }
{
    let values = values_on(alloc, s, coding)?;
    write_attributes(alloc, out, s, coding, values.as_slice())?;
    Ok(())
}

/// Appends the attributes of a mesh as it is decoded, with the seams of its surface. Refusals, the first that
/// applies: ValueLimit at the number of coded values, Range at the first attribute whose values lie too far apart to be
/// corrected by wrap.
fn put_attributes(
    alloc: Global,
    out: &mut Vec<u8>,
    mesh: TurnedMesh<'_>,
    sides: SideTable,
    flags: Vec<Option<Vec<bool>>>,
    coding: &Coding,
) -> Result<(), Refusal>
    requires faces { sides.faces ≡ length mesh.faces }
    requires flags { map (option_map (λ v. v.items)) flags.items ≡ flag_lists (glued_by mesh sides) }
    requires some { 0 < length mesh.faces }
    ensures answer { let d = glued_by mesh.entry sides in
        Answers (λ _. out.new.items) (value_unless (values_fault coding.now d) (out.old.items ++ (decoder_heads_bytes coding.now d ++ values_bytes_on coding.now d))) result }
    ensures can { OnOk result (CanCode mesh.entry.heads (coded_values coding.now (glued_by mesh.entry sides))) }
    ensures heads { let d = glued_by mesh.entry sides in
        OnOk result (Spells (heads_at (profile_numbered (needed_number coding.now.predict mesh.entry.heads)) (Some (length mesh.entry.heads - 1))) (decoder_heads_bytes coding.now d) (map bare_decoder (decoders_for coding.now d))) }
    ensures again { OnOk result (All (λ (k, h). AttributeSpelled (needed_number coding.now.predict mesh.entry.heads) coding.now (glued_by mesh.entry sides) k h) (enumerate_from 0 mesh.entry.heads)) }
{
    let surfaces = surfaces_of(alloc, mesh, sides, flags, coding.degree)?;
    put_attributes_over(alloc, out, &surfaces, coding)
}

/// The stream of a mesh by Edgebreaker, and its faces in the order of decoding, each with its turn. Refusals,
/// the first that applies: Degenerate at the first face with two equal positions, PointLimit at the number of
/// vertices, ValueLimit at the number of coded values, Range at the first attribute whose values can't be
/// predicted. Each part of the stream is read back.
pub fn encode_surface(
    alloc: Global,
    mesh: &CornerMesh,
    coding: &Coding,
) -> Result<(Vec<u8>, Sequence<(u32, u8)>), Refusal>
    requires some { 0 < length mesh.now.faces }
    ensures answer { Answers {B = List ℕ × Rows} (λ r. (r.0.items, r.1)) (due_on_surface coding.now mesh.now) result }
    ensures degenerate { (f : AnyFault) → degenerate_fault mesh.now ≡ Some f → result ≡ Err (refusal.Fault f) }
    ensures can { IfOk result (λ _. CanCodeSurface coding.now mesh.now) }
    ensures spelled { IfOk result (λ _. SurfaceSpelled coding.now mesh.now) }
{
    // For the prover alone: the call states what holds of every mesh.
    let _heads = mesh.heads();
    let traced = traced_surface(alloc, mesh)?;
    let mut out = Vec::new(alloc);
    let SeamedSurface { rows, sides, flags } = write_prelude(
        alloc,
        &mut out,
        mesh,
        traced,
        coding.valence,
    )?;
    let decoded = TurnedMesh::new(mesh, rows.as_slice());
    put_attributes(alloc, &mut out, decoded, sides, flags, coding)?;
    Ok((out, rows))
}
