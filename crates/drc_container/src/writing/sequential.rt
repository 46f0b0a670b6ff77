//! Writing a sequential stream.

ghost use Rattle.drc_base.specs.Profile.{profile};
ghost use Rattle.std.specs.Prelude.{◌≡◌, ◌≤◌, ◌<◌, ◌++◌, [], ◌∷◌, IfOk, OnOk, length};
ghost use Rattle.drc_bits.specs.Bits.{low_bytes};
ghost use Rattle.drc_bits.specs.Spells.{Spells};
ghost use Rattle.drc_base.specs.declared.limits.TheConstants.{MAX_POINTS};
ghost use Rattle.mesh_model.specs.declared.geometries.Geometry.TheVariants as geometry;
ghost use Rattle.mesh_model.specs.Parts.{ArePoints};
ghost use Rattle.mesh_model.specs.Renumbering.{plain};
ghost use Rattle.mesh_model.specs.SameLaws.{count_of};
ghost use Rattle.mesh_model.specs.Contents.{heads_in, points_in};
ghost use Rattle.seq_section.specs.Indices.{indices_at};
ghost use Rattle.drc_container.specs.choice.Choice.{predict_chosen, index_of, is_packed};
ghost use Rattle.drc_container.specs.Header.{cloud_points_at};
ghost use Rattle.drc_container.specs.writing.Written.{geometry_type, sequential_connectivity_bytes, sequential_attributes_bytes, decoder_of, values_of, stream_bytes};
ghost use Rattle.drc_container.specs.writing.Encoded.{CanCodeInOrder, ConnectivitySpelled, AttributesSpelled, Means};
ghost use Rattle.drc_container.specs.writing.Layout.{IsLaidOut};

use crate::choice::choices::Choice;
use crate::choice::choosing::packs;
use crate::headers::{CLOUD, MESH, SEQUENTIAL, put_header};
use attr_heads::copies_of;
use attr_section::{DecoderHead, ReadPositions, Values, write_decoder, write_heads};
use drc_base::{MAX_POINTS, Memory, Sequence};
use mesh_model::GeometryView;
use seq_section::write_indices;
use std::alloc::Global;

/// The geometry type of a geometry.
fn geometry_type(g: &GeometryView<'_>) -> u8
    ensures { result ≡ geometry_type g.now }
{
    if g.is_mesh() { MESH } else { CLOUD }
}

/// Appends the number of points of a cloud.
fn put_cloud_points(out: &mut Vec<u8>, points: u32) -> Result<(), Memory>
    requires { points ≤ MAX_POINTS }
    ensures bytes { OnOk result (out.new.items ≡ out.old.items ++ low_bytes 4 points) }
    ensures again { OnOk result (Spells (cloud_points_at profile) (low_bytes 4 points) points) }
{
    out.extend_from_slice(&points.to_le_bytes())?;
    Ok(())
}

/// Appends the connectivity of a geometry: the indices of a mesh, the number of points of a cloud.
fn put_connectivity(
    alloc: Global,
    out: &mut Vec<u8>,
    g: &GeometryView<'_>,
    packed: bool,
) -> Result<(), Memory>
    ensures bytes { OnOk result (out.new.items ≡ out.old.items ++ sequential_connectivity_bytes packed g.now) }
    ensures again { OnOk result (ConnectivitySpelled packed g.now) }
{
    let points = g.point_count();
    match g.faces() {
        Some(faces) => write_indices(alloc, out, faces, points, packed),
        None => put_cloud_points(out, points),
    }
}

/// The one decoder of all attributes.
fn decoder_of(alloc: Global, g: &GeometryView<'_>) -> Result<DecoderHead, Memory>
    ensures { IfOk result (λ d. d ≡ decoder_of g.now) }
{
    let heads = copies_of(alloc, g.heads())?;
    Ok(DecoderHead {
        data_id: None,
        corner: false,
        degree: false,
        heads: Sequence::from_vec(heads),
    })
}

/// The list of the one decoder of all attributes.
fn decoders_of(alloc: Global, g: &GeometryView<'_>) -> Result<Vec<DecoderHead>, Memory>
    ensures { IfOk result (λ v. v.items ≡ decoder_of g.now ∷ []) }
{
    let mut decoders = Vec::new(alloc);
    decoders.push(decoder_of(alloc, g)?)?;
    Ok(decoders)
}

/// Appends the attributes: their heads, and then their values.
#[tactic(auto, unfolding(crate::specs::writing::Written::sequential_attributes_bytes))]
fn put_attributes(
    alloc: Global,
    out: &mut Vec<u8>,
    g: &GeometryView<'_>,
    choice: &Choice,
    values: &[Values],
) -> Result<(), Memory>
    requires can { CanCodeInOrder g.now choice.now }
    requires sound { ArePoints (heads_in g.now) (points_in g.now) }
    requires values { values.now ≡ values_of g.now (predict_chosen g.now choice.now) }
    ensures bytes { OnOk result (out.new.items ≡ out.old.items ++ sequential_attributes_bytes choice.now.plain_values g.now (predict_chosen g.now choice.now)) }
    ensures again { OnOk result (AttributesSpelled choice.now.plain_values g.now (predict_chosen g.now choice.now)) }
{
    let decoders = decoders_of(alloc, g)?;
    write_heads(out, decoders.as_slice(), false)?;
    let plain = choice.plain_values;
    let found = ReadPositions::NotYet;
    write_decoder(alloc, out, &decoders[0], values, plain, None, found)?;
    Ok(())
}

/// Appends the stream, each part of which is read back.
#[tactic(auto, unfolding(crate::specs::writing::Written::stream_bytes, crate::specs::writing::Written::header_bytes))]
fn put_stream(
    alloc: Global,
    out: &mut Vec<u8>,
    g: &GeometryView<'_>,
    choice: &Choice,
    values: &[Values],
) -> Result<(), Memory>
    requires can { CanCodeInOrder g.now choice.now }
    requires sound { ArePoints (heads_in g.now) (points_in g.now) }
    requires values { values.now ≡ values_of g.now (predict_chosen g.now choice.now) }
    ensures bytes { OnOk result (out.new.items ≡ out.old.items ++ stream_bytes g.now choice.now) }
    ensures connectivity { OnOk result (ConnectivitySpelled (is_packed (index_of choice.now)) g.now) }
    ensures attributes { OnOk result (AttributesSpelled choice.now.plain_values g.now (predict_chosen g.now choice.now)) }
{
    put_header(out, geometry_type(g), SEQUENTIAL)?;
    put_connectivity(alloc, out, g, packs(choice))?;
    put_attributes(alloc, out, g, choice, values)?;
    Ok(())
}

/// The sequential stream of a geometry with these values, which are freed. It means the geometry, and is
/// coded as chosen.
pub fn write_stream(
    alloc: Global,
    g: &GeometryView<'_>,
    choice: &Choice,
    values: Vec<Values>,
) -> Result<Vec<u8>, Memory>
    requires can { CanCodeInOrder g.now choice.now }
    requires values { values.items ≡ values_of g.now (predict_chosen g.now choice.now) }
    ensures bytes { IfOk result (λ v. v.items ≡ stream_bytes g.now choice.now) }
    ensures means { IfOk result (λ v. Means g.now choice.now v.items (plain (count_of g.now))) }
    ensures layout { IfOk result (λ v. IsLaidOut g.now choice.now v.items) }
{
    // For the prover alone: the call states what holds of every geometry.
    let _count = g.point_count();
    let mut out = Vec::new(alloc);
    put_stream(alloc, &mut out, g, choice, values.as_slice())?;
    Ok(out)
}
