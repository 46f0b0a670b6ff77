//! Encoding a geometry.

ghost use Rattle.std.specs.Prelude.{◌≡◌, true, false, Ok, Err, Some, None, IfOk};
ghost use Rattle.drc_base.specs.declared.faults.Fault.{Fault as AnyFault};
ghost use Rattle.drc_base.specs.declared.faults.Refusal.TheVariants as refusal;
ghost use Rattle.drc_base.specs.Refusals.{Answers};
ghost use Rattle.attr_heads.specs.FirstFault.{value_unless};
ghost use Rattle.mesh_model.specs.Renumbering.{plain};
ghost use Rattle.mesh_model.specs.SameLaws.{count_of};
ghost use Rattle.drc_container.specs.choice.Choice.{method_of, is_sequential, predict_chosen};
ghost use Rattle.drc_container.specs.choice.Refused.{early_fault, face_fault, refused};
ghost use Rattle.drc_container.specs.writing.Written.{values_of};
ghost use Rattle.drc_container.specs.writing.Encoded.{encoding_due, CanCodeInOrder, Means};
ghost use Rattle.drc_container.specs.writing.Layout.{IsLaidOut};

use crate::choice::choices::Choice;
use crate::choice::choosing::{coding_of, is_sequential, predict_of};
use crate::choice::refusals::{test_early, test_ranges};
use crate::writing::coded_values::values_of;
use crate::writing::edgebreaker::encode_surface;
use crate::writing::sequential::write_stream;
use attr_section::Values;
use drc_base::{Memory, Refusal, Sequence};
use mesh_model::{Geometry, GeometryView, Renumber};
use std::alloc::Global;

/// The stream of a geometry, coded as chosen, and the rows by which its geometry is the one that is
/// encoded, which the stream means with the same heads and the same integers.
///
/// By the sequential method the stream means the same points in the same order and the same faces:
/// row i is (i, 0). By Edgebreaker, which is for meshes alone, the faces are in the order of decoding:
/// row i names the face that face i of the stream's mesh is, and by how much its corners are turned.
/// What is kept is the surface that the pairs of the mesh make, under the new numbers of its faces. Of
/// points only what the corners of faces have is kept: the stream's points are the distinct rows of its
/// corners, a point of no face is dropped, and equal points become one.
///
/// What is chosen of the predictions asks one of each attribute. In place of normals of faces stands the entry before, where there is
/// no surface or the first position has other components than three; in place of either stands none, where a value isn't in the
/// canonical spelling of its point; and in place of the projection of texture coordinates stands one parallelogram, where it needs
/// such positions, or a number of it has no place in 64 bits. The stream is one of profile 2 where no attribute is octahedral
/// and nothing else is chosen than component by component, and of profile 3 else.
///
/// Refusals, the first that applies. `Choice`: at 0 a cloud with Edgebreaker, at 1 an index method
/// where the method isn't sequential on a mesh, at 2 a prediction over a surface and at 3 a walk where
/// the method is sequential. `Empty` at 0: no points under the sequential method, no faces else.
/// `NoPosition` at 0: Edgebreaker, and the first attribute is no position. `Degenerate` at the number of
/// the first face with two corners at one position: Edgebreaker. `PointLimit` at the number of vertices
/// of the surface where that is above `MAX_POINTS`: Edgebreaker. `ValueLimit` at the number of coded
/// values where that is above `MAX_VALUES`. `Range` at the number of the first attribute without a square that is
/// predicted though the greatest of its coded values is 2^31 - 1 or more above the least. `Choice`, `Empty`,
/// `NoPosition` and `Degenerate` come before out of memory, which never stands in for these.
pub fn encode(alloc: Global, g: &Geometry, choice: &Choice) -> Result<(Vec<u8>, Renumber), Refusal>
    ensures answer { Answers (λ r. (r.0.items, r.1.rows)) (encoding_due g.now choice.now) result }
    ensures early { (f : AnyFault) → early_fault g.now choice.now ≡ Some f → result ≡ Err (refusal.Fault f) }
    ensures degenerate { (f : AnyFault) → early_fault g.now choice.now ≡ None → face_fault g.now choice.now ≡ Some f → result ≡ Err (refusal.Fault f) }
    ensures means { IfOk result (λ r. Means g.now choice.now r.0.items r.1.rows) }
    ensures layout { IfOk result (λ r. IsLaidOut g.now choice.now r.0.items) }
{
    let view = g.view();
    test_early(&view, choice)?;
    if is_sequential(&view, choice) {
        return encode_in_order(alloc, &view, choice);
    }
    encode_on_surface(alloc, g, choice)
}

/// The stream of a geometry that is lent, coded as chosen, and the rows by which its geometry is the one that is
/// encoded, as `encode` gives them. The sequential method reads the lent lists themselves; for Edgebreaker they are
/// copied.
///
/// Refusals: those of `encode`. `Choice`, `Empty` and `NoPosition` come before out of memory.
pub fn encode_view(
    alloc: Global,
    g: &GeometryView<'_>,
    choice: &Choice,
) -> Result<(Vec<u8>, Renumber), Refusal>
    ensures answer { Answers (λ r. (r.0.items, r.1.rows)) (encoding_due g.now choice.now) result }
    ensures early { (f : AnyFault) → early_fault g.now choice.now ≡ Some f → result ≡ Err (refusal.Fault f) }
    ensures means { IfOk result (λ r. Means g.now choice.now r.0.items r.1.rows) }
    ensures layout { IfOk result (λ r. IsLaidOut g.now choice.now r.0.items) }
{
    test_early(g, choice)?;
    if is_sequential(g, choice) {
        return encode_in_order(alloc, g, choice);
    }
    encode_copied(alloc, g, choice)
}

/// The stream of a geometry that is lent and has no earlier fault, by Edgebreaker.
fn encode_copied(
    alloc: Global,
    g: &GeometryView<'_>,
    choice: &Choice,
) -> Result<(Vec<u8>, Renumber), Refusal>
    requires early { early_fault g.now choice.now ≡ None }
    requires surface { is_sequential (method_of g.now choice.now) ≡ false }
    ensures answer { Answers (λ r. (r.0.items, r.1.rows)) (encoding_due g.now choice.now) result }
    ensures means { IfOk result (λ r. Means g.now choice.now r.0.items r.1.rows) }
    ensures layout { IfOk result (λ r. IsLaidOut g.now choice.now r.0.items) }
{
    let copy = g.copied(alloc)?;
    encode_on_surface(alloc, &copy, choice)
}

/// The stream of a geometry that has no earlier fault, by the sequential method.
fn encode_in_order(
    alloc: Global,
    g: &GeometryView<'_>,
    choice: &Choice,
) -> Result<(Vec<u8>, Renumber), Refusal>
    requires early { early_fault g.now choice.now ≡ None }
    requires sequential { is_sequential (method_of g.now choice.now) ≡ true }
    ensures answer { Answers (λ r. (r.0.items, r.1.rows)) (encoding_due g.now choice.now) result }
    ensures means { IfOk result (λ r. Means g.now choice.now r.0.items r.1.rows) }
    ensures layout { IfOk result (λ r. IsLaidOut g.now choice.now r.0.items) }
{
    let values = coded_values(alloc, g, choice)?;
    let bytes = write_stream(alloc, g, choice, values)?;
    let rows = plain_rows(alloc, row_count(g))?;
    Ok((
        bytes,
        Renumber {
            rows: Sequence::from_vec(rows),
        },
    ))
}

/// The stream of a geometry that has no earlier fault, by Edgebreaker.
fn encode_on_surface(
    alloc: Global,
    g: &Geometry,
    choice: &Choice,
) -> Result<(Vec<u8>, Renumber), Refusal>
    requires early { early_fault g.now choice.now ≡ None }
    requires surface { is_sequential (method_of g.now choice.now) ≡ false }
    ensures answer { Answers (λ r. (r.0.items, r.1.rows)) (encoding_due g.now choice.now) result }
    ensures degenerate { (f : AnyFault) → face_fault g.now choice.now ≡ Some f → result ≡ Err (refusal.Fault f) }
    ensures means { IfOk result (λ r. Means g.now choice.now r.0.items r.1.rows) }
    ensures layout { IfOk result (λ r. IsLaidOut g.now choice.now r.0.items) }
{
    match g {
        Geometry::Mesh(mesh) => {
            // For the prover alone: the call states what holds of every mesh.
            let _faces = mesh.face_count();
            let (bytes, rows) = encode_surface(alloc, mesh, &coding_of(&g.view(), choice))?;
            Ok((bytes, Renumber { rows }))
        }
        Geometry::Cloud(_) => unreachable!(),
    }
}

/// The values that the sequential method codes of a geometry that has no earlier fault.
fn coded_values(
    alloc: Global,
    g: &GeometryView<'_>,
    choice: &Choice,
) -> Result<Vec<Values>, Refusal>
    requires early { early_fault g.now choice.now ≡ None }
    requires sequential { is_sequential (method_of g.now choice.now) ≡ true }
    ensures answer { Answers (λ v. v.items) (value_unless (refused g.now choice.now) (values_of g.now (predict_chosen g.now choice.now))) result }
    ensures can { IfOk result (λ _. CanCodeInOrder g.now choice.now) }
{
    // For the prover alone: the call states what holds of every geometry.
    let _count = g.point_count();
    let predict = predict_of(g, choice);
    let values = values_of(alloc, g, predict)?;
    test_ranges(g.heads(), values.as_slice())?;
    Ok(values)
}

/// How many rows a renumbering of a geometry has: its faces, or the points of a cloud.
fn row_count(g: &GeometryView<'_>) -> u32
    ensures { result ≡ count_of g.now }
{
    if g.is_mesh() {
        g.face_count()
    } else {
        g.point_count()
    }
}

/// So many rows, each of which names its own number and has no turn.
fn plain_rows(alloc: Global, count: u32) -> Result<Vec<(u32, u8)>, Memory>
    ensures { IfOk result (λ v. v.items ≡ plain count) }
{
    let mut rows = Vec::with_capacity(alloc, count as usize)?;
    for i in 0..count {
        rows.push((i, 0))?;
    }
    Ok(rows)
}
