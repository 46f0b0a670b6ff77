//! Clouds as kd-tree files: from PLY text, and back to it.

ghost use Rattle.std.specs.Prelude.{◌≡◌, Err, IfOk, IsOkAnd, IsTrue};
ghost use Rattle.drc_base.specs.declared.faults.Fault.{Fault as AnyFault};
ghost use Rattle.drc_base.specs.declared.faults.Refusal.TheVariants as refusal;
ghost use Rattle.drc_base.specs.Refusals.{Answers};
ghost use Rattle.attr_heads.specs.ProfileHeads.{has_heads};
ghost use Rattle.mesh_model.specs.Contents.{heads_in};
ghost use Rattle.mesh_model.specs.MapText.{map_words};
ghost use Rattle.ply_text.specs.DeclaredLines.{declared_of_text};
ghost use Rattle.ply_mesh.specs.Read.{ply_read};
ghost use Rattle.kd_points.specs.Meaning.{kd_meaning, kd_declared_of};
ghost use Rattle.drc_app.specs.Due.{kd_coded_due, text_kd_due, kd_text_due};
ghost use Rattle.drc_app.specs.Kept.{IsKdCoded, IsReadAs};
ghost use Rattle.drc_app.specs.Outcome.{output_bytes, due_bytes};

use crate::outcomes::{Due, Output, text_read};
use attr_heads::Head;
use drc_base::{Memory, PROFILE_TWO, Refusal};
use kd_points::{kd_decode, kd_encode};
use mesh_model::{Cloud, Geometry, map_text};
use ply_mesh::PlyText;
use std::alloc::Global;

/// An attribute of one integer a point.
const LABEL: Head = Head {
    usage: 4,
    dtype: 5,
    comps: 1,
    normalized: 0,
    id: 0,
    quant: None,
    octa: None,
};

/// The kd-tree file of the cloud that a text means, and the map of its points. Refused by the text's first
/// fault, and then as by `kd_encode`.
pub fn kd_due(alloc: Global, text: Vec<u8>) -> Result<Due, Refusal>
    ensures answer { Answers due_bytes (text_kd_due text.items) result }
    ensures early { (f : AnyFault) → declared_of_text text.items ≡ Err f → result ≡ Err (refusal.Fault f) }
    ensures kept { IfOk result (λ d. IsOkAnd (ply_read text.items) (IsKdCoded (output_bytes d.output) d.note.items)) }
{
    let geometry = text_read(alloc, text, PROFILE_TWO)?;
    kd_coded_due(alloc, geometry)
}

/// A geometry that a map begins with the same words for: of a cloud one without points, so that its points are
/// freed.
fn of_the_kind(alloc: Global, geometry: Geometry) -> Result<Geometry, Memory>
    ensures { IfOk result (λ k. map_words k ≡ map_words geometry) }
{
    match geometry {
        Geometry::Cloud(_) => {
            let heads = vec![in alloc; LABEL]?;
            Ok(Geometry::Cloud(Cloud::new(heads, Vec::new(alloc)).unwrap()))
        }
        Geometry::Mesh(mesh) => Ok(Geometry::Mesh(mesh)),
    }
}

/// The kd-tree file of a geometry, and the map of its points. The points are freed before the map is made.
#[tactic(auto, unfolding(crate::specs::Due::kd_coded_due))]
fn kd_coded_due(alloc: Global, geometry: Geometry) -> Result<Due, Refusal>
    ensures answer { Answers due_bytes (kd_coded_due geometry) result }
    ensures kept { IfOk result (λ d. IsKdCoded (output_bytes d.output) d.note.items geometry) }
{
    let (output, rows) = kd_encode(alloc, &geometry)?;
    let kind = of_the_kind(alloc, geometry)?;
    let note = map_text(alloc, &kind, &rows)?;
    Ok(Due {
        output: Output::Bytes(output),
        note,
    })
}

/// The text of the cloud that a kd-tree file means, which is read as that cloud in profile 2, and no note. The file is freed before the
/// text is made.
#[tactic(auto, unfolding(crate::specs::Due::kd_text_due))]
pub fn kd_text_due(alloc: Global, file: Vec<u8>) -> Result<Due, Refusal>
    ensures answer { Answers due_bytes (kd_text_due file.items) result }
    ensures early { (f : AnyFault) → kd_declared_of file.items ≡ Err f → result ≡ Err (refusal.Fault f) }
    ensures kept { IfOk result (λ d. IsOkAnd (kd_meaning file.items) (IsReadAs PROFILE_TWO.number (output_bytes d.output))) }
{
    let geometry = kd_file_read(alloc, file)?;
    let text = PlyText::new(alloc, geometry)?;
    Ok(Due {
        output: Output::Text(text),
        note: Vec::new(alloc),
    })
}

/// The cloud that a kd-tree file means. The file is freed.
fn kd_file_read(alloc: Global, file: Vec<u8>) -> Result<Geometry, Refusal>
    ensures answer { Answers (λ g. g) (kd_meaning file.items) result }
    ensures early { (f : AnyFault) → kd_declared_of file.items ≡ Err f → result ≡ Err (refusal.Fault f) }
    ensures heads { IfOk result (λ g. IsTrue (has_heads PROFILE_TWO.number (heads_in g))) }
{
    kd_decode(alloc, &file)
}
