//! The header of a text.

ghost use Rattle.std.specs.Prelude.{◌≡◌, ◌≤◌, ◌++◌, All, length, codes, OnOk, IfOk};
ghost use Rattle.mesh_model.specs.declared.geometries.Geometry.TheVariants as geometry;
ghost use Rattle.ply_mesh.specs.Fields.{HasFields};
ghost use Rattle.ply_mesh.specs.RoundTripLaw.{IsReadAgain};
ghost use Rattle.ply_mesh.specs.Text.{line_text, text_of, element_line, first_lines, points_header, faces_header, last_line, list_line, ply_text};
ghost use Rattle.ply_mesh.specs.Printing.{header_lines};

use crate::head_writer::put_heads;
use crate::property_writer::put_properties;
use attr_heads::Head;
use decimal_text::append_spaced;
use drc_base::Memory;
use mesh_model::{Cloud, CornerMesh, Geometry};
use std::alloc::Global;

/// Appends `element NAME N`.
fn put_element(out: &mut Vec<u8>, name: &[u8], n: u32) -> Result<(), Memory>
    ensures { OnOk result (out.new.items ≡ out.old.items ++ line_text (element_line name.now n)) }
{
    out.extend_from_slice(b"element ")?;
    out.extend_from_slice(name)?;
    append_spaced(out, n as u64)?;
    out.push(b'\n')?;
    Ok(())
}

/// Appends the first two lines.
#[tactic(auto, unfolding(crate::specs::Text::line_text))]
fn put_first(out: &mut Vec<u8>) -> Result<(), Memory>
    ensures { OnOk result (out.new.items ≡ out.old.items ++ text_of first_lines) }
{
    out.extend_from_slice(b"ply\nformat ascii 1.0\n")?;
    Ok(())
}

/// Appends the header up to the properties of a point.
fn put_points_header(out: &mut Vec<u8>, heads: &[Head], points: u32) -> Result<(), Memory>
    requires { length heads.now ≤ 16 }
    ensures text { OnOk result (out.new.items ≡ out.old.items ++ text_of (points_header heads.now points)) }
    ensures fields { OnOk result (All HasFields heads.now) }
{
    put_first(out)?;
    put_heads(out, heads)?;
    put_element(out, b"vertex", points)?;
    put_properties(out, heads)
}

/// Appends the property of a face.
#[tactic(auto, unfolding(crate::specs::Text::line_text))]
fn put_list(out: &mut Vec<u8>) -> Result<(), Memory>
    ensures { OnOk result (out.new.items ≡ out.old.items ++ line_text list_line) }
{
    out.extend_from_slice(b"property list uchar int vertex_indices\n")?;
    Ok(())
}

/// Appends the faces' part of the header.
fn put_faces_header(out: &mut Vec<u8>, faces: u32) -> Result<(), Memory>
    ensures { OnOk result (out.new.items ≡ out.old.items ++ text_of (faces_header faces)) }
{
    put_element(out, b"face", faces)?;
    put_list(out)
}

/// Appends the last line of the header.
#[tactic(auto, unfolding(crate::specs::Text::line_text))]
fn put_last(out: &mut Vec<u8>) -> Result<(), Memory>
    ensures { OnOk result (out.new.items ≡ out.old.items ++ text_of last_line) }
{
    out.extend_from_slice(b"end_header\n")?;
    Ok(())
}

/// The header of the text of a mesh.
fn mesh_header(alloc: Global, mesh: &CornerMesh) -> Result<Vec<u8>, Memory>
    ensures text { IfOk result (λ text. text.items ≡ text_of (header_lines (geometry.Mesh mesh.now))) }
    ensures again { IfOk result (λ _. IsReadAgain (ply_text (geometry.Mesh mesh.now)) (geometry.Mesh mesh.now)) }
{
    let mut out = Vec::new(alloc);
    put_points_header(&mut out, mesh.heads(), mesh.point_count())?;
    put_faces_header(&mut out, mesh.face_count())?;
    put_last(&mut out)?;
    Ok(out)
}

/// The header of the text of a cloud.
fn cloud_header(alloc: Global, cloud: &Cloud) -> Result<Vec<u8>, Memory>
    ensures text { IfOk result (λ text. text.items ≡ text_of (header_lines (geometry.Cloud cloud.now))) }
    ensures again { IfOk result (λ _. IsReadAgain (ply_text (geometry.Cloud cloud.now)) (geometry.Cloud cloud.now)) }
{
    let mut out = Vec::new(alloc);
    put_points_header(&mut out, cloud.heads(), cloud.point_count())?;
    put_last(&mut out)?;
    Ok(out)
}

/// The header of the text of a geometry. Its fields have their widths, so the whole text is read as the
/// same geometry in each profile that has its heads.
pub(crate) fn header_of(alloc: Global, g: &Geometry) -> Result<Vec<u8>, Memory>
    ensures text { IfOk result (λ text. text.items ≡ text_of (header_lines g.now)) }
    ensures again { IfOk result (λ _. IsReadAgain (ply_text g.now) g.now) }
{
    match g {
        Geometry::Mesh(mesh) => mesh_header(alloc, mesh),
        Geometry::Cloud(cloud) => cloud_header(alloc, cloud),
    }
}
