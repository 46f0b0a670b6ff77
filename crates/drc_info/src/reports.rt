//! The report of a stream.

ghost use Rattle.std.specs.Prelude.{◌≡◌, ◌++◌, ◌∷◌, [], codes, Err, OnOk, IfOk};
ghost use Rattle.std.specs.Fmt.{signed_decimal};
ghost use Rattle.drc_base.specs.declared.faults.Fault.{Fault as AnyFault};
ghost use Rattle.drc_base.specs.declared.faults.Refusal.TheVariants as refusal;
ghost use Rattle.drc_base.specs.Profile.{profile_numbered};
ghost use Rattle.drc_base.specs.Refusals.{Answers};
ghost use Rattle.drc_container.specs.reading.Meaning.{told_by};
ghost use Rattle.drc_container.specs.reading.Stream.{declared_of};
ghost use Rattle.drc_info.specs.InfoText.{field, line, mesh_words, form_words, face_count, point_count, declared_line, info_attr_line, attr_lines, info_first_lines, count_lines, end_line, info_text, report_in};

use crate::lines::put_field;
use drc_base::{Memory, Profile, Refusal};
use drc_container::{AttrInfo, Decoded, Method, StreamInfo, decode_whole};
use itoa::Buffer;
use mesh_model::Geometry;
use std::alloc::Global;

/// The report of a stream in a profile, each line with LF: its version, geometry and method; the place of its
/// connectivity and its length, in bytes; its faces and points; for Edgebreaker the declared symbols,
/// splits and events; for each attribute its head, prediction and entries, and the place of its
/// prediction; the place of its end, and how many bytes follow. It refuses what `decode` refuses, by
/// the same first fault; those of what the stream declares come before out of memory.
pub fn report(alloc: Global, bytes: &[u8], profile: Profile) -> Result<Vec<u8>, Refusal>
    ensures text { Answers (λ v. v.items) (report_in (profile_numbered profile.number) bytes.now) result }
    ensures early { (f : AnyFault) → declared_of bytes.now ≡ Err f → result ≡ Err (refusal.Fault f) }
{
    let decoded = decode_whole(alloc, bytes, profile)?;
    Ok(info_text(alloc, &decoded)?)
}

/// The report of what a stream means and what is known of it.
#[tactic(auto, unfolding(crate::specs::InfoText::info_text))]
fn info_text(alloc: Global, decoded: &Decoded) -> Result<Vec<u8>, Memory>
    ensures { IfOk result (λ v. v.items ≡ info_text (told_by decoded.now)) }
{
    let mut out = Vec::new(alloc);
    put_first(&mut out, decoded)?;
    put_counts(&mut out, decoded)?;
    put_attrs(&mut out, decoded.info.attrs.as_slice())?;
    put_end(&mut out, &decoded.info)?;
    Ok(out)
}

/// Appends the form of the stream and where its connectivity stands.
#[tactic(auto, unfolding(crate::specs::InfoText::info_first_lines))]
fn put_first(out: &mut Vec<u8>, decoded: &Decoded) -> Result<(), Memory>
    ensures { OnOk result (out.new.items ≡ out.old.items ++ info_first_lines (told_by decoded.now)) }
{
    let (place, length) = decoded.info.connectivity;
    out.extend_from_slice(form_words(&decoded.geometry, decoded.info.method))?;
    out.push(b'\n')?;
    put_line(out, b"connectivity", &[place, length])?;
    Ok(())
}

/// Appends how many things the stream holds.
#[tactic(auto, unfolding(crate::specs::InfoText::count_lines))]
fn put_counts(out: &mut Vec<u8>, decoded: &Decoded) -> Result<(), Memory>
    ensures { OnOk result (out.new.items ≡ out.old.items ++ count_lines (told_by decoded.now)) }
{
    put_line(out, b"faces", &[face_count(&decoded.geometry)])?;
    put_line(out, b"points", &[point_count(&decoded.geometry)])?;
    put_declared(out, &decoded.info)?;
    Ok(())
}

/// Appends a line of one word and its numbers.
fn put_line(out: &mut Vec<u8>, word: &[u8], numbers: &[u64]) -> Result<(), Memory>
    ensures { OnOk result (out.new.items ≡ out.old.items ++ line word.now numbers.now) }
{
    put_field(out, word, numbers)?;
    out.push(b'\n')?;
    Ok(())
}

/// The words of the first line.
fn form_words(geometry: &Geometry, method: Method) -> &'static [u8]
    ensures { result.now ≡ form_words geometry.now method }
{
    match geometry {
        Geometry::Mesh(_) => mesh_words(method),
        Geometry::Cloud(_) => b"drc 2.3 cloud seq",
    }
}

/// The words of the first line for a mesh.
fn mesh_words(method: Method) -> &'static [u8]
    ensures { result.now ≡ mesh_words method }
{
    match method {
        Method::Seq => b"drc 2.2 mesh seq",
        Method::Eb => b"drc 2.2 mesh eb",
        Method::Valence => b"drc 2.2 mesh valence",
    }
}

/// The number of faces; a cloud has none.
fn face_count(geometry: &Geometry) -> u64
    ensures { result ≡ face_count geometry.now }
{
    match geometry {
        Geometry::Mesh(mesh) => mesh.face_count() as u64,
        Geometry::Cloud(_) => 0,
    }
}

/// The number of points.
fn point_count(geometry: &Geometry) -> u64
    ensures { result ≡ point_count geometry.now }
{
    match geometry {
        Geometry::Mesh(mesh) => mesh.point_count() as u64,
        Geometry::Cloud(cloud) => cloud.point_count() as u64,
    }
}

/// Appends the line of the declared numbers of Edgebreaker connectivity.
fn put_declared(out: &mut Vec<u8>, info: &StreamInfo) -> Result<(), Memory>
    ensures { OnOk result (out.new.items ≡ out.old.items ++ declared_line info.now info.now.method) }
{
    match info.method {
        Method::Seq => Ok(()),
        Method::Eb | Method::Valence => {
            put_field(out, b"symbols", &[info.symbols as u64])?;
            put_field(out, b" splits", &[info.splits as u64])?;
            put_line(out, b" events", &[info.events as u64])
        }
    }
}

/// Appends the lines of the attributes.
fn put_attrs(out: &mut Vec<u8>, attrs: &[AttrInfo]) -> Result<(), Memory>
    ensures { OnOk result (out.new.items ≡ out.old.items ++ attr_lines 0 attrs.now) }
{
    for k in 0..attrs.len() {
        put_attr(out, k as u64, &attrs[k])?;
    }
    Ok(())
}

/// Appends the line of attribute `k`.
fn put_attr(out: &mut Vec<u8>, k: u64, attr: &AttrInfo) -> Result<(), Memory>
    ensures { OnOk result (out.new.items ≡ out.old.items ++ info_attr_line k attr.now) }
{
    put_field(
        out,
        b"attr",
        &[
            k,
            attr.head.usage as u64,
            attr.head.dtype as u64,
            attr.head.comps as u64,
            attr.head.normalized as u64,
            attr.head.id as u64,
        ],
    )?;
    put_prediction(out, attr.predict)?;
    put_field(out, b" entries", &[attr.entries as u64])?;
    put_line(out, b" at", &[attr.at])
}

/// Appends a prediction.
fn put_prediction(out: &mut Vec<u8>, predict: i8) -> Result<(), Memory>
    ensures { OnOk result (out.new.items ≡ out.old.items ++ (codes " predict " ++ signed_decimal predict)) }
{
    out.extend_from_slice(b" predict ")?;
    let mut buffer = Buffer::new();
    out.extend_from_slice(buffer.format(predict).as_bytes())?;
    Ok(())
}

/// Appends the last line.
#[tactic(auto, unfolding(crate::specs::InfoText::end_line))]
fn put_end(out: &mut Vec<u8>, info: &StreamInfo) -> Result<(), Memory>
    ensures { OnOk result (out.new.items ≡ out.old.items ++ end_line info.now) }
{
    put_field(out, b"end", &[info.end])?;
    put_line(out, b" rest", &[info.rest])
}
