//! The check of a stream against a text and a map.

ghost use Rattle.std.specs.Prelude.{◌≡◌, ◌↔◌, true, false, Ok, Err, IfOk};
ghost use Rattle.drc_base.specs.declared.faults.Fault.{Fault as AnyFault};
ghost use Rattle.drc_base.specs.declared.faults.Refusal.TheVariants as refusal;
ghost use Rattle.drc_base.specs.Profile.{profile_numbered};
ghost use Rattle.drc_base.specs.Refusals.{Answers};
ghost use Rattle.mesh_model.specs.declared.geometries.Geometry.{Geometry as AnyGeometry};
ghost use Rattle.ply_text.specs.DeclaredLines.{declared_of_text_in};
ghost use Rattle.ply_mesh.specs.Read.{ply_read_in};
ghost use Rattle.drc_container.specs.reading.Meaning.{Meaning};
ghost use Rattle.drc_container.specs.reading.Stream.{stream_in, declared_of};
ghost use Rattle.drc_verify.specs.Checked.{verdict_in, read_in, IsSame};
ghost use Rattle.drc_verify.specs.declared.verdicts.Verdict.TheVariants as verdict;

use crate::judging::judge;
use crate::laws::{a_surface_has_the_faces, a_yes_is_the_same};
use crate::surfaces::{judge_surface, text_pairs};
use crate::verdicts::Verdict;
use drc_base::{Profile, Refusal};
use drc_container::decode_whole;
use mesh_model::{Geometry, MapRead};
use ply_mesh::read_ply;
use std::alloc::Global;

/// The verdict on the geometry `g` of a text and on a stream by the rows alone.
fn check_rows(
    alloc: Global,
    map: &MapRead,
    g: &Geometry,
    stream: &[u8],
    profile: Profile,
) -> Result<Verdict, Refusal>
    ensures verdict { Answers (λ v. v) (read_in (profile_numbered profile.number) false map.now.cloud map.now.rows.rows g.now stream.now) result }
    ensures early { (f : AnyFault) → declared_of stream.now ≡ Err f → result ≡ Err (refusal.Fault f) }
    ensures same { (n : Meaning) → stream_in (profile_numbered profile.number) stream.now ≡ Ok n
        → IfOk result (λ v. (v ≡ verdict.Same) ↔ IsSame false map.now.cloud map.now.rows.rows g.now n) }
{
    a_yes_is_the_same();
    let n = decode_whole(alloc, stream, profile)?;
    let verdict = judge(alloc, map.cloud, map.rows.rows.as_slice(), g, &n.geometry)?;
    Ok(verdict)
}

/// The verdict on the geometry `g` of a text and on a stream by the rows and the pairs. The text's pairs are found
/// first, while the stream's geometry takes no memory yet; the stream's fault comes first all the same.
fn check_surface(
    alloc: Global,
    map: &MapRead,
    g: &Geometry,
    stream: &[u8],
    profile: Profile,
) -> Result<Verdict, Refusal>
    ensures verdict { Answers (λ v. v) (read_in (profile_numbered profile.number) true map.now.cloud map.now.rows.rows g.now stream.now) result }
    ensures early { (f : AnyFault) → declared_of stream.now ≡ Err f → result ≡ Err (refusal.Fault f) }
    ensures same { (n : Meaning) → stream_in (profile_numbered profile.number) stream.now ≡ Ok n
        → IfOk result (λ v. (v ≡ verdict.Same) ↔ IsSame true map.now.cloud map.now.rows.rows g.now n) }
{
    a_surface_has_the_faces();
    let pairs = text_pairs(alloc, g);
    let n = decode_whole(alloc, stream, profile)?;
    judge_surface(alloc, map.cloud, map.rows.rows.as_slice(), g, pairs, n)
}

/// The verdict that `verify` gives on a PLY text that means the geometry `g`, for a caller who has no more need of the
/// text. Refusals are those of `verify` behind the text's first fault. Faults of the numbers that the stream declares
/// come before out of memory.
pub fn verify_read(
    alloc: Global,
    map: &MapRead,
    g: &Geometry,
    stream: &[u8],
    surface: bool,
    profile: Profile,
) -> Result<Verdict, Refusal>
    ensures verdict { Answers (λ v. v) (read_in (profile_numbered profile.number) surface map.now.cloud map.now.rows.rows g.now stream.now) result }
    ensures early { (f : AnyFault) → declared_of stream.now ≡ Err f → result ≡ Err (refusal.Fault f) }
    ensures same { (n : Meaning) → stream_in (profile_numbered profile.number) stream.now ≡ Ok n
        → IfOk result (λ v. (v ≡ verdict.Same) ↔ IsSame surface map.now.cloud map.now.rows.rows g.now n) }
{
    if surface {
        check_surface(alloc, map, g, stream, profile)
    } else {
        check_rows(alloc, map, g, stream, profile)
    }
}

/// Whether `stream` means in this profile the geometry that the PLY text `ply` means in it, by the rows of `map`, and with `surface` whether
/// its glued pairs are besides those of the text's mesh under the new numbers that the rows give to its faces.
/// Without `surface` the verdict is `Same` exactly where map, text and stream are all of meshes or all of
/// clouds, and the stream's geometry is the text's by the rows; with it exactly where the pairs are the same
/// too. Every other verdict says what differs first. Refusals, the first that applies: the text's first fault;
/// the stream's first fault; and with `surface` Choice at 0 where the stream isn't Edgebreaker, NoPosition at
/// 0 where the text is a cloud or its first attribute is no position, Degenerate at the text's first face with
/// two corners at one position. A fault of a line of the text before `end_header` and before the first line that
/// quantises an attribute, or gives the bits of an octahedral one, comes before out of memory.
#[tactic(auto, unfolding(crate::specs::Checked::verdict_in))]
pub fn verify(
    alloc: Global,
    map: &MapRead,
    ply: &[u8],
    stream: &[u8],
    surface: bool,
    profile: Profile,
) -> Result<Verdict, Refusal>
    ensures verdict { Answers (λ v. v) (verdict_in (profile_numbered profile.number) surface map.now.cloud map.now.rows.rows ply.now stream.now) result }
    ensures early { (f : AnyFault) → declared_of_text_in profile.number ply.now ≡ Err f → result ≡ Err (refusal.Fault f) }
    ensures same { (g : AnyGeometry) (n : Meaning) → ply_read_in profile.number ply.now ≡ Ok g → stream_in (profile_numbered profile.number) stream.now ≡ Ok n
        → IfOk result (λ v. (v ≡ verdict.Same) ↔ IsSame surface map.now.cloud map.now.rows.rows g n) }
{
    let g = read_ply(alloc, profile, ply)?;
    verify_read(alloc, map, &g, stream, surface, profile)
}
