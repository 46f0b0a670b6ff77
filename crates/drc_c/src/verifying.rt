//! Verifying: whether a stream is a geometry by a map.

ghost use Rattle.std.specs.Prelude.{◌≡◌, ◌↔◌, ◌⊎◌, Bool, true, [], ◌∷◌, Contains, Ok, Err, Some, None, IfOk, IfSome, map, length};
ghost use Rattle.drc_base.specs.declared.faults.Fault.{Fault as AnyFault};
ghost use Rattle.drc_base.specs.declared.faults.Refusal.TheVariants as refusal;
ghost use Rattle.drc_base.specs.Profile.{profile_numbered};
ghost use Rattle.drc_base.specs.Refusals.{Answers};
ghost use Rattle.std.specs.Option.{option_map};
ghost use Rattle.mesh_model.specs.SameLaws.{count_of};
ghost use Rattle.drc_container.specs.reading.Meaning.{Meaning};
ghost use Rattle.drc_container.specs.reading.Stream.{stream_in};
ghost use Rattle.drc_verify.specs.Checked.{read_in, IsSame};
ghost use Rattle.drc_verify.specs.declared.verdicts.Verdict.{Verdict as AnyVerdict};
ghost use Rattle.drc_verify.specs.declared.verdicts.Verdict.TheVariants as verdict;
ghost use Rattle.drc_c.specs.Early.{arrays_early_fault};
ghost use Rattle.drc_c.specs.Faults.{IsTold};
ghost use Rattle.drc_c.specs.Inputs.{do_fit};
ghost use Rattle.drc_c.specs.Streams.{row_meant};
ghost use Rattle.drc_c.specs.Verified.{verdict_told, verified_arrays, with_count, Asks, IsVerified};

use crate::faults::{DrcFault, refuse};
use crate::heads::DrcHead;
use crate::inputs::{CLOUD, do_fit, geometry_meant};
use crate::options::flag_numbered;
use crate::profiles::profile_asked;
use crate::row_counts::count_of;
use crate::statuses::{BAD_ARGUMENT, DONE, NO_MEMORY, NOT_SAME, REFUSED};
use crate::streams::{DrcRow, map_meant};
use crate::verdicts::{DrcVerdict, tell};
use drc_base::{Profile, Refusal};
use drc_verify::{Verdict, a_yes_is_the_same, verify_read};
use mesh_model::Geometry;
use std::alloc::Global;

/// A verdict on a map of so many rows, given for one of another number that doesn't fit either.
fn with_count(count: u64, verdict: Verdict) -> Verdict
    ensures { result ≡ with_count count verdict }
{
    match verdict {
        Verdict::Rows(_) => Verdict::Rows(count),
        other => other,
    }
}

/// A row where there are to be none, and else none: another number than is wanted.
fn unfit_front(rows: &[DrcRow], wanted: u32) -> &[DrcRow]
    requires { length rows.now ≡ wanted → ⊥ }
    ensures { length result.now ≡ wanted → ⊥ }
{
    if wanted == 0 {
        return &rows[..1];
    }
    &rows[..0]
}

/// The verdict by rows that aren't as many as the faces or points of the geometry, which are not copied: it says no more of them than
/// their number.
#[tactic(auto, using(crate::proofs::UnfitRows::counted_answer))]
fn verify_unfit(
    alloc: Global,
    cloud: bool,
    rows: &[DrcRow],
    g: &Geometry,
    bytes: &[u8],
    surface: bool,
    profile: Profile,
) -> Result<Verdict, Refusal>
    requires { length rows.now ≡ count_of g.now → ⊥ }
    ensures verdict { Answers (λ v. v)
        (read_in (profile_numbered profile.number) surface cloud (map row_meant rows.now) g.now bytes.now) result }
    ensures same { (n : Meaning) → stream_in (profile_numbered profile.number) bytes.now ≡ Ok n
        → IfOk result (λ v. (v ≡ verdict.Same) ↔ IsSame surface cloud (map row_meant rows.now) g.now n) }
{
    a_yes_is_the_same();
    let front = unfit_front(rows, count_of(g));
    let map = map_meant(alloc, cloud, front)?;
    let verdict = verify_read(alloc, &map, g, bytes, surface, profile)?;
    Ok(with_count(rows.len() as u64, verdict))
}

/// The verdict on a geometry, the rows of its map, and a stream, read in a profile; or the stream's first fault, then why there is no
/// surface to compare. Rows are copied only where they are as many as the geometry has faces or points.
fn verify_rows(
    alloc: Global,
    cloud: bool,
    rows: &[DrcRow],
    g: &Geometry,
    bytes: &[u8],
    surface: bool,
    profile: Profile,
) -> Result<Verdict, Refusal>
    ensures verdict { Answers (λ v. v)
        (read_in (profile_numbered profile.number) surface cloud (map row_meant rows.now) g.now bytes.now) result }
    ensures same { (n : Meaning) → stream_in (profile_numbered profile.number) bytes.now ≡ Ok n
        → IfOk result (λ v. (v ≡ verdict.Same) ↔ IsSame surface cloud (map row_meant rows.now) g.now n) }
{
    if rows.len() != count_of(g) as usize {
        return verify_unfit(alloc, cloud, rows, g, bytes, surface, profile);
    }
    let map = map_meant(alloc, cloud, rows)?;
    verify_read(alloc, &map, g, bytes, surface, profile)
}

/// The verdict on the geometry that arrays mean, the rows of its map, and a stream, read in a profile; or the first fault of the
/// arrays, then of the stream, then why there is no surface to compare.
#[tactic(auto, unfolding(crate::specs::Verified::verified_arrays))]
fn verify_arrays(
    alloc: Global,
    mesh: u32,
    heads: &[DrcHead],
    corners: &[[u32; 3]],
    values: &[i32],
    rows: &[DrcRow],
    bytes: &[u8],
    surface: bool,
    profile: Profile,
) -> Result<Verdict, Refusal>
    requires { do_fit mesh heads.now corners.now values.now ≡ true }
    ensures answer { Answers (λ v. v) (verified_arrays (profile_numbered profile.number) surface mesh heads.now corners.now values.now rows.now bytes.now) result }
    ensures early { (f : AnyFault) → arrays_early_fault mesh heads.now corners.now values.now ≡ Some f → result ≡ Err (refusal.Fault f) }
    ensures verified { IfOk result (λ v. IsVerified (profile_numbered profile.number) surface mesh heads.now corners.now values.now rows.now bytes.now v) }
{
    let g = geometry_meant(alloc, mesh, heads, corners, values)?;
    verify_rows(alloc, mesh == CLOUD, rows, &g, bytes, surface, profile)
}

/// Whether surfaces are asked for, of arrays that fit each other, and the profile of the stream.
fn asked_for(
    mesh: u32,
    heads: &[DrcHead],
    corners: &[[u32; 3]],
    values: &[i32],
    profile: u32,
    surface: u32,
) -> Option<(bool, Profile)>
    ensures asked { Asks mesh heads.now corners.now values.now profile surface (option_map (λ a. a.0) result) }
    ensures profile { IfSome result (λ a. a.1.number ≡ profile) }
{
    if !do_fit(mesh, heads, corners, values) {
        return None;
    }
    let profile = profile_asked(profile)?;
    let surface = flag_numbered(surface)?;
    Some((surface, profile))
}

/// Whether a stream, read in a profile, means the geometry of arrays, as `drc_encode_into` has them, by the rows of a map, and
/// with `surface` (1, else 0) whether it is glued as that mesh is. Of what encoding uses it uses, with `surface`, how a mesh is
/// paired and how pairs are renumbered, and nothing else.
///
/// `DONE`: it is. `NOT_SAME`: it isn't. In both cases the verdict says so, and what differs first. `BAD_ARGUMENT`: just where the
/// arrays don't fit each other, `profile` is neither 2 nor 3, or `surface` neither 0 nor 1. `REFUSED`: the first fault of the
/// arrays, then of the stream, then with `surface` why there is no surface to compare. `NO_MEMORY`: nothing is written. Faults of
/// the heads, and of the numbers of points, values and faces, come before out of memory.
#[unsafe(no_mangle)]
pub extern "C" fn drc_verify(
    alloc: Global,
    mesh: u32,
    heads: &[DrcHead],
    corners: &[[u32; 3]],
    values: &[i32],
    rows: &[DrcRow],
    bytes: &[u8],
    profile: u32,
    surface: u32,
    out: &mut DrcVerdict,
    fault: &mut DrcFault,
) -> u32
    ensures statuses { Contains (DONE ∷ BAD_ARGUMENT ∷ REFUSED ∷ NO_MEMORY ∷ NOT_SAME ∷ []) result }
    ensures done { result ≡ DONE → (asked : Bool) × Asks mesh heads.now corners.now values.now profile surface (Some asked)
        × IsVerified (profile_numbered profile) asked mesh heads.now corners.now values.now rows.now bytes.now verdict.Same
        × (out.new ≡ verdict_told verdict.Same) }
    ensures not_same { result ≡ NOT_SAME → (asked : Bool) × (v : AnyVerdict) × Asks mesh heads.now corners.now values.now profile surface (Some asked)
        × IsVerified (profile_numbered profile) asked mesh heads.now corners.now values.now rows.now bytes.now v × (v ≡ verdict.Same → ⊥)
        × (out.new ≡ verdict_told v) }
    ensures bad { result ≡ BAD_ARGUMENT ↔ Asks mesh heads.now corners.now values.now profile surface None }
    ensures refused { result ≡ REFUSED → (asked : Bool) × (f : AnyFault) × Asks mesh heads.now corners.now values.now profile surface (Some asked)
        × (verified_arrays (profile_numbered profile) asked mesh heads.now corners.now values.now rows.now bytes.now ≡ Err f) × IsTold f fault.new }
    ensures early { (asked : Bool) (f : AnyFault) → Asks mesh heads.now corners.now values.now profile surface (Some asked)
        → arrays_early_fault mesh heads.now corners.now values.now ≡ Some f → (result ≡ REFUSED) × IsTold f fault.new }

    // What isn't written is as before.
    ensures verdict_same { (result ≡ DONE) ⊎ (result ≡ NOT_SAME) ⊎ (out.new ≡ out.old) }
    ensures fault_same { (result ≡ REFUSED) ⊎ (fault.new ≡ fault.old) }
{
    let (surface, profile) = match asked_for(mesh, heads, corners, values, profile, surface) {
        None => return BAD_ARGUMENT,
        Some(asked) => asked,
    };
    match verify_arrays(
        alloc, mesh, heads, corners, values, rows, bytes, surface, profile,
    ) {
        Ok(verdict) => tell(verdict, out),
        Err(refusal) => refuse(refusal, fault),
    }
}
