//! Decoding within limits of the caller.

ghost use Rattle.std.specs.Prelude.{◌≡◌, ◌↔◌, ◌⊎◌, [], ◌∷◌, Contains, true, false, None, Ok, Err, IfOk, IfSome};
ghost use Rattle.drc_base.specs.declared.faults.Fault.{Fault as AnyFault};
ghost use Rattle.drc_base.specs.declared.faults.Refusal.TheVariants as refusal;
ghost use Rattle.drc_base.specs.Profile.{profile_numbered};
ghost use Rattle.drc_base.specs.Refusals.{Answers};
ghost use Rattle.mesh_model.specs.declared.geometries.Geometry.{Geometry as AnyGeometry};
ghost use Rattle.drc_container.specs.reading.Stream.{meaning_in};
ghost use Rattle.drc_c.specs.Faults.{IsTold};
ghost use Rattle.drc_c.specs.Limits.{geometry_fault, declared_within, meaning_within, are_limits};
ghost use Rattle.drc_c.specs.Shapes.{shape_of};

use crate::decoding::{DrcGeometry, handed_out};
use crate::faults::{DrcFault, refuse};
use crate::limits::{DrcLimits, test_declared, test_geometry};
use crate::profiles::profile_asked;
use crate::statuses::{BAD_ARGUMENT, DONE, NO_MEMORY, REFUSED};
use drc_base::{Fault, Profile, Refusal};
use drc_container::decode;
use mesh_model::Geometry;
use std::alloc::Global;
use stream_counts::{DeclaredCounts, declared_counts};

/// What a stream declares, or its first fault, or the first of its numbers that is beyond its limit. It takes no memory.
#[tactic(auto, unfolding(crate::specs::Limits::declared_within))]
fn declared_within(
    bytes: &[u8],
    profile: Profile,
    limits: &DrcLimits,
) -> Result<DeclaredCounts, Fault>
    ensures { result ≡ declared_within (profile_numbered profile.number) limits.now bytes.now }
{
    let counts = declared_counts(bytes, profile)?;
    test_declared(limits, counts)?;
    Ok(counts)
}

/// The geometry that a stream means in a profile, within limits; or the first fault of what it declares, the first declared number
/// beyond its limit, its first fault, or the first number of the geometry beyond its limit. The first two come before out of memory.
#[tactic(auto, unfolding(crate::specs::Limits::meaning_within))]
fn decode_within(
    alloc: Global,
    bytes: &[u8],
    profile: Profile,
    limits: &DrcLimits,
) -> Result<Geometry, Refusal>
    ensures answer { Answers (λ g. g) (meaning_within (profile_numbered profile.number) limits.now bytes.now) result }
    ensures means { IfOk result (λ g. (meaning_in (profile_numbered profile.number) bytes.now ≡ Ok g)
        × (geometry_fault limits.now g ≡ None)) }
    ensures early { (f : AnyFault) → declared_within (profile_numbered profile.number) limits.now bytes.now ≡ Err f
        → result ≡ Err (refusal.Fault f) }
{
    declared_within(bytes, profile, limits)?;
    let g = decode(alloc, bytes, profile)?;
    test_geometry(limits, &g)?;
    Ok(g)
}

/// The profile of a number, where limits have nothing in what is spare.
fn asked_for(profile: u32, limits: &DrcLimits) -> Option<Profile>
    ensures profile { IfSome result (λ p. (p.number ≡ profile) × (are_limits profile limits.now ≡ true)) }
    ensures none { result ≡ None ↔ are_limits profile limits.now ≡ false }
{
    if limits.spare != 0 {
        return None;
    }
    profile_asked(profile)
}

/// Decodes a stream, read in a profile, into arrays of its own, as `drc_decode`, where it has no more faces, points and values
/// than the caller takes.
///
/// `DONE`: the geometry is what the stream means, and within the limits. `BAD_ARGUMENT`: just where `profile` is neither 2 nor 3, or
/// what is spare in the limits isn't 0. `REFUSED`: the first of these: the first fault of the header and of the declared numbers;
/// `FaceLimit` or `PointLimit` at a declared number that is beyond its limit; the first fault of the stream; `FaceLimit`, `PointLimit`
/// or `ValueLimit` at a number of the geometry that is beyond its limit. The first two come before out of memory. `NO_MEMORY`:
/// nothing is written. The geometry is as before unless it is done.
#[unsafe(no_mangle)]
pub extern "C" fn drc_decode_within(
    alloc: Global,
    bytes: &[u8],
    profile: u32,
    limits: &DrcLimits,
    out: &mut DrcGeometry,
    fault: &mut DrcFault,
) -> u32
    ensures statuses { Contains (DONE ∷ BAD_ARGUMENT ∷ REFUSED ∷ NO_MEMORY ∷ []) result }
    ensures done { result ≡ DONE → (g : AnyGeometry) × (meaning_within (profile_numbered profile) limits.now bytes.now ≡ Ok g)
        × (meaning_in (profile_numbered profile) bytes.now ≡ Ok g) × (geometry_fault limits.now g ≡ None) × (out.new.shape ≡ shape_of g) }
    ensures bad { result ≡ BAD_ARGUMENT ↔ are_limits profile limits.now ≡ false }
    ensures refused { result ≡ REFUSED → (f : AnyFault) × (meaning_within (profile_numbered profile) limits.now bytes.now ≡ Err f)
        × IsTold f fault.new }
    ensures early { (f : AnyFault) → are_limits profile limits.now ≡ true
        → declared_within (profile_numbered profile) limits.now bytes.now ≡ Err f → (result ≡ REFUSED) × IsTold f fault.new }

    // What isn't written is as before.
    ensures geometry_same { (result ≡ DONE) ⊎ (out.new ≡ out.old) }
    ensures fault_same { (result ≡ REFUSED) ⊎ (fault.new ≡ fault.old) }
{
    let profile = match asked_for(profile, limits) {
        None => return BAD_ARGUMENT,
        Some(profile) => profile,
    };
    match decode_within(alloc, bytes, profile, limits) {
        Ok(g) => {
            *out = handed_out(alloc, g);
            DONE
        }
        Err(refusal) => refuse(refusal, fault),
    }
}
