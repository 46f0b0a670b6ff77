//! Restoring: a stream in the order before its faces, or the points of its cloud, were renumbered.

ghost use Rattle.std.specs.Prelude.{◌≡◌, ◌<◌, ◌↔◌, ◌⊎◌, ℕ, Bool, not, true, false, List, [], ◌∷◌, Contains, Ok, Err, Some, None, IfOk, length};
ghost use Rattle.drc_base.specs.declared.faults.Fault.{Fault as AnyFault};
ghost use Rattle.drc_base.specs.declared.faults.Refusal.TheVariants as refusal;
ghost use Rattle.drc_base.specs.Profile.{profile_numbered};
ghost use Rattle.drc_base.specs.Refusals.{Answers};
ghost use Rattle.stream_counts.specs.Counts.{counts_declared_in};
ghost use Rattle.drc_c.specs.Arrays.{filled};
ghost use Rattle.drc_c.specs.Faults.{IsTold};
ghost use Rattle.drc_c.specs.Options.{flag_numbered};
ghost use Rattle.drc_c.specs.Profiles.{is_profile};
ghost use Rattle.drc_c.specs.Recoded.{restored_told, IsRestoring};

use crate::faults::{DrcFault, refuse};
use crate::options::flag_numbered;
use crate::profiles::profile_asked;
use crate::row_counts::test_rows;
use crate::statuses::{BAD_ARGUMENT, DONE, NO_MEMORY, NO_ROOM, REFUSED};
use crate::streams::{DrcLengths, DrcRow, DrcStream, map_meant};
use crate::written::{Encoded, handed, place};
use drc_base::{Profile, Refusal};
use drc_recode::restore;
use std::alloc::Global;

/// The stream of another one, read in a profile, in the order before the rows of a map, of a cloud or of a mesh, without a
/// map; or the first fault of the stream, of the map, then of the encoding.
fn restore_stream(
    alloc: Global,
    cloud: bool,
    rows: &[DrcRow],
    bytes: &[u8],
    profile: Profile,
) -> Result<Encoded, Refusal>
    ensures answer { Answers (λ e. e.bytes.items) (restored_told (profile_numbered profile.number) cloud rows.now bytes.now) result }
    ensures early { (f : AnyFault) → counts_declared_in (profile_numbered profile.number) bytes.now ≡ Err f
        → result ≡ Err (refusal.Fault f) }
    ensures means { IfOk result (λ e. IsRestoring (profile_numbered profile.number) rows.now bytes.now e.bytes.items) }
    ensures no_map { IfOk result (λ e. e.rows.items ≡ []) }
{
    test_rows(alloc, cloud, rows, bytes, profile)?;
    let map = map_meant(alloc, cloud, rows)?;
    let written = restore(alloc, &map, bytes, profile)?;
    Ok(Encoded {
        bytes: written,
        rows: Vec::new(alloc),
    })
}

/// Writes a stream, read in a profile, in the order that its faces, or the points of its cloud, had before the rows of a map,
/// of a mesh (1) or of a cloud (0), into an array of the caller. It is a sequential stream, and has no map.
///
/// `DONE`: the array begins with the old stream in that order. `BAD_ARGUMENT`: just where `mesh` is neither 0 nor 1, or `profile`
/// neither 2 nor 3. `REFUSED`: the first fault of the old stream, of the map, then of the encoding. `NO_ROOM`: the array is too
/// short; the lengths say what is needed. `NO_MEMORY`: nothing is written. Faults of the header and of the declared numbers of faces
/// and points come before out of memory. Rows are copied only where they are as many as the old stream declares.
#[unsafe(no_mangle)]
pub extern "C" fn drc_restore_into(
    alloc: Global,
    mesh: u32,
    rows: &[DrcRow],
    bytes: &[u8],
    profile: u32,
    written: &mut [u8],
    lengths: &mut DrcLengths,
    fault: &mut DrcFault,
) -> u32
    ensures statuses { Contains (DONE ∷ BAD_ARGUMENT ∷ REFUSED ∷ NO_MEMORY ∷ NO_ROOM ∷ []) result }
    ensures done { result ≡ DONE → (is_mesh : Bool) × (stream : List ℕ) × (flag_numbered mesh ≡ Some is_mesh)
        × (restored_told (profile_numbered profile) (not is_mesh) rows.now bytes.now ≡ Ok stream) × IsRestoring (profile_numbered profile) rows.now bytes.now stream
        × (lengths.new ≡ record { bytes = length stream; rows = 0 }) × (written.new ≡ filled stream written.old) }
    ensures bad { result ≡ BAD_ARGUMENT ↔ (is_profile profile ≡ false) ⊎ (flag_numbered mesh ≡ None) }
    ensures refused { result ≡ REFUSED → (is_mesh : Bool) × (f : AnyFault) × (flag_numbered mesh ≡ Some is_mesh)
        × (restored_told (profile_numbered profile) (not is_mesh) rows.now bytes.now ≡ Err f) × IsTold f fault.new }
    ensures early { (is_mesh : Bool) (f : AnyFault) → is_profile profile ≡ true → flag_numbered mesh ≡ Some is_mesh
        → counts_declared_in (profile_numbered profile) bytes.now ≡ Err f → (result ≡ REFUSED) × IsTold f fault.new }
    ensures no_room { result ≡ NO_ROOM → (is_mesh : Bool) × (stream : List ℕ) × (flag_numbered mesh ≡ Some is_mesh)
        × (restored_told (profile_numbered profile) (not is_mesh) rows.now bytes.now ≡ Ok stream) × (length written.old < length stream)
        × (lengths.new ≡ record { bytes = length stream; rows = 0 }) }

    // What isn't written is as before.
    ensures array_same { (result ≡ DONE) ⊎ (written.new ≡ written.old) }
    ensures lengths_same { (result ≡ DONE) ⊎ (result ≡ NO_ROOM) ⊎ (lengths.new ≡ lengths.old) }
    ensures fault_same { (result ≡ REFUSED) ⊎ (fault.new ≡ fault.old) }
{
    let profile = match profile_asked(profile) {
        None => return BAD_ARGUMENT,
        Some(profile) => profile,
    };
    let is_mesh = match flag_numbered(mesh) {
        None => return BAD_ARGUMENT,
        Some(is_mesh) => is_mesh,
    };
    match restore_stream(alloc, !is_mesh, rows, bytes, profile) {
        Ok(restored) => place(&restored, written, &mut [], lengths),
        Err(refusal) => refuse(refusal, fault),
    }
}

/// Writes a stream in the order before the rows of a map, as `drc_restore_into`, into a stream of its own, which C's `free`
/// frees.
///
/// `DONE`: the new stream is the old one in that order. `BAD_ARGUMENT`, `REFUSED`, `NO_MEMORY`: as there, and the place for
/// the new stream is as before.
#[unsafe(no_mangle)]
pub extern "C" fn drc_restore(
    alloc: Global,
    mesh: u32,
    rows: &[DrcRow],
    bytes: &[u8],
    profile: u32,
    stream: &mut DrcStream,
    fault: &mut DrcFault,
) -> u32
    ensures statuses { Contains (DONE ∷ BAD_ARGUMENT ∷ REFUSED ∷ NO_MEMORY ∷ []) result }
    ensures done { result ≡ DONE → (is_mesh : Bool) × (written : List ℕ) × (flag_numbered mesh ≡ Some is_mesh)
        × (restored_told (profile_numbered profile) (not is_mesh) rows.now bytes.now ≡ Ok written) × IsRestoring (profile_numbered profile) rows.now bytes.now written
        × (stream.new.lengths ≡ record { bytes = length written; rows = 0 }) }
    ensures bad { result ≡ BAD_ARGUMENT ↔ (is_profile profile ≡ false) ⊎ (flag_numbered mesh ≡ None) }
    ensures refused { result ≡ REFUSED → (is_mesh : Bool) × (f : AnyFault) × (flag_numbered mesh ≡ Some is_mesh)
        × (restored_told (profile_numbered profile) (not is_mesh) rows.now bytes.now ≡ Err f) × IsTold f fault.new }
    ensures early { (is_mesh : Bool) (f : AnyFault) → is_profile profile ≡ true → flag_numbered mesh ≡ Some is_mesh
        → counts_declared_in (profile_numbered profile) bytes.now ≡ Err f → (result ≡ REFUSED) × IsTold f fault.new }

    // What isn't written is as before.
    ensures stream_same { (result ≡ DONE) ⊎ (stream.new ≡ stream.old) }
    ensures fault_same { (result ≡ REFUSED) ⊎ (fault.new ≡ fault.old) }
{
    let profile = match profile_asked(profile) {
        None => return BAD_ARGUMENT,
        Some(profile) => profile,
    };
    let of_mesh = match flag_numbered(mesh) {
        None => return BAD_ARGUMENT,
        Some(of_mesh) => of_mesh,
    };
    match restore_stream(alloc, !of_mesh, rows, bytes, profile) {
        Ok(restored) => {
            *stream = handed(restored);
            DONE
        }
        Err(refusal) => refuse(refusal, fault),
    }
}
