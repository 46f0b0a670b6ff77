//! Encoding: arrays to bytes.

ghost use Rattle.std.specs.Prelude.{◌≡◌, ◌<◌, ◌↔◌, ◌⊎◌, ℕ, List, [], ◌∷◌, Contains, true, Err, Some, None, IfOk, IfSome, is_some, position, length};
ghost use Rattle.std.specs.Option.{option_map};
ghost use Rattle.drc_base.specs.declared.faults.Fault.{Fault as AnyFault};
ghost use Rattle.drc_base.specs.declared.faults.Refusal.TheVariants as refusal;
ghost use Rattle.drc_base.specs.Refusals.{Answers};
ghost use Rattle.attr_heads.specs.FirstFault.{Tests};
ghost use Rattle.mesh_model.specs.Contents.{heads_in};
ghost use Rattle.drc_container.specs.declared.choice.choices.Choice.{Choice as AnyChoice};
ghost use Rattle.drc_c.specs.Arrays.{filled, filled_unless_empty, LacksRoomFor};
ghost use Rattle.drc_c.specs.Early.{arrays_early_fault};
ghost use Rattle.drc_c.specs.Faults.{IsTold};
ghost use Rattle.drc_c.specs.Inputs.{do_fit};
ghost use Rattle.drc_c.specs.declared.streams.DrcRow.{DrcRow as AnyRow};
ghost use Rattle.drc_c.specs.Encoded.{encoded, profile_fault, IsEncoding, TakesChoice};
ghost use Rattle.drc_c.specs.Profiles.{profile_chosen};

use crate::faults::{DrcFault, refuse};
use crate::heads::DrcHead;
use crate::inputs::{do_fit, geometry_lent, heads_tested};
use crate::options::{DrcOptions, options_meant};
use crate::profiles::has_shapes;
use crate::statuses::{BAD_ARGUMENT, DONE, NO_MEMORY, NO_ROOM, REFUSED};
use crate::streams::{DrcLengths, DrcRow, DrcStream, rows_told};
use crate::written::{Encoded, handed, place};
use attr_heads::Head;
use drc_base::{Fault, Kind, Profile, Refusal};
use drc_container::{Choice, encode_view};
use mesh_model::GeometryView;
use std::alloc::Global;

/// The first octahedral attribute.
fn first_square(heads: &[Head]) -> Option<usize>
    ensures { result ≡ position (λ h. is_some h.octa) heads.now }
{
    heads.iter().position(|head| head.octa.is_some())
}

/// The fault of a geometry with an octahedral attribute that is to be written in a profile without such.
fn test_profile(g: &GeometryView<'_>, profile: Profile) -> Result<(), Fault>
    ensures { Tests (profile_fault profile.number g.now) result }
{
    if has_shapes(profile) {
        return Ok(());
    }
    match first_square(g.heads()) {
        None => Ok(()),
        Some(at) => Err(Fault::new(Kind::Octahedral, at as u64)),
    }
}

/// The stream of the geometry that arrays mean, coded as chosen in a profile, and its map; or the first fault of the arrays, then
/// the first attribute that the profile doesn't have, then the first fault of the encoding.
#[tactic(auto, unfolding(crate::specs::Encoded::encoded), using(crate::proofs::EarlyFaults::early_refused))]
fn encode_arrays(
    alloc: Global,
    mesh: u32,
    heads: &[DrcHead],
    corners: &[[u32; 3]],
    values: &[i32],
    choice: &Choice,
    profile: Profile,
) -> Result<Encoded, Refusal>
    requires { do_fit mesh heads.now corners.now values.now ≡ true }
    ensures answer { Answers (λ e. (e.bytes.items, e.rows.items)) (encoded profile.number mesh heads.now corners.now values.now choice.now) result }
    ensures early { (f : AnyFault) → arrays_early_fault mesh heads.now corners.now values.now ≡ Some f → result ≡ Err (refusal.Fault f) }
    ensures means { IfOk result (λ e. IsEncoding profile.number mesh heads.now corners.now values.now choice.now e.bytes.items e.rows.items) }
{
    let heads = heads_tested(alloc, mesh, heads, corners, values)?;
    let g = geometry_lent(mesh, heads.as_slice(), corners, values)?;
    test_profile(&g, profile)?;
    let (bytes, renumber) = encode_view(alloc, &g, choice)?;
    let rows = rows_told(alloc, &renumber)?;
    Ok(Encoded { bytes, rows })
}

/// What options choose for arrays that fit each other, and the profile.
fn choice_for(
    mesh: u32,
    heads: &[DrcHead],
    corners: &[[u32; 3]],
    values: &[i32],
    options: &DrcOptions,
) -> Option<(Choice, Profile)>
    ensures choice { TakesChoice mesh heads.now corners.now values.now options.now (option_map (λ o. o.0) result) }
    ensures profile { IfSome result (λ o. o.1.number ≡ profile_chosen options.now.profile) }
{
    if !do_fit(mesh, heads, corners, values) {
        return None;
    }
    options_meant(options)
}

/// Encodes arrays into arrays of the caller: a mesh (1) or a cloud (0) of these heads, faces of three numbers of
/// points, and integers, point after point.
///
/// `DONE`: the arrays begin with the stream and its map, by which the stream means the geometry that was passed.
/// `BAD_ARGUMENT`: just where the arrays don't fit each other, an option's number names nothing that its profile has, or what is
/// spare in the options isn't zeros. `REFUSED`: the first fault of the arrays, then in profile 2 the first octahedral attribute,
/// `Octahedral` at its number, then the first fault of the encoding. `NO_ROOM`: one of the arrays is too short; the lengths say
/// what is needed. `NO_MEMORY`: nothing is written. Faults of the heads, and of the numbers of points, values and faces, come
/// before out of memory.
#[unsafe(no_mangle)]
pub extern "C" fn drc_encode_into(
    alloc: Global,
    mesh: u32,
    heads: &[DrcHead],
    corners: &[[u32; 3]],
    values: &[i32],
    options: &DrcOptions,
    bytes: &mut [u8],
    rows: &mut [DrcRow],
    lengths: &mut DrcLengths,
    fault: &mut DrcFault,
) -> u32
    ensures statuses { Contains (DONE ∷ BAD_ARGUMENT ∷ REFUSED ∷ NO_MEMORY ∷ NO_ROOM ∷ []) result }
    ensures done { result ≡ DONE → (choice : AnyChoice) × (stream : List ℕ) × (told : List AnyRow)
        × TakesChoice mesh heads.now corners.now values.now options.now (Some choice)
        × IsEncoding (profile_chosen options.now.profile) mesh heads.now corners.now values.now choice stream told
        × (lengths.new ≡ record { bytes = length stream; rows = length told })
        × (bytes.new ≡ filled stream bytes.old) × (rows.new ≡ filled_unless_empty told rows.old) }
    ensures bad { result ≡ BAD_ARGUMENT ↔ TakesChoice mesh heads.now corners.now values.now options.now None }
    ensures refused { result ≡ REFUSED → (choice : AnyChoice) × (f : AnyFault)
        × TakesChoice mesh heads.now corners.now values.now options.now (Some choice)
        × (encoded (profile_chosen options.now.profile) mesh heads.now corners.now values.now choice ≡ Err f) × IsTold f fault.new }
    ensures early { (choice : AnyChoice) (f : AnyFault) → TakesChoice mesh heads.now corners.now values.now options.now (Some choice)
        → arrays_early_fault mesh heads.now corners.now values.now ≡ Some f → (result ≡ REFUSED) × IsTold f fault.new }
    ensures no_room { result ≡ NO_ROOM → (choice : AnyChoice) × (stream : List ℕ) × (told : List AnyRow)
        × TakesChoice mesh heads.now corners.now values.now options.now (Some choice)
        × IsEncoding (profile_chosen options.now.profile) mesh heads.now corners.now values.now choice stream told
        × (lengths.new ≡ record { bytes = length stream; rows = length told })
        × ((length bytes.old < length stream) ⊎ LacksRoomFor told rows.old) }

    // What isn't written is as before.
    ensures arrays_same { (result ≡ DONE) ⊎ ((bytes.new ≡ bytes.old) × (rows.new ≡ rows.old)) }
    ensures lengths_same { (result ≡ DONE) ⊎ (result ≡ NO_ROOM) ⊎ (lengths.new ≡ lengths.old) }
    ensures fault_same { (result ≡ REFUSED) ⊎ (fault.new ≡ fault.old) }
{
    let (choice, profile) = match choice_for(mesh, heads, corners, values, options) {
        None => return BAD_ARGUMENT,
        Some(meant) => meant,
    };
    match encode_arrays(alloc, mesh, heads, corners, values, &choice, profile) {
        Ok(encoded) => place(&encoded, bytes, rows, lengths),
        Err(refusal) => refuse(refusal, fault),
    }
}

/// Encodes arrays, as `drc_encode_into`, into a stream and a map of their own, which C's `free` frees.
///
/// `DONE`: the stream means the geometry that was passed, by its map. `BAD_ARGUMENT`, `REFUSED`, `NO_MEMORY`: as there, and the
/// stream is as before. The same faults as there come before out of memory.
#[unsafe(no_mangle)]
pub extern "C" fn drc_encode(
    alloc: Global,
    mesh: u32,
    heads: &[DrcHead],
    corners: &[[u32; 3]],
    values: &[i32],
    options: &DrcOptions,
    stream: &mut DrcStream,
    fault: &mut DrcFault,
) -> u32
    ensures statuses { Contains (DONE ∷ BAD_ARGUMENT ∷ REFUSED ∷ NO_MEMORY ∷ []) result }
    ensures done { result ≡ DONE → (choice : AnyChoice) × (bytes : List ℕ) × (told : List AnyRow)
        × TakesChoice mesh heads.now corners.now values.now options.now (Some choice)
        × IsEncoding (profile_chosen options.now.profile) mesh heads.now corners.now values.now choice bytes told
        × (stream.new.lengths ≡ record { bytes = length bytes; rows = length told }) }
    ensures bad { result ≡ BAD_ARGUMENT ↔ TakesChoice mesh heads.now corners.now values.now options.now None }
    ensures refused { result ≡ REFUSED → (choice : AnyChoice) × (f : AnyFault)
        × TakesChoice mesh heads.now corners.now values.now options.now (Some choice)
        × (encoded (profile_chosen options.now.profile) mesh heads.now corners.now values.now choice ≡ Err f) × IsTold f fault.new }
    ensures early { (choice : AnyChoice) (f : AnyFault) → TakesChoice mesh heads.now corners.now values.now options.now (Some choice)
        → arrays_early_fault mesh heads.now corners.now values.now ≡ Some f → (result ≡ REFUSED) × IsTold f fault.new }

    // What isn't written is as before.
    ensures stream_same { (result ≡ DONE) ⊎ (stream.new ≡ stream.old) }
    ensures fault_same { (result ≡ REFUSED) ⊎ (fault.new ≡ fault.old) }
{
    let (chosen, profile) = match choice_for(mesh, heads, corners, values, options) {
        None => return BAD_ARGUMENT,
        Some(meant) => meant,
    };
    match encode_arrays(alloc, mesh, heads, corners, values, &chosen, profile) {
        Ok(encoded) => {
            *stream = handed(encoded);
            DONE
        }
        Err(refusal) => refuse(refusal, fault),
    }
}
