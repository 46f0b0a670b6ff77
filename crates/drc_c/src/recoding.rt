//! Recoding: a stream coded in another way.

ghost use Rattle.std.specs.Prelude.{◌≡◌, ◌<◌, ◌↔◌, ◌⊎◌, ℕ, List, [], ◌∷◌, Contains, Err, Some, None, IfOk, length};
ghost use Rattle.drc_base.specs.declared.faults.Fault.{Fault as AnyFault};
ghost use Rattle.drc_base.specs.Profile.{profile_numbered};
ghost use Rattle.drc_base.specs.Refusals.{Answers};
ghost use Rattle.drc_container.specs.declared.choice.choices.Choice.{Choice as AnyChoice};
ghost use Rattle.drc_container.specs.reading.Stream.{declared_of};
ghost use Rattle.drc_base.specs.declared.faults.Refusal.TheVariants as refusal;
ghost use Rattle.drc_c.specs.Arrays.{filled, filled_unless_empty, LacksRoomFor};
ghost use Rattle.drc_c.specs.Faults.{IsTold};
ghost use Rattle.drc_c.specs.Options.{choice_meant, profile_meant};
ghost use Rattle.drc_c.specs.Recoded.{recoded_told, IsRecoding};
ghost use Rattle.drc_c.specs.declared.streams.DrcRow.{DrcRow as AnyRow};

use crate::faults::{DrcFault, refuse};
use crate::options::{DrcOptions, options_meant};
use crate::statuses::{BAD_ARGUMENT, DONE, NO_MEMORY, NO_ROOM, REFUSED};
use crate::streams::{DrcLengths, DrcRow, DrcStream, rows_told};
use crate::written::{Encoded, handed, place};
use drc_base::{Profile, Refusal};
use drc_container::Choice;
use drc_recode::recode;
use std::alloc::Global;

/// The stream of the geometry that another stream means in a profile, coded as chosen, and its map; or the first fault of
/// that stream, then of the encoding.
#[tactic(auto, unfolding(crate::specs::Recoded::recoded_told))]
fn recode_stream(
    alloc: Global,
    bytes: &[u8],
    choice: &Choice,
    profile: Profile,
) -> Result<Encoded, Refusal>
    ensures answer { Answers (λ e. (e.bytes.items, e.rows.items)) (recoded_told (profile_numbered profile.number) bytes.now choice.now) result }
    ensures early { (f : AnyFault) → declared_of bytes.now ≡ Err f → result ≡ Err (refusal.Fault f) }
    ensures means { IfOk result (λ e. IsRecoding (profile_numbered profile.number) bytes.now choice.now e.bytes.items e.rows.items) }
{
    let (written, renumber) = recode(alloc, bytes, choice, profile)?;
    let rows = rows_told(alloc, &renumber)?;
    Ok(Encoded {
        bytes: written,
        rows,
    })
}

/// Codes a stream in another way, into arrays of the caller: the new stream means the geometry of the old one, which is read in
/// the profile of the options, by its map.
///
/// `DONE`: the arrays begin with the new stream and its map. `BAD_ARGUMENT`: just where an option's number names nothing that its
/// profile has, or what is spare isn't zeros. `REFUSED`: the first fault of the old stream, then of the encoding. `NO_ROOM`: one of the arrays
/// is too short; the lengths say what is needed. `NO_MEMORY`: nothing is written. Faults of the old stream's header and of its
/// declared numbers come before out of memory.
#[unsafe(no_mangle)]
pub extern "C" fn drc_recode_into(
    alloc: Global,
    bytes: &[u8],
    options: &DrcOptions,
    written: &mut [u8],
    rows: &mut [DrcRow],
    lengths: &mut DrcLengths,
    fault: &mut DrcFault,
) -> u32
    ensures statuses { Contains (DONE ∷ BAD_ARGUMENT ∷ REFUSED ∷ NO_MEMORY ∷ NO_ROOM ∷ []) result }
    ensures done { result ≡ DONE → (choice : AnyChoice) × (stream : List ℕ) × (told : List AnyRow)
        × (choice_meant options.now ≡ Some choice) × IsRecoding (profile_meant options.now) bytes.now choice stream told
        × (lengths.new ≡ record { bytes = length stream; rows = length told })
        × (written.new ≡ filled stream written.old) × (rows.new ≡ filled_unless_empty told rows.old) }
    ensures bad { result ≡ BAD_ARGUMENT ↔ choice_meant options.now ≡ None }
    ensures refused { result ≡ REFUSED → (choice : AnyChoice) × (f : AnyFault) × (choice_meant options.now ≡ Some choice)
        × (recoded_told (profile_meant options.now) bytes.now choice ≡ Err f) × IsTold f fault.new }
    ensures early { (choice : AnyChoice) (f : AnyFault) → choice_meant options.now ≡ Some choice → declared_of bytes.now ≡ Err f
        → (result ≡ REFUSED) × IsTold f fault.new }
    ensures no_room { result ≡ NO_ROOM → (choice : AnyChoice) × (stream : List ℕ) × (told : List AnyRow)
        × (choice_meant options.now ≡ Some choice) × IsRecoding (profile_meant options.now) bytes.now choice stream told
        × (lengths.new ≡ record { bytes = length stream; rows = length told })
        × ((length written.old < length stream) ⊎ LacksRoomFor told rows.old) }

    // What isn't written is as before.
    ensures arrays_same { (result ≡ DONE) ⊎ ((written.new ≡ written.old) × (rows.new ≡ rows.old)) }
    ensures lengths_same { (result ≡ DONE) ⊎ (result ≡ NO_ROOM) ⊎ (lengths.new ≡ lengths.old) }
    ensures fault_same { (result ≡ REFUSED) ⊎ (fault.new ≡ fault.old) }
{
    let (choice, profile) = match options_meant(options) {
        None => return BAD_ARGUMENT,
        Some(meant) => meant,
    };
    match recode_stream(alloc, bytes, &choice, profile) {
        Ok(encoded) => place(&encoded, written, rows, lengths),
        Err(refusal) => refuse(refusal, fault),
    }
}

/// Codes a stream in another way, as `drc_recode_into`, into a stream and a map of their own, which C's `free` frees.
///
/// `DONE`: the new stream means the geometry of the old one, by its map. `BAD_ARGUMENT`, `REFUSED`, `NO_MEMORY`: as there, and the
/// place for the new stream is as before. Faults of the old stream's header and of its declared numbers come before
/// out of memory.
#[unsafe(no_mangle)]
pub extern "C" fn drc_recode(
    alloc: Global,
    bytes: &[u8],
    options: &DrcOptions,
    stream: &mut DrcStream,
    fault: &mut DrcFault,
) -> u32
    ensures statuses { Contains (DONE ∷ BAD_ARGUMENT ∷ REFUSED ∷ NO_MEMORY ∷ []) result }
    ensures done { result ≡ DONE → (choice : AnyChoice) × (written : List ℕ) × (told : List AnyRow)
        × (choice_meant options.now ≡ Some choice) × IsRecoding (profile_meant options.now) bytes.now choice written told
        × (stream.new.lengths ≡ record { bytes = length written; rows = length told }) }
    ensures bad { result ≡ BAD_ARGUMENT ↔ choice_meant options.now ≡ None }
    ensures refused { result ≡ REFUSED → (choice : AnyChoice) × (f : AnyFault) × (choice_meant options.now ≡ Some choice)
        × (recoded_told (profile_meant options.now) bytes.now choice ≡ Err f) × IsTold f fault.new }
    ensures early { (choice : AnyChoice) (f : AnyFault) → choice_meant options.now ≡ Some choice → declared_of bytes.now ≡ Err f
        → (result ≡ REFUSED) × IsTold f fault.new }

    // What isn't written is as before.
    ensures stream_same { (result ≡ DONE) ⊎ (stream.new ≡ stream.old) }
    ensures fault_same { (result ≡ REFUSED) ⊎ (fault.new ≡ fault.old) }
{
    let (chosen, profile) = match options_meant(options) {
        None => return BAD_ARGUMENT,
        Some(meant) => meant,
    };
    match recode_stream(alloc, bytes, &chosen, profile) {
        Ok(encoded) => {
            *stream = handed(encoded);
            DONE
        }
        Err(refusal) => refuse(refusal, fault),
    }
}
