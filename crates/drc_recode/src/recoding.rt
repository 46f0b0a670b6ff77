//! A stream written in another way.

ghost use Rattle.std.specs.Prelude.{◌≡◌, Ok, Err, IfOk, IsOkAnd};
ghost use Rattle.drc_base.specs.declared.faults.Fault.{Fault as AnyFault};
ghost use Rattle.drc_base.specs.declared.faults.Refusal.TheVariants as refusal;
ghost use Rattle.drc_base.specs.Profile.{profile_numbered};
ghost use Rattle.drc_base.specs.Refusals.{Answers};
ghost use Rattle.drc_container.specs.writing.Encoded.{Means};
ghost use Rattle.drc_container.specs.writing.Layout.{IsLaidOut};
ghost use Rattle.drc_container.specs.reading.Stream.{meaning_in, declared_of};
ghost use Rattle.drc_recode.specs.Recoded.{recoded_in};

use crate::packing::decode_packed;
use drc_base::{Profile, Refusal};
use drc_container::{Choice, encode};
use mesh_model::Renumber;
use std::alloc::Global;

/// The stream of the geometry that these bytes mean in a profile, coded as chosen, and the rows by which the new stream's
/// geometry is that one: with the same heads and the same integers. Row i names the face that face i of the
/// new stream's mesh is, and by how much its corners are turned; by the sequential method row i is (i, 0).
/// Bytes after the stream's end are ignored.
///
/// Refused with the first fault of the stream, whose `at` is a place in it but for the kinds that say
/// otherwise; else with the first reason not to encode its geometry as chosen, as `drc_container::encode`.
/// Faults of what the stream declares come before out of memory, as of `drc_container::decode`.
pub fn recode(
    alloc: Global,
    bytes: &[u8],
    choice: &Choice,
    profile: Profile,
) -> Result<(Vec<u8>, Renumber), Refusal>
    ensures answer { Answers (λ r. (r.0.items, r.1.rows)) (recoded_in (profile_numbered profile.number) bytes.now choice.now) result }
    ensures early { (f : AnyFault) → declared_of bytes.now ≡ Err f → result ≡ Err (refusal.Fault f) }
    ensures means { IfOk result (λ r. IsOkAnd (meaning_in (profile_numbered profile.number) bytes.now) (λ g. Means g choice.now r.0.items r.1.rows)) }
    ensures layout { IfOk result (λ r. IsOkAnd (meaning_in (profile_numbered profile.number) bytes.now) (λ g. IsLaidOut g choice.now r.0.items)) }
{
    let geometry = decode_packed(alloc, bytes, profile)?;
    encode(alloc, &geometry, choice)
}
